// Modules of a few lines: how many nodes those that are read have, and the line and the construct of those that are refused.
use py_parser::read_module;
use py_syntax::{Line, Refusal};
use pyn_base::Construct::{
    Async, AtSign, Await, BitOperator, Bracket, Character, Comprehension, Division, Ellipsis,
    Encoding, Escape, From, Global as GlobalWord, Import, Indent, Lambda, NestedClass, NestedDef,
    Nesting, Nonlocal, Number, Power, String as Unclosed, Syntax, Tab, Walrus, With, Yield,
};
use pyn_base::{Construct, Memory};
use std::alloc::Global;
use std::test::Fail;

/// A text, and how many nodes its module has.
const READ: [(&str, u32); 26] = [
    ("", 0),
    ("x = 1\n", 0),
    ("\u{feff}x = 'a' \"b\" # c", 0),
    ("def f():\n    return 1\n", 3),
    ("def f(a): return a\r\n", 3),
    ("def f(a):\n    if a:\n        return 1\n    return 2\n", 7),
    ("def f(a):\n  if a: pass\n  elif a: pass\n  else: pass\n", 7),
    ("class A:\n    def f(self): pass\n", 2),
    ("class A(B): x = 1; y: int = 2;\n", 0),
    ("def f(a):\n    a.b, a[0] = 1, 2\n", 8),
    ("def f(a):\n    a[0] += a; del a[0, 1]\n", 10),
    ("def f(a):\n    for x, in a: continue\n", 4),
    ("def f(a):\n    while a: break\n", 4),
    ("def f(a):\n    assert a, 'm'\n", 4),
    ("def f(a):\n    raise a\n", 3),
    ("def f(a):\n    raise\n", 2),
    (
        "def f():\n  try: pass\n  except A as e: pass\n  finally: pass\n",
        6,
    ),
    (
        "def f():\n  try: pass\n  except (A, B,): pass\n  except: pass\n  else: pass\n",
        8,
    ),
    ("from typing import (A, B,)\nfrom typing import C\n", 0),
    ("from __future__ import annotations\n", 0),
    (
        "x: 'List[int]' = 1\ny: int | None = 1\nz: Dict[str, 'A'] = 1\n",
        0,
    ),
    ("def f(a: 'int' 'ger', b=None,) -> None: pass\n", 2),
    ("def f(a): a(a, b=a)\n", 6),
    ("def f(a): a(b=a, a)\n", 6),
    ("(a.b).c: int = 1\n", 0),
    ("if x: pass\nelif y: pass\n", 0),
];

/// A text, and the line and the construct for which it is refused.
const REFUSED: [(&str, Line, Construct); 58] = [
    // Blocks and columns.
    (" x = 1\n", 1, Indent),
    ("x = 1\n  y = 2\n", 2, Indent),
    ("if x:\n", 1, Indent),
    ("if x:\ny = 1\n", 1, Indent),
    ("if x: y = 1\n  z = 2\n", 2, Indent),
    (
        "def f(a):\n    if a:\n        return 1\n      return 2\n",
        4,
        Indent,
    ),
    ("if x:\n    def f(): pass\n", 2, NestedDef),
    ("def f():\n    def g():\n        lambda\n", 2, NestedDef),
    ("def f():\n    class A: pass\n", 2, NestedClass),
    ("if x: def f(): pass\n", 1, Syntax),
    // The first of the tokens that no line has.
    ("x = 1\n\ng = lambda: 1\n\n\tx = 1\n", 3, Lambda),
    ("async def f(): pass", 1, Async),
    ("await x", 1, Await),
    ("yield", 1, Yield),
    ("global x", 1, GlobalWord),
    ("nonlocal x", 1, Nonlocal),
    ("import os", 1, Import),
    ("from os import path", 1, From),
    ("def f():\n    from typing import A\n", 2, From),
    ("with x: pass", 1, With),
    ("[x for x in y]", 1, Comprehension),
    ("for x in y for z", 1, Comprehension),
    ("(x := 1)", 1, Walrus),
    ("@d", 1, AtSign),
    ("x @= y", 1, AtSign),
    ("x = a / b", 1, Division),
    ("if a / b:\n", 1, Division),
    ("x /= a ** b", 1, Division),
    ("x = a ** b", 1, Power),
    ("x = a & b", 1, BitOperator),
    ("x: int | str = 1", 1, BitOperator),
    ("x = ...", 1, Ellipsis),
    ("x = lambda: 1\ny = $\n", 1, Lambda),
    // What else has no reading.
    ("x = = 1", 1, Syntax),
    ("x = y = 1", 1, Syntax),
    ("x: int", 1, Syntax),
    ("x[0]: int = 1", 1, Syntax),
    ("x: List[int,] = 1", 1, Syntax),
    ("x: 'int +' = 1", 1, Syntax),
    ("x: 'a\\nb' = 1", 1, Syntax),
    ("del a[0],", 1, Syntax),
    ("del a", 1, Syntax),
    ("elif x: pass", 1, Syntax),
    ("for x in y:\n    z\nelse:\n    w\n", 3, Syntax),
    ("from typing import A,", 1, From),
    ("from typing import A;", 1, From),
    ("from __future__ import (annotations)", 1, From),
    // A `try` and its parts.
    ("try:\n    x\ny\n", 1, Syntax),
    ("try:\n    x / y\n", 2, Division),
    ("try:\n    x\nelse:\n    y\nfinally:\n    z\n", 1, Syntax),
    ("try: x: int | None = 1\n", 1, BitOperator),
    ("try: x\nexcept: y\nexcept A: z\n", 3, Syntax),
    ("try: x\nfinally: y\nelse: z\n", 3, Syntax),
    // Lexical faults, after the lines before them.
    ("x = (1", 1, Bracket),
    ("\"\"\"abc", 1, Unclosed),
    ("x = 1\ny = 1.5\n", 2, Number),
    ("if x:\n    $", 2, Character),
    ("try:\n    x\n$", 3, Character),
];

fn read(alloc: Global, text: &str) -> Result<u32, Refusal> {
    if text.len() > 262_144 {
        return Err(Refusal::Memory);
    }
    Ok(read_module(alloc, text.as_bytes())?.nodes)
}

/// The first text of either table that isn't as it says.
fn first_wrong(alloc: Global) -> Option<&'static str> {
    for (text, nodes) in READ {
        if read(alloc, text) != Ok(nodes) {
            return Some(text);
        }
    }
    for (text, line, construct) in REFUSED {
        if read(alloc, text) != Err(Refusal::Refused { line, construct }) {
            return Some(text);
        }
    }
    None
}

#[test]
fn texts_are_read_or_refused(rt: HostRuntime) -> Result<(), Fail> {
    assert_eq!(rt; first_wrong(rt.alloc()), None);
    Ok(())
}

/// A text made of one that is repeated, another in the middle, and a third that is repeated as often.
fn nested(
    alloc: Global,
    before: &str,
    times: usize,
    middle: &str,
    after: &str,
) -> Result<String, Memory> {
    let mut text = String::new(alloc);
    for _ in 0..times {
        text.push_str(before)?;
    }
    text.push_str(middle)?;
    for _ in 0..times {
        text.push_str(after)?;
    }
    Ok(text)
}

/// A function of so many tests inside one another.
fn tests(alloc: Global, times: usize) -> Result<String, Memory> {
    let mut text = String::new(alloc);
    text.push_str("def f():\n")?;
    for depth in 0..times {
        for _ in 0..depth {
            text.push_str(" ")?;
        }
        text.push_str(" if True:\n")?;
    }
    for _ in 0..times {
        text.push_str(" ")?;
    }
    text.push_str(" pass\n")?;
    Ok(text)
}

#[test]
fn depths_end_where_they_should(rt: HostRuntime) -> Result<(), Fail> {
    let alloc = rt.alloc();
    let refused = |line, construct| Err(Refusal::Refused { line, construct });
    assert_eq!(rt; read(alloc, &nested(alloc, "(", 49, "1", ")")?), Ok(0));
    assert_eq!(rt;
        read(alloc, &nested(alloc, "(", 50, "1", ")")?),
        refused(1, Syntax)
    );
    assert_eq!(rt;
        read(alloc, &nested(alloc, "(", 51, "1", ")")?),
        refused(1, Nesting)
    );
    assert_eq!(rt; read(alloc, &tests(alloc, 19)?), Ok(40));
    assert_eq!(rt; read(alloc, &tests(alloc, 20)?), refused(22, Nesting));
    assert_eq!(rt; read(alloc, &nested(alloc, "a;", 100_000, "a", "")?), Ok(0));
    assert_eq!(rt;
        read(alloc, &nested(alloc, "elif a: b\n", 5_000, "", "")?),
        refused(1, Syntax)
    );
    Ok(())
}
