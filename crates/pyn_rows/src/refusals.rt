// Why modules are refused, by the top call: what the grammar, acceptance and the first form say of them.
use crate::top_call::{WORDS, desk, has_said, words};
use pyn_base::CallKind;
use pynguin_job::{Status, pynguin};
use std::alloc::Global;
use std::test::Fail;

// Whether a module is refused with this text, and nothing is written.
fn is_refused(alloc: Global, text: &str, said: &str) -> Result<bool, Fail> {
    let mut desk = desk(alloc, text, Vec::new(alloc))?;
    let words = words(alloc, WORDS)?;
    let status = pynguin(alloc, words.as_slice(), &mut desk);
    let calls = desk.calls();
    Ok(
        status == Status::Refused
            && calls.len() == 2
            && calls[1].kind == CallKind::Say
            && has_said(&desk, said)
            && desk.file("test_one.py").is_none()
            && desk.file("report.txt").is_none(),
    )
}

#[test]
fn the_first_faulty_line_is_refused(rt: HostRuntime) -> Result<(), Fail> {
    let alloc = rt.alloc();
    let rows = [
        ("x = 1\n\ng = lambda: 1\n\n\ty = 2\n", "one.py:3: lambda\n"),
        (
            "def f(a):\n    if a:\n        return 1\n      return 2\n",
            "one.py:4: indent\n",
        ),
        ("def f():\n", "one.py:1: indent\n"),
        ("def f():\n    return 01\n", "one.py:2: number\n"),
        ("def f():\n    return 1", "one.py:2: form\n"),
        (
            "def f():\n    return 1\n\ndef g():\n    return 2\n",
            "one.py:4: form\n",
        ),
        (
            "def f():\n    if True:\n        x = y\n        break\n",
            "one.py:3: unknown name\n",
        ),
    ];
    for (text, said) in &rows {
        assert!(rt; is_refused(alloc, text, said)?, "{text}");
    }
    Ok(())
}

#[test]
fn each_rule_of_acceptance_refuses_its_line(rt: HostRuntime) -> Result<(), Fail> {
    let alloc = rt.alloc();
    let rows = [
        (
            "x = 1\nfrom __future__ import annotations\n",
            "one.py:2: import\n",
        ),
        ("x = [1]\n", "one.py:1: module state\n"),
        ("class A:\n    x = {}\n", "one.py:2: module state\n"),
        (
            "if __name__ == \"__main__\":\n    pass\n",
            "one.py:1: module statement\n",
        ),
        ("class A:\n    print(1)\n", "one.py:2: class statement\n"),
        ("x = 1\nx = 2\n", "one.py:2: duplicate name\n"),
        (
            "def f():\n    return 1\n\n\ndef f():\n    return 2\n",
            "one.py:5: duplicate name\n",
        ),
        ("x = 1\nlen = 2\n", "one.py:2: duplicate name\n"),
        (
            "class A:\n    def __eq__(self, other):\n        return True\n",
            "one.py:2: special method\n",
        ),
        (
            "def f(a):\n    return a.__dict__\n",
            "one.py:2: special name\n",
        ),
        (
            "class A:\n    def f(self):\n        return self.__x\n",
            "one.py:3: private name\n",
        ),
        ("class A(B):\n    pass\n", "one.py:1: unknown base\n"),
        ("def f(a, a):\n    return 1\n", "one.py:1: parameters\n"),
        ("def f(a=1, b):\n    return 1\n", "one.py:1: parameters\n"),
        (
            "def f(a=[]):\n    return 1\n",
            "one.py:1: mutable default\n",
        ),
        ("def f(a=1 + 1):\n    return 1\n", "one.py:1: default\n"),
        ("def f(a: Foo):\n    return 1\n", "one.py:1: annotation\n"),
        (
            "x = 1\n\n\nclass A:\n    x = 2\n    y = x\n",
            "one.py:6: class scope\n",
        ),
        ("from typing import Generator\n", "one.py:1: typing name\n"),
        ("def f():\n    break\n", "one.py:2: break outside loop\n"),
        ("def f():\n    raise\n", "one.py:2: bare raise\n"),
        (
            "def f():\n    try:\n        pass\n    except int:\n        pass\n",
            "one.py:4: exception name\n",
        ),
        ("def f():\n    return super().g()\n", "one.py:2: super\n"),
        ("def f(a):\n    return f(a=1, 2)\n", "one.py:2: arguments\n"),
        ("def f():\n    return y\n", "one.py:2: unknown name\n"),
    ];
    for (text, said) in &rows {
        assert!(rt; is_refused(alloc, text, said)?, "{text}");
    }
    Ok(())
}

// Modules beside the refused ones, which acceptance takes. Their first line that isn't of the first form is refused.
#[test]
fn what_acceptance_takes_is_refused_for_its_form(rt: HostRuntime) -> Result<(), Fail> {
    let alloc = rt.alloc();
    let rows = [
        (
            "\"text\"\nfrom __future__ import annotations\n",
            "one.py:1: form\n",
        ),
        ("x = (1, -2)\n", "one.py:1: form\n"),
        ("class A:\n    x = ()\n", "one.py:1: form\n"),
        ("pass\n", "one.py:1: form\n"),
        ("class A:\n    pass\n", "one.py:1: form\n"),
        ("x = 1\ny = 2\n", "one.py:1: form\n"),
        (
            "class A:\n    def __init__(self, other):\n        pass\n",
            "one.py:1: form\n",
        ),
        ("def f(a):\n    return a.dict\n", "one.py:1: form\n"),
        ("def f(a):\n    return a.__x\n", "one.py:1: form\n"),
        (
            "class B:\n    pass\n\n\nclass A(B):\n    pass\n",
            "one.py:1: form\n",
        ),
        ("def f(a, b=1):\n    return 1\n", "one.py:1: form\n"),
        ("def f(a=()):\n    return 1\n", "one.py:1: form\n"),
        ("x = 1\n\n\ndef f(a=x):\n    return 1\n", "one.py:1: form\n"),
        ("def f(a: int):\n    return 1\n", "one.py:1: form\n"),
        (
            "x = 1\n\n\nclass A:\n    y = x\n    x = 2\n",
            "one.py:1: form\n",
        ),
        ("from typing import List\n", "one.py:1: form\n"),
        (
            "def f():\n    while True:\n        break\n",
            "one.py:2: form\n",
        ),
        (
            "def f():\n    try:\n        pass\n    except:\n        raise\n",
            "one.py:2: form\n",
        ),
        (
            "def f():\n    try:\n        pass\n    except ValueError:\n        pass\n",
            "one.py:2: form\n",
        ),
        (
            "class A:\n    def f(self):\n        return super().g()\n",
            "one.py:1: form\n",
        ),
        ("def f(a, b):\n    return f(1, b=2)\n", "one.py:1: form\n"),
        ("def f():\n    return f\n", "one.py:2: form\n"),
    ];
    for (text, said) in &rows {
        assert!(rt; is_refused(alloc, text, said)?, "{text}");
    }
    Ok(())
}

// Functions `f0`, `f1` and so on, two lines each.
fn functions(alloc: Global, count: u32) -> Result<String, Fail> {
    let mut text = String::new(alloc);
    for number in 0..count {
        write!(text, "def f{number}():\n    return 1\n")?;
    }
    Ok(text)
}

// Classes `C0`, `C1` and so on, each the base of the next, two lines each.
fn classes(alloc: Global, count: u32) -> Result<String, Fail> {
    let mut text = String::new(alloc);
    text.push_str("class C0:\n    pass\n")?;
    for number in 1..count {
        let base = number - 1;
        write!(text, "class C{number}(C{base}):\n    pass\n")?;
    }
    Ok(text)
}

#[test]
fn limits_of_acceptance_refuse_the_next_one(rt: HostRuntime) -> Result<(), Fail> {
    let alloc = rt.alloc();
    let rows = [
        (functions(alloc, 2000)?, "one.py:3: form\n"),
        (functions(alloc, 2001)?, "one.py:4001: too many functions\n"),
        (classes(alloc, 21)?, "one.py:1: form\n"),
        (classes(alloc, 22)?, "one.py:43: base chain\n"),
    ];
    for (text, said) in &rows {
        assert!(rt; is_refused(alloc, text.as_str(), said)?, "{said}");
    }
    Ok(())
}
