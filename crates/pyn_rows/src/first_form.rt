// What no clause says: that ample memory suffices, and how long it takes.

use py_first_form::read_first;
use py_syntax::{Module, Refusal};
use pyn_base::Construct;
use std::alloc::Global;
use std::test::Fail;

// The most bytes that a module may have.
const MOST_BYTES: usize = 262_144;

fn is_refused(answer: &Result<Module, Refusal>, line: u64) -> bool {
    match answer {
        Ok(_) => false,
        Err(refusal) => {
            *refusal
                == Refusal::Refused {
                    line,
                    construct: Construct::Form,
                }
        }
    }
}

fn count(answer: &Result<Module, Refusal>) -> Option<usize> {
    match answer {
        Ok(module) => Some(module.items.len()),
        Err(_) => None,
    }
}

// A module of some functions `f0`, `f1` and so on, parted by some empty lines.
fn module(alloc: Global, functions: u32, gap: u32) -> Result<String, Fail> {
    let mut text = String::new(alloc);
    for number in 0..functions {
        if number > 0 {
            for _ in 0..gap {
                text.push_str("\n")?;
            }
        }
        write!(text, "def f{number}():\n    return {number}\n")?;
    }
    Ok(text)
}

#[test]
fn modules_of_the_form_are_read(rt: HostRuntime) -> Result<(), Fail> {
    let alloc = rt.alloc();
    let table = [
        ("", 0),
        (
            "def f():\n    return 1\n\n\ndef g():\n    return \"x\"\n",
            2,
        ),
        ("def f():\n    return None\n", 1),
        ("def f():\n    return True\n", 1),
        ("def f():\n    return False\n", 1),
        ("def f():\n    return 0\n", 1),
        ("def a2():\n    return 9999999999999999999\n", 1),
        ("def f():\n    return \"a b\"\n", 1),
    ];
    for (text, functions) in &table {
        let answer = read_first(alloc, text.as_bytes());
        assert_eq!(rt; count(&answer), Some(*functions), "{text}");
    }
    Ok(())
}

#[test]
fn other_texts_are_refused_at_their_line(rt: HostRuntime) -> Result<(), Fail> {
    let alloc = rt.alloc();
    let table = [
        ("def f(a):\n    return 1\n", 1),
        ("def f():\n", 2),
        ("def f():\n    return 1", 2),
        ("def f():\n    return 01\n", 2),
        ("def f():\n    return 1\n\ndef g():\n    return 1\n", 4),
        ("def f():\n    return 1\n\n\n\ndef g():\n    return 1\n", 5),
        ("def f():\n    return 1\n\n\ndef f():\n    return 1\n", 5),
    ];
    for (text, line) in &table {
        assert!(rt;
            is_refused(&read_first(alloc, text.as_bytes()), *line),
            "{text}"
        );
    }
    Ok(())
}

#[test]
fn as_many_functions_as_may_be_are_read(rt: HostRuntime) -> Result<(), Fail> {
    let alloc = rt.alloc();
    let most = module(alloc, 2000, 2)?;
    assert!(rt; most.len() <= MOST_BYTES);
    assert_eq!(rt; count(&read_first(alloc, most.as_bytes())), Some(2000));
    let more = module(alloc, 2001, 2)?;
    assert!(rt; more.len() <= MOST_BYTES);
    assert!(rt; is_refused(&read_first(alloc, more.as_bytes()), 7999));
    Ok(())
}
