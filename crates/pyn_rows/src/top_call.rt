// The program over desks in memory. The suites and reports are those that the formats say.
use pyn_base::{Break, Bytes, CallKind, Called, Desk, MemoryDesk, Text};
use pynguin_job::{Status, pynguin};
use std::alloc::Global;
use std::test::Fail;

pub(crate) const WORDS: &str = "--module one.py --suite test_one.py --report report.txt";

const ONE: &str = "def f():\n    return 1\n";

const ONE_SUITE: &str =
    "import pytest\nimport one as module_0\n\n\ndef test_case_0():\n    var_0 = module_0.f()\n";

const ONE_REPORT: &str =
    "pynguin report 1\nmodule one\nsteps 20000\nmutants 0\ntest 0 passes\ngoal 0 entry 1 covered 0\ngoal 1 line 2 covered 0\ngoals 2 of 2\nkills 0 of 0\nminimal yes\n";

pub(crate) fn words(alloc: Global, line: &str) -> Result<Vec<Text>, Fail> {
    let mut words = Vec::new(alloc);
    for word in line.split(' ') {
        words.push(Text::from_str(alloc, word)?)?;
    }
    Ok(words)
}

/// A desk with the module `one.py`, which fails at these calls.
pub(crate) fn desk(
    alloc: Global,
    text: &str,
    failing: Vec<(u64, Break)>,
) -> Result<MemoryDesk, Fail> {
    let mut files = Vec::new(alloc);
    let bytes = Bytes::from_slice(alloc, text.as_bytes())?;
    files.push((Text::from_str(alloc, "one.py")?, bytes))?;
    Ok(MemoryDesk::new(alloc, files, failing)?)
}

/// Whether exactly this was said.
pub(crate) fn has_said(desk: &MemoryDesk, text: &str) -> bool {
    desk.said() == text.as_bytes()
}

fn is_file(desk: &MemoryDesk, name: &str, text: &str) -> bool {
    match desk.file(name) {
        Some(bytes) => bytes == text.as_bytes(),
        None => false,
    }
}

#[test]
fn modules_get_their_suite_and_report(rt: HostRuntime) -> Result<(), Fail> {
    let alloc = rt.alloc();
    let rows = [
        (ONE, ONE_SUITE, ONE_REPORT),
        (
            "",
            "import pytest\nimport one as module_0\n",
            "pynguin report 1\nmodule one\nsteps 20000\nmutants 0\ngoals 0 of 0\nkills 0 of 0\nminimal yes\n",
        ),
        (
            "def f():\n    return 1\n\n\ndef g():\n    return \"x\"\n",
            "import pytest\nimport one as module_0\n\n\ndef test_case_0():\n    var_0 = module_0.f()\n\n\ndef test_case_1():\n    var_0 = module_0.g()\n",
            "pynguin report 1\nmodule one\nsteps 20000\nmutants 0\ntest 0 passes\ntest 1 passes\ngoal 0 entry 1 covered 0\ngoal 1 line 2 covered 0\ngoal 2 entry 5 covered 1\ngoal 3 line 6 covered 1\ngoals 4 of 4\nkills 0 of 0\nminimal yes\n",
        ),
    ];
    for (text, suite, report) in rows {
        let mut desk = desk(alloc, text, Vec::new(alloc))?;
        let words = words(alloc, WORDS)?;
        assert_eq!(rt; pynguin(alloc, words.as_slice(), &mut desk), Status::Done);
        assert!(rt; is_file(&desk, "test_one.py", suite));
        assert!(rt; is_file(&desk, "report.txt", report));
        assert!(rt; is_file(&desk, "one.py", text));
        assert_eq!(rt; desk.calls().len(), 3);
        assert_eq!(rt; desk.faults(), 0);
        assert!(rt; has_said(&desk, ""));
    }
    Ok(())
}

#[test]
fn words_are_refused(rt: HostRuntime) -> Result<(), Fail> {
    let alloc = rt.alloc();
    let bad_words = [
        "",
        "--module one.py",
        "--suite test_one.py --module one.py --report report.txt",
        "--module one.py --suite one.py --report report.txt",
        "--module one.py --suite s.py --report s.py",
        "--module class.py --suite s.py --report report.txt",
        "--module pytest.py --suite s.py --report report.txt",
        "--module one.txt --suite s.py --report report.txt",
        "--module 1.py --suite s.py --report report.txt",
        "--module a/.py --suite s.py --report report.txt",
    ];
    for row in bad_words {
        let mut desk = desk(alloc, ONE, Vec::new(alloc))?;
        let words = words(alloc, row)?;
        assert_eq!(rt;
            pynguin(alloc, words.as_slice(), &mut desk),
            Status::BadWords
        );
        assert!(rt; has_said(&desk, "bad words\n"));
        assert_eq!(rt; desk.calls().len(), 1);
    }
    Ok(())
}

#[test]
fn each_call_fails_in_turn(rt: HostRuntime) -> Result<(), Fail> {
    let alloc = rt.alloc();
    let said = [
        "one.py: cannot be read\n",
        "test_one.py: cannot be written\n",
        "report.txt: cannot be written\n",
    ];
    for how in [Break::Before, Break::Half] {
        for number in 0..3u64 {
            let mut failing = Vec::new(alloc);
            failing.push((number, how))?;
            let mut desk = desk(alloc, ONE, failing)?;
            let words = words(alloc, WORDS)?;
            assert_eq!(rt; pynguin(alloc, words.as_slice(), &mut desk), Status::Fault);
            assert_eq!(rt; desk.faults(), 1);
            let calls = desk.calls();
            assert_eq!(rt; calls.len() as u64, number + 2);
            assert!(rt; calls[number as usize].failed);
            assert!(rt; has_said(&desk, said[number as usize]));
            assert_eq!(rt; is_file(&desk, "test_one.py", ONE_SUITE), number == 2);
            let half = ONE_REPORT.as_bytes();
            let report = desk.file("report.txt");
            if number == 2 && how == Break::Half {
                assert!(rt; report == Some(&half[..half.len() / 2]));
            } else {
                assert!(rt; report.is_none());
            }
        }
    }
    Ok(())
}

#[test]
fn a_missing_module_is_a_fault(rt: HostRuntime) -> Result<(), Fail> {
    let alloc = rt.alloc();
    let mut desk = MemoryDesk::new(alloc, Vec::new(alloc), Vec::new(alloc))?;
    let words = words(alloc, WORDS)?;
    assert_eq!(rt; pynguin(alloc, words.as_slice(), &mut desk), Status::Fault);
    assert_eq!(rt; desk.faults(), 1);
    assert!(rt; desk.file("test_one.py").is_none());
    let calls = desk.calls();
    assert_eq!(rt; calls.len(), 2);
    assert!(rt; calls[0].failed && calls[0].kind == CallKind::Read);
    assert!(rt; !calls[1].failed && calls[1].kind == CallKind::Say);
    assert!(rt; has_said(&desk, "one.py: cannot be read\n"));
    Ok(())
}

#[test]
fn a_module_past_its_limit_is_refused(rt: HostRuntime) -> Result<(), Fail> {
    let alloc = rt.alloc();
    let rows = [
        (262_144usize, "one.py:1: form\n"),
        (262_145, "one.py:1: too long\n"),
    ];
    for (length, said) in rows {
        let mut text = Text::new(alloc);
        for _ in 1..length {
            text.push('#')?;
        }
        text.push('\n')?;
        let mut desk = desk(alloc, text.as_str(), Vec::new(alloc))?;
        let words = words(alloc, WORDS)?;
        assert_eq!(rt;
            pynguin(alloc, words.as_slice(), &mut desk),
            Status::Refused
        );
        assert_eq!(rt; desk.faults(), 0);
        assert!(rt; has_said(&desk, said));
    }
    Ok(())
}

// Whether the last of the calls is a `say` that failed.
fn ends_with_a_failed_say(calls: &[Called]) -> bool {
    match calls.last() {
        None => false,
        Some(last) => last.failed && last.kind == CallKind::Say,
    }
}

#[test]
fn a_say_that_fails_leaves_the_status(rt: HostRuntime) -> Result<(), Fail> {
    let alloc = rt.alloc();
    // The words, the module, the calls that fail, and the status.
    let rows = [
        ("", ONE, [0u64, 9], Status::BadWords),
        (WORDS, "x = [1]\n", [1, 9], Status::Refused),
        (WORDS, ONE, [0, 1], Status::Fault),
        (WORDS, ONE, [2, 3], Status::Fault),
    ];
    for (line, text, numbers, status) in rows {
        let mut failing = Vec::new(alloc);
        for number in numbers {
            failing.push((number, Break::Before))?;
        }
        let mut desk = desk(alloc, text, failing)?;
        let words = words(alloc, line)?;
        assert_eq!(rt; pynguin(alloc, words.as_slice(), &mut desk), status);
        assert!(rt; has_said(&desk, ""));
        assert!(rt; ends_with_a_failed_say(desk.calls()));
    }
    Ok(())
}
