// The tokens of small texts.
use py_language::Tokens;
use py_lexer::tokens;
use pyn_base::{Construct, Memory};
use std::alloc::Global;
use std::test::Fail;

fn short_tokens(alloc: Global, text: &[u8]) -> Result<Tokens, Memory> {
    tokens(
        alloc,
        if text.len() < 100 {
            text
        } else {
            b"".as_slice()
        },
    )
}

#[test]
fn texts_have_lines_tokens_and_faults(rt: HostRuntime) -> Result<(), Fail> {
    let rows = [
        ("a = 1 + 2 * 3\n", 1, 7, None),
        ("x<=y<<z", 1, 5, None),
        ("x **= y...", 1, 4, None),
        ("def f(a,\n      b):\n    return 'a' \"b\"\n", 2, 8, None),
        ("# a\r\n\r\nclass A: pass\r\n", 1, 4, None),
        ("x = '''a\r\nb''' # \u{e9}\u{e9}\r", 1, 3, None),
        ("\u{feff}s = '\u{65e5}\u{672c}\\u00e9'", 1, 3, None),
        (
            "x = '''a\nb'''\n\n  $\n",
            1,
            3,
            Some((4, Construct::Character)),
        ),
        ("a\rb\n", 0, 0, Some((1, Construct::Character))),
        ("(\n[", 0, 0, Some((2, Construct::Bracket))),
        ("if x:\n\ty = 1\n", 1, 3, Some((2, Construct::Tab))),
        ("s = '\\d'\n", 0, 0, Some((1, Construct::Escape))),
    ];
    for (text, lines, first, fault) in rows {
        let all = short_tokens(rt.alloc(), text.as_bytes())?;
        assert_eq!(rt; all.lines.len(), lines);
        assert_eq!(rt; all.fault, fault);
        if let Some(line) = all.lines.get(0) {
            assert_eq!(rt; line.tokens.len(), first);
        }
    }
    Ok(())
}
