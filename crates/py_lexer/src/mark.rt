// Operators and delimiters, the longest that fits.
ghost use Rattle.std.specs.Prelude.{◌≡◌, ◌<◌, ◌≤◌, ◌∷◌, if◌then◌else◌, length, min, IfSome};
ghost use Rattle.py_language.specs.TokensCharacters.{begins};
ghost use Rattle.py_language.specs.TokensMarks as spec;
ghost use Rattle.py_lexer.specs.Scan as scan;

use crate::name::listed;
use py_language::Mark;

/// The mark that a text is: the most frequent ones are looked at first.
fn mark_of(text: &[u8]) -> Option<Mark>
    ensures { result ≡ spec.mark_of text.now }
{
    listed(
        &[
            ("(", Mark::LeftParen),
            (")", Mark::RightParen),
            (",", Mark::Comma),
            (".", Mark::Dot),
            ("=", Mark::Equal),
            (":", Mark::Colon),
            ("[", Mark::LeftBracket),
            ("]", Mark::RightBracket),
            ("-", Mark::Minus),
            ("+", Mark::Plus),
            ("*", Mark::Star),
            ("/", Mark::Slash),
            ("{", Mark::LeftBrace),
            ("}", Mark::RightBrace),
            ("<", Mark::Less),
            (">", Mark::Greater),
            ("%", Mark::Percent),
            ("@", Mark::At),
            ("&", Mark::Ampersand),
            ("|", Mark::Pipe),
            ("^", Mark::Caret),
            ("~", Mark::Tilde),
            (";", Mark::Semicolon),
            ("==", Mark::EqualEqual),
            ("!=", Mark::NotEqual),
            ("+=", Mark::PlusEqual),
            ("-=", Mark::MinusEqual),
            ("<=", Mark::LessEqual),
            (">=", Mark::GreaterEqual),
            ("**", Mark::DoubleStar),
            ("//", Mark::DoubleSlash),
            ("->", Mark::Arrow),
            (":=", Mark::Walrus),
            ("*=", Mark::StarEqual),
            ("/=", Mark::SlashEqual),
            ("<<", Mark::LeftShift),
            (">>", Mark::RightShift),
            ("%=", Mark::PercentEqual),
            ("@=", Mark::AtEqual),
            ("&=", Mark::AmpersandEqual),
            ("|=", Mark::PipeEqual),
            ("^=", Mark::CaretEqual),
            ("...", Mark::Ellipsis),
            ("//=", Mark::DoubleSlashEqual),
            ("**=", Mark::DoubleStarEqual),
            (">>=", Mark::RightShiftEqual),
            ("<<=", Mark::LeftShiftEqual),
        ],
        text,
    )
}

/// What the second byte of a mark may be.
fn is_second(b: u8) -> bool
    ensures { result ≡ scan.is_second b }
{
    matches!(b, b'=' | b'*' | b'/' | b'<' | b'>' | b'.')
}

/// How many bytes a mark may have at most, by its second.
fn most(rest: &[u8]) -> usize
    ensures { result ≡ (if begins scan.is_second rest.now then 3 else 1) }
{
    match rest.split_first() {
        Some((b, _)) if is_second(*b) => 3,
        _ => 1,
    }
}

/// The longest mark at the front of a text, and its length.
pub fn mark_at(first: u8, rest: &[u8], text: &[u8]) -> Option<(Mark, usize)>
    requires { text.now ≡ first ∷ rest.now }
    ensures value { result ≡ scan.longest_mark (min 3 (length text.now)) text.now }
    ensures within { IfSome result (λ r. (0 < r.1) × (r.1 ≤ length text.now)) }
{
    let mut len = text.len().min(most(rest));
    while len > 0 {
        if let Some(mark) = mark_of(text.split_at(len).0) {
            return Some((mark, len));
        }
        len -= 1;
    }
    None
}
