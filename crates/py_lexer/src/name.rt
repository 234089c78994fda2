// Names and keywords.
ghost use Rattle.std.specs.Prelude.{◌≡◌, IfOk, IsAscii, bytes_eq, map};
ghost use Rattle.std.specs.Str.{str_to_ascii_lowercase};
ghost use Rattle.py_language.specs.TokensNames as spec;

use py_language::{Keyword, Token};
use pyn_base::{Memory, Name};
use std::alloc::Global;

/// What a table has for a text, at the first row that is the same.
pub fn listed<T: Copy>(rows: &[(&str, T)], text: &[u8]) -> Option<T>
    ensures { result ≡ spec.listed (map (λ row. (row.0.now, row.1)) rows.now) text.now }
{
    for row in rows {
        if text == row.0.as_bytes() {
            return Some(row.1);
        }
    }
    None
}

/// The keyword that a text is, if it is one of the 35 (Language Reference 2.3.1): a table for each length.
pub fn keyword_of(text: &[u8]) -> Option<Keyword>
    ensures { result ≡ spec.listed spec.keywords text.now }
{
    match text.len() {
        2 => of_two(text),
        3 => of_three(text),
        4 => of_four(text),
        5 => of_five(text),
        6 => of_six(text),
        7 => of_seven(text),
        8 => of_eight(text),
        _ => None,
    }
}

#[tactic(auto, unfolding(py_language::specs::TokensNames::keywords_of_2))]
fn of_two(text: &[u8]) -> Option<Keyword>
    ensures { result ≡ spec.listed spec.keywords_of_2 text.now }
{
    listed(
        &[
            ("as", Keyword::As),
            ("if", Keyword::If),
            ("in", Keyword::In),
            ("is", Keyword::Is),
            ("or", Keyword::Or),
        ],
        text,
    )
}

#[tactic(auto, unfolding(py_language::specs::TokensNames::keywords_of_3))]
fn of_three(text: &[u8]) -> Option<Keyword>
    ensures { result ≡ spec.listed spec.keywords_of_3 text.now }
{
    listed(
        &[
            ("and", Keyword::And),
            ("def", Keyword::Def),
            ("del", Keyword::Del),
            ("for", Keyword::For),
            ("not", Keyword::Not),
            ("try", Keyword::Try),
        ],
        text,
    )
}

#[tactic(auto, unfolding(py_language::specs::TokensNames::keywords_of_4))]
fn of_four(text: &[u8]) -> Option<Keyword>
    ensures { result ≡ spec.listed spec.keywords_of_4 text.now }
{
    listed(
        &[
            ("None", Keyword::NoneLit),
            ("True", Keyword::TrueLit),
            ("elif", Keyword::Elif),
            ("else", Keyword::Else),
            ("from", Keyword::From),
            ("pass", Keyword::Pass),
            ("with", Keyword::With),
        ],
        text,
    )
}

#[tactic(auto, unfolding(py_language::specs::TokensNames::keywords_of_5))]
fn of_five(text: &[u8]) -> Option<Keyword>
    ensures { result ≡ spec.listed spec.keywords_of_5 text.now }
{
    listed(
        &[
            ("False", Keyword::FalseLit),
            ("async", Keyword::Async),
            ("await", Keyword::Await),
            ("break", Keyword::Break),
            ("class", Keyword::Class),
            ("raise", Keyword::Raise),
            ("while", Keyword::While),
            ("yield", Keyword::Yield),
        ],
        text,
    )
}

#[tactic(auto, unfolding(py_language::specs::TokensNames::keywords_of_6))]
fn of_six(text: &[u8]) -> Option<Keyword>
    ensures { result ≡ spec.listed spec.keywords_of_6 text.now }
{
    listed(
        &[
            ("assert", Keyword::Assert),
            ("except", Keyword::Except),
            ("global", Keyword::Global),
            ("import", Keyword::Import),
            ("lambda", Keyword::Lambda),
            ("return", Keyword::Return),
        ],
        text,
    )
}

#[tactic(auto, unfolding(py_language::specs::TokensNames::keywords_of_7))]
fn of_seven(text: &[u8]) -> Option<Keyword>
    ensures { result ≡ spec.listed spec.keywords_of_7 text.now }
{
    listed(&[("finally", Keyword::Finally)], text)
}

#[tactic(auto, unfolding(py_language::specs::TokensNames::keywords_of_8))]
fn of_eight(text: &[u8]) -> Option<Keyword>
    ensures { result ≡ spec.listed spec.keywords_of_8 text.now }
{
    listed(
        &[
            ("continue", Keyword::Continue),
            ("nonlocal", Keyword::Nonlocal),
        ],
        text,
    )
}

/// The token of a name's bytes, which are ASCII.
#[tactic(auto, unfolding(py_language::specs::TokensNames::name_token))]
pub fn name_token(alloc: Global, text: &[u8]) -> Result<Token, Memory>
    requires { IsAscii text.now }
    ensures { IfOk result (λ t. t ≡ spec.name_token text.now) }
{
    match keyword_of(text) {
        Some(keyword) => Ok(Token::Keyword(keyword)),
        None => Ok(Token::Name(Name::from_ascii(alloc, text)?)),
    }
}

/// Whether a name is one of Python's prefixes of strings.
#[tactic(auto, unfolding(py_language::specs::TokensNames::is_string_prefix))]
pub fn is_string_prefix(text: &[u8]) -> bool
    ensures { result ≡ spec.is_string_prefix text.now }
{
    has_name(text, b"r")
        || (has_name(text, b"b")
            || (has_name(text, b"f")
                || (has_name(text, b"u")
                    || (has_name(text, b"br")
                        || (has_name(text, b"rb")
                            || (has_name(text, b"fr") || has_name(text, b"rf")))))))
}

/// Whether a text is this one but for its case.
fn has_name(text: &[u8], lower: &[u8]) -> bool
    ensures { result ≡ bytes_eq lower.now (str_to_ascii_lowercase text.now) }
{
    let mut rest = text;
    let mut expected = lower;
    while let Some((e, after)) = expected.split_first() {
        match rest.split_first() {
            Some((b, more)) if b.to_ascii_lowercase() == *e => {
                rest = more;
                expected = after;
            }
            _ => return false,
        }
    }
    rest.is_empty()
}
