// Comments: where they end, what may be in them, and the encoding that they declare.
ghost use Rattle.std.specs.Prelude.{◌≡◌, ◌<◌, ◌≤◌, ◌==◌, ◌||◌, not, Some, None, length, take_while, bytes_eq, map};
ghost use Rattle.std.specs.List.{prefix_len, starts_with};
ghost use Rattle.py_language.specs.TokensEncoding as spec;
ghost use Rattle.py_language.specs.TokensFaults.{first_refused};
ghost use Rattle.py_language.specs.TokensCharacters.{decoded};

use crate::bytes::{blank_len, is_word};
use crate::content::character_at;
use pyn_base::Construct;

/// How many bytes are before the line's end.
pub fn line_len(text: &[u8]) -> usize
    ensures value { result ≡ prefix_len (λ c. not (c == 10)) text.now }
    ensures within { result ≤ length text.now }
{
    text.iter().take_while(|b| **b != b'\n').count()
}

/// The first character that is allowed nowhere.
pub fn refused_in(text: &[u8]) -> Option<Construct>
    ensures { result ≡ first_refused (decoded text.now) }
{
    let mut rest = text;
    while let Some((b, more)) = rest.split_first() {
        match *b {
            b'\r' => return Some(Construct::Character),
            b'\x0c' => return Some(Construct::Character),
            0..=127 => rest = more,
            _ => match character_at(rest) {
                Some(s) => rest = rest.split_at(s.len()).1,
                None => return Some(Construct::Encoding),
            },
        }
    }
    None
}

fn is_encoding_character(b: u8) -> bool
    ensures { result ≡ spec.is_encoding_character b }
{
    is_word(b) || (b == b'-' || b == b'.')
}

fn encoding_len(text: &[u8]) -> usize
    ensures value { result ≡ prefix_len spec.is_encoding_character text.now }
    ensures within { result ≤ length text.now }
{
    text.iter()
        .take_while(|b| is_encoding_character(**b))
        .count()
}

/// The name of an encoding after `coding`, or nothing.
fn encoding_behind(text: &[u8]) -> &[u8]
    ensures { result.now ≡ spec.encoding_behind text.now }
{
    let Some((b, more)) = text.split_first() else {
        return text;
    };
    if *b != b':' && *b != b'=' {
        return text.split_at(0).0;
    }
    let name = more.split_at(blank_len(more)).1;
    name.split_at(encoding_len(name)).0
}

/// The name of an encoding that a declaration at the front gives, or nothing.
fn encoding_here(text: &[u8]) -> &[u8]
    ensures { result.now ≡ spec.encoding_here text.now }
{
    if text.starts_with(b"coding") {
        encoding_behind(text.split_at(6).1)
    } else {
        text.split_at(0).0
    }
}

/// The name of the encoding that a comment declares, or nothing.
pub fn declared_encoding(text: &[u8]) -> &[u8]
    ensures { result.now ≡ spec.declared_encoding text.now }
{
    let mut rest = text;
    while let Some((_, more)) = rest.split_first() {
        let name = encoding_here(rest);
        if !name.is_empty() {
            return name;
        }
        rest = more;
    }
    rest
}

fn with_dash(b: u8) -> u8
    ensures { result ≡ spec.with_dash b }
{
    if b == b'_' {
        b'-'
    } else {
        b.to_ascii_lowercase()
    }
}

/// Whether a name is this one, but for its case and `_` for `-`.
fn is_named(name: &[u8], wanted: &[u8]) -> bool
    ensures { result ≡ bytes_eq (map spec.with_dash name.now) wanted.now }
{
    let mut rest = name;
    let mut expected = wanted;
    while let Some((b, more)) = rest.split_first() {
        match expected.split_first() {
            Some((e, after)) if with_dash(*b) == *e => {
                rest = more;
                expected = after;
            }
            _ => return false,
        }
    }
    expected.is_empty()
}

/// Whether an encoding is UTF-8 by its name.
pub fn is_accepted(has_mark: bool, name: &[u8]) -> bool
    ensures { result ≡ spec.is_accepted has_mark name.now }
{
    is_named(name, b"utf-8") || (!has_mark && is_named(name, b"utf8"))
}
