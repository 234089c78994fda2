// What is inside a string: characters and escapes.
ghost use Rattle.std.specs.Prelude.{◌≡◌, ◌++◌, option_to_list, ◌<◌, ◌≤◌, ◌+◌, ◌^◌, ◌==◌, ◌∷◌, false, true, cond, Some, None, Err, length, IfSome, IfNone, IfOk};
ghost use Rattle.std.specs.Str.{is_utf8};
ghost use Rattle.py_language.specs.TokensCharacters.{begins};
ghost use Rattle.py_language.specs.TokensStrings as spec;
ghost use Rattle.py_lexer.specs.Scan as scan;

use crate::bytes::{begins_with, digit_value, is_digit_below, more_len};
use crate::quoted::{begins_twice, quotes_len};
use pyn_base::{Construct, Memory, Text};
use std::alloc::Global;
use std::str::from_utf8;

/// What is read first of the bytes inside a string.
enum Item<'a> {
    /// A character, unless it is an escaped line end; how many bytes it takes, and the line ends among them.
    Char(Option<char>, usize, u32),
    /// A character that is not ASCII.
    Wide(&'a str),
    Fault(Construct),
}

/// The character at the front, if its UTF-8 is there.
pub fn character_at(text: &[u8]) -> Option<&str>
    requires { 0 < length text.now }
    ensures found { IfSome result (λ s. s.now ≡ scan.front_of text.now) }
    ensures is_character { IfSome result (λ s. is_utf8 (scan.front_of text.now) ≡ true) }
    ensures none { IfNone result (is_utf8 (scan.front_of text.now) ≡ false) }
    ensures within { IfSome result (λ s. length s.now ≤ length text.now) }
{
    let Some((b, more)) = text.split_first() else {
        return None;
    };
    let n = 1 + more_len(*b, more);
    match from_utf8(text.split_at(n).0) {
        Ok(s) => Some(s),
        Err(_) => None,
    }
}

/// The value of n hexadecimal digits at the front.
fn hex_value(n: usize, text: &[u8]) -> Option<u32>
    requires { n ≤ 4 }
    ensures { result ≡ spec.hex_value n 0 text.now }
{
    let mut value = 0;
    let mut rest = text;
    for _i in 0..n {
        let Some((b, more)) = rest.split_first() else {
            return None;
        };
        if !is_digit_below(16, *b) {
            return None;
        }
        value = value * 16 + digit_value(*b) as u32;
        rest = more;
    }
    Some(value)
}

fn hex_escape(n: usize, text: &[u8]) -> Option<(Option<char>, usize)>
    requires { n ≤ 4 }
    ensures { scan.escape_shown result ≡ spec.hex_escape n text.now }
{
    match hex_value(n, text) {
        Some(value) => match char::from_u32(value) {
            Some(c) => Some((Some(c), n + 1)),
            None => None,
        },
        None => None,
    }
}

/// The escape after a backslash: its character, and how many bytes it takes there.
fn escape_at(text: &[u8]) -> Option<(Option<char>, usize)>
    ensures { scan.escape_shown result ≡ spec.escape_of text.now }
{
    let Some((b, more)) = text.split_first() else {
        return None;
    };
    match *b {
        b'\\' | b'\'' | b'"' => Some((Some(*b as char), 1)),
        b'n' => Some((Some('\n'), 1)),
        b't' => Some((Some('\t'), 1)),
        b'r' => Some((Some('\r'), 1)),
        b'\n' => Some((None, 1)),
        b'x' => hex_escape(2, more),
        b'u' => hex_escape(4, more),
        _ => None,
    }
}

fn line_ends_at(text: &[u8]) -> u32
    ensures { result ≡ cond (begins (λ d. d == 10) text.now) 1 0 }
{
    if begins_with(text, b'\n') { 1 } else { 0 }
}

/// The item that a backslash begins.
fn escape_item(more: &[u8]) -> Item<'_>
    ensures { scan.ItemAt (92 ∷ more.now) result }
{
    match escape_at(more) {
        Some((c, len)) => Item::Char(c, len + 1, line_ends_at(more)),
        None => Item::Fault(Construct::Escape),
    }
}

fn wide_item<'a>(first: u8, more: &[u8], text: &'a [u8]) -> Item<'a>
    requires text { text.now ≡ first ∷ more.now }
    requires high { 128 ≤ first }
    ensures { scan.ItemAt text.now result }
{
    match character_at(text) {
        Some(s) => Item::Wide(s),
        None => Item::Fault(Construct::Encoding),
    }
}

fn next_item(text: &[u8]) -> Item<'_>
    requires { 0 < length text.now }
    ensures { scan.ItemAt text.now result }
{
    let Some((b, more)) = text.split_first() else {
        unreachable!();
    };
    match *b {
        b'\\' => escape_item(more),
        b'\r' => Item::Fault(Construct::Character),
        b'\x0c' => Item::Fault(Construct::Character),
        128.. => wide_item(*b, more, text),
        c => Item::Char(Some(c as char), 1, line_ends_at(text)),
    }
}

fn with_char(mut all: Text, c: Option<char>) -> Result<Text, Memory>
    ensures { IfOk result (λ t. t ≡ all ++ option_to_list c) }
{
    if let Some(c) = c {
        all.push(c)?;
    }
    Ok(all)
}

/// The characters that the bytes between a string's quotes spell, or the first fault there and the number of
/// line ends before it.
fn content(alloc: Global, text: &[u8]) -> Result<Result<Text, (u32, Construct)>, Memory>
    requires { length text.now < 2 ^ 32 }
    ensures { IfOk result (λ r. r ≡ scan.content_of text.now) }
{
    let mut all = Text::new(alloc);
    let mut lines = 0;
    let mut rest = text;
    while !rest.is_empty() {
        match next_item(rest) {
            Item::Char(c, n, feeds) => {
                all = with_char(all, c)?;
                lines += feeds;
                rest = rest.split_at(n).1;
            }
            Item::Wide(s) => {
                all.push_str(s)?;
                rest = rest.split_at(s.len()).1;
            }
            Item::Fault(construct) => return Ok(Err((lines, construct))),
        }
    }
    Ok(Ok(all))
}

/// The characters of a closed string, whose first quote is before the text.
pub fn string_content(
    alloc: Global,
    quote: u8,
    text: &[u8],
) -> Result<Result<Text, (u32, Construct)>, Memory>
    requires { length text.now < 2 ^ 31 }
    ensures { IfOk result (λ r. r ≡ spec.string_content quote text.now) }
{
    let width = quotes_len(begins_twice(quote, text));
    let inside = text.split_at(width - 1).1;
    let len = (text.len() + 1).saturating_sub(2 * width);
    content(alloc, inside.split_at(len).0)
}
