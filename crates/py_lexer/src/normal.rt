// The text that is cut: each line end is a line feed, the last one included.
ghost use Rattle.std.specs.Prelude.{◌≡◌, ◌≤◌, ◌+◌, ◌==◌, ◌&&◌, ◌++◌, [], ◌∷◌, length, true, cond, IfOk};
ghost use Rattle.py_language.specs.TokensCharacters as spec;

use crate::bytes::{begins_with, contains};
use pyn_base::Memory;
use std::alloc::Global;

pub fn has_order_mark(text: &[u8]) -> bool
    ensures value { result ≡ spec.has_order_mark text.now }
    ensures within { result ≡ true → 3 ≤ length text.now }
{
    text.starts_with(b"\xEF\xBB\xBF")
}

fn without_order_mark(text: &[u8]) -> &[u8]
    ensures value { result.now ≡ spec.without_order_mark text.now }
    ensures within { length result.now ≤ length text.now }
{
    if has_order_mark(text) {
        text.split_at(3).1
    } else {
        text
    }
}

/// Whether the last line end is missing.
fn lacks_end(text: &[u8]) -> bool
    ensures { spec.missing_end text.now ≡ cond result (10 ∷ []) [] }
{
    match text.last() {
        Some(b) => *b != b'\n',
        None => true,
    }
}

/// A carriage return with a line feed, which may be the missing one.
fn vanishes(b: u8, more: &[u8], lacks_end: bool) -> bool
    ensures { result ≡ (b == 13 && spec.begins (λ c. c == 10) (more.now ++ cond lacks_end (10 ∷ []) [])) }
{
    b == b'\r' && (begins_with(more, b'\n') || (lacks_end && more.is_empty()))
}

/// The lines of a text, but for its last line end if that is missing.
fn with_line_feeds(alloc: Global, text: &[u8], lacks_end: bool) -> Result<Vec<u8>, Memory>
    requires { length text.now ≤ 268435456 }
    ensures { IfOk result (λ v. v.items ++ cond lacks_end (10 ∷ []) [] ≡ spec.with_line_feeds (text.now ++ cond lacks_end (10 ∷ []) [])) }
{
    let mut lines = Vec::with_capacity(alloc, text.len() + 1)?;
    if !contains(text, b'\r') {
        lines.extend_from_slice(text)?;
        return Ok(lines);
    }
    let mut rest = text;
    while let Some((b, more)) = rest.split_first() {
        if !vanishes(*b, more, lacks_end) {
            lines.push(*b)?;
        }
        rest = more;
    }
    Ok(lines)
}

fn with_end(mut lines: Vec<u8>, lacks_end: bool) -> Result<Vec<u8>, Memory>
    ensures { IfOk result (λ v. v.items ≡ lines.items ++ cond lacks_end (10 ∷ []) []) }
{
    if lacks_end {
        lines.push(b'\n')?;
    }
    Ok(lines)
}

/// A copy of a text as it is read: without its byte order mark, with a last line end, and with each line end a line feed.
pub fn normalized(alloc: Global, text: &[u8]) -> Result<Vec<u8>, Memory>
    requires { length text.now ≤ 268435456 }
    ensures { IfOk result (λ v. v.items ≡ spec.lines_of text.now) }
{
    let body = without_order_mark(text);
    let lacks_end = lacks_end(body);
    with_end(with_line_feeds(alloc, body, lacks_end)?, lacks_end)
}
