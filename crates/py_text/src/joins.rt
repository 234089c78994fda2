// Texts joined, and a text with another one in the place of each part.
ghost use Rattle.std.specs.Prelude.{◌≡◌, ◌+◌, ◌*◌, ◌<◌, length, IfOk};
ghost use Rattle.py_meaning.specs.Texts.{joined, replaced, pieces, put_everywhere};

use crate::cuts::cut;
use crate::first_place;
use py_meaning::PyStr;
use pyn_base::Memory;
use std::alloc::Global;

/// The texts in a row, with `between` between each two.
pub fn joined(alloc: Global, between: &[char], texts: &[PyStr]) -> Result<PyStr, Memory>
    ensures { IfOk result (λ made. made ≡ joined between.now texts.now) }
{
    let Some((first, others)) = texts.split_first() else {
        return PyStr::from_vec(alloc, Vec::new(alloc));
    };
    let mut joined = Vec::from_slice(alloc, first.as_slice())?;
    for text in others {
        joined.extend_from_slice(between)?;
        joined.extend_from_slice(text.as_slice())?;
    }
    PyStr::from_vec(alloc, joined)
}

/// How many characters `joined` would make.
pub fn joined_length(between: &[char], texts: &[PyStr]) -> u128
    ensures { result ≡ length (joined between.now texts.now) }
{
    let Some((first, others)) = texts.split_first() else {
        return 0;
    };
    let mut length = first.len() as u128;
    for text in others {
        length += between.len() as u128 + text.len() as u128;
    }
    length
}

/// The text with `new` in each place of `part`, found from the left. The empty part is before each character and
/// at the end.
pub fn replaced(alloc: Global, part: &[char], new: &[char], text: &[char]) -> Result<PyStr, Memory>
    ensures { IfOk result (λ made. made ≡ replaced part.now new.now text.now) }
{
    if part.is_empty() {
        return put_everywhere(alloc, new, text);
    }
    put_in_places(alloc, part, new, text)
}

/// How many characters `replaced` would make.
pub fn replaced_length(
    alloc: Global,
    part: &[char],
    new: &[char],
    text: &[char],
) -> Result<u128, Memory>
    ensures { IfOk result (λ n. n ≡ length (replaced part.now new.now text.now)) }
{
    if part.is_empty() {
        return Ok(length_everywhere(new.len(), text.len()));
    }
    length_in_places(alloc, part, new, text)
}

fn put_in_places(alloc: Global, part: &[char], new: &[char], text: &[char]) -> Result<PyStr, Memory>
    requires { 0 < length part.now }
    ensures { IfOk result (λ made. made ≡ joined new.now (pieces part.now text.now)) }
{
    let mut made = Vec::new(alloc);
    let mut rest = text;
    while let Some(at) = first_place(alloc, part, rest)? {
        let (piece, after) = cut(rest, at, part.len());
        made.extend_from_slice(piece)?;
        made.extend_from_slice(new)?;
        rest = after;
    }
    made.extend_from_slice(rest)?;
    PyStr::from_vec(alloc, made)
}

fn length_in_places(
    alloc: Global,
    part: &[char],
    new: &[char],
    text: &[char],
) -> Result<u128, Memory>
    requires { 0 < length part.now }
    ensures { IfOk result (λ n. n ≡ length (joined new.now (pieces part.now text.now))) }
{
    let mut length = 0;
    let mut rest = text;
    while let Some(at) = first_place(alloc, part, rest)? {
        let (piece, after) = cut(rest, at, part.len());
        length += piece.len() as u128 + new.len() as u128;
        rest = after;
    }
    Ok(length + rest.len() as u128)
}

fn put_everywhere(alloc: Global, new: &[char], text: &[char]) -> Result<PyStr, Memory>
    ensures { IfOk result (λ made. made ≡ put_everywhere new.now text.now) }
{
    let mut made = Vec::new(alloc);
    for c in text {
        made.extend_from_slice(new)?;
        made.push(*c)?;
    }
    made.extend_from_slice(new)?;
    PyStr::from_vec(alloc, made)
}

/// How long a text of the second length is with one of the first before each character and at the end.
fn length_everywhere(new: usize, text: usize) -> u128
    ensures { result ≡ text * (new + 1) + new }
{
    text as u128 * (new as u128 + 1) + new as u128
}
