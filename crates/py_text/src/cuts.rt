// Texts cut at another, or at blanks.
ghost use Rattle.std.specs.Prelude.{◌≡◌, ◌+◌, ◌<◌, ◌≤◌, length, take, drop, IfOk};
ghost use Rattle.py_meaning.specs.Texts.{pieces, words};

use crate::ends::is_blank;
use crate::first_place;
use py_meaning::PyStr;
use pyn_base::Memory;
use std::alloc::Global;

/// A text of these characters.
pub fn copied(alloc: Global, text: &[char]) -> Result<PyStr, Memory>
    ensures { IfOk result (λ copy. copy ≡ text.now) }
{
    PyStr::from_vec(alloc, Vec::from_slice(alloc, text)?)
}

/// What is before a part of this size at a place, and what is after it.
pub(crate) fn cut(text: &[char], at: usize, size: usize) -> (&[char], &[char])
    requires { at + size ≤ length text.now }
    ensures before { result.0.now ≡ take at text.now }
    ensures after { result.1.now ≡ drop (at + size) text.now }
{
    (&text[..at], &text[at + size..])
}

/// What is between the places of `part`, found from the left.
pub fn pieces(alloc: Global, part: &[char], text: &[char]) -> Result<Vec<PyStr>, Memory>
    requires { 0 < length part.now }
    ensures { IfOk result (λ all. all.items ≡ pieces part.now text.now) }
{
    let mut pieces = Vec::new(alloc);
    let mut rest = text;
    while let Some(at) = first_place(alloc, part, rest)? {
        let (piece, after) = cut(rest, at, part.len());
        pieces.push(copied(alloc, piece)?)?;
        rest = after;
    }
    pieces.push(copied(alloc, rest)?)?;
    Ok(pieces)
}

/// What is between runs of blanks.
pub fn words(alloc: Global, text: &[char]) -> Result<Vec<PyStr>, Memory>
    ensures { IfOk result (λ all. all.items ≡ words text.now) }
{
    let mut words = Vec::new(alloc);
    for word in text.split(|c| is_blank(*c)) {
        if !word.is_empty() {
            words.push(copied(alloc, word)?)?;
        }
    }
    Ok(words)
}
