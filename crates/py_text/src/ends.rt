// Texts without blanks, spaces or given characters at their ends.
ghost use Rattle.std.specs.Prelude.{◌≡◌, ℕ, Bool, IfOk, nat_eq};
ghost use Rattle.std.specs.HashSet.{contains};
ghost use Rattle.std.specs.List.{prefix_len, suffix_len};
ghost use Rattle.py_meaning.specs.Texts.{stripped, without_end, is_blank, is_space, is_one_of};

use pyn_base::Memory;
use std::alloc::Global;
use std::collections::HashSet;

/// A test of a character.
pub(crate) trait Test {
    ghost passes: { Self → ℕ → Bool };

    fn passes(&self, c: char) -> bool
        ensures { result ≡ passes self.now c };
}

struct Blank;

impl Test for Blank {
    ghost passes = { λ _. is_blank };

    fn passes(&self, c: char) -> bool {
        is_blank(c)
    }
}

struct Space;

impl Test for Space {
    ghost passes = { λ _. is_space };

    fn passes(&self, c: char) -> bool {
        is_space(c)
    }
}

/// One of a set of characters, each found in a time of its own, so that a strip takes no more than the lengths of both texts.
#[derive(Drop)]
struct OneOf {
    chars: HashSet<char>,
}

impl Test for OneOf {
    ghost passes = { λ test. contains nat_eq test.chars };

    fn passes(&self, c: char) -> bool {
        self.chars.contains(&c)
    }
}

/// The text without the blanks at both ends: the space and the characters 9 to 13 and 28 to 31.
pub fn without_blanks(text: &[char]) -> &[char]
    ensures { result.now ≡ stripped is_blank text.now }
{
    stripped(&Blank, text)
}

/// The text without those of the given characters that are at its ends. Of an empty text no character is looked for.
pub fn without_characters<'a>(
    alloc: Global,
    chars: &[char],
    text: &'a [char],
) -> Result<&'a [char], Memory>
    ensures { IfOk result (λ part. part.now ≡ stripped (is_one_of chars.now) text.now) }
{
    if text.is_empty() {
        return Ok(text);
    }
    let chars = set_of(alloc, chars)?;
    Ok(stripped(&OneOf { chars }, text))
}

fn set_of(alloc: Global, chars: &[char]) -> Result<HashSet<char>, Memory>
    ensures { IfOk result (λ set. (c : ℕ) → contains nat_eq set c ≡ is_one_of chars.now c) }
{
    let mut set = HashSet::new(alloc);
    for c in chars {
        set.insert(*c)?;
    }
    Ok(set)
}

/// The text without the spaces at both ends: the space and the characters 9 to 13.
pub(crate) fn without_spaces(text: &[char]) -> &[char]
    ensures { result.now ≡ stripped is_space text.now }
{
    stripped(&Space, text)
}

fn stripped<'a, T: Test>(test: &T, text: &'a [char]) -> &'a [char]
    ensures { result.now ≡ stripped (T.passes test.now) text.now }
{
    without_end(test, text.split_at(front(test, text)).1)
}

fn without_end<'a, T: Test>(test: &T, text: &'a [char]) -> &'a [char]
    ensures { result.now ≡ without_end (T.passes test.now) text.now }
{
    let mut len = text.len();
    while 0 < len && test.passes(text[len - 1]) {
        len -= 1;
    }
    text.split_at(len).0
}

/// How many characters pass from the front on.
fn front<T: Test>(test: &T, text: &[char]) -> usize
    ensures { result ≡ prefix_len (T.passes test.now) text.now }
{
    for (i, c) in text.iter().enumerate() {
        if !test.passes(*c) {
            return i;
        }
    }
    text.len()
}

pub(crate) fn is_blank(c: char) -> bool
    ensures { result ≡ is_blank c }
{
    is_space(c) || ('\u{1c}' <= c && c <= '\u{1f}')
}

fn is_space(c: char) -> bool
    ensures { result ≡ is_space c }
{
    c == ' ' || ('\t' <= c && c <= '\r')
}
