// What is seen of a text character by character, and its letters in the other case.
ghost use Rattle.std.specs.Prelude.{◌≡◌, map, IfOk};
ghost use Rattle.std.specs.List.{list_all};
ghost use Rattle.py_meaning.specs.Walk.{is_filled};
ghost use Rattle.py_meaning.specs.Texts.{begins_with, finishes_with, is_ascii, is_digit, are_digits, upper, lower};

use py_meaning::PyStr;
use pyn_base::Memory;
use std::alloc::Global;

/// Whether a text begins with another.
pub fn begins_with(text: &[char], part: &[char]) -> bool
    ensures { result ≡ begins_with text.now part.now }
{
    text.starts_with(part)
}

/// Whether a text ends with another.
pub fn finishes_with(text: &[char], part: &[char]) -> bool
    ensures { result ≡ finishes_with text.now part.now }
{
    text.ends_with(part)
}

/// Whether each character is below 128, as in the empty text.
pub fn is_ascii(text: &[char]) -> bool
    ensures { result ≡ is_ascii text.now }
{
    text.iter().all(|c| c.is_ascii())
}

/// Whether there is a character, and each is one of `0` to `9`.
pub fn are_digits(text: &[char]) -> bool
    ensures { result ≡ are_digits text.now }
{
    is_filled(text) && all_digits(text)
}

fn is_filled(text: &[char]) -> bool
    ensures { result ≡ is_filled text.now }
{
    !text.is_empty()
}

fn all_digits(text: &[char]) -> bool
    ensures { result ≡ list_all is_digit text.now }
{
    text.iter().all(|c| c.is_ascii_digit())
}

/// The text with each ASCII letter as a capital.
pub fn upper(alloc: Global, text: &[char]) -> Result<PyStr, Memory>
    ensures { IfOk result (λ made. made ≡ map upper text.now) }
{
    let letters = text.iter().map(|c| upper_letter(*c)).collect(alloc)?;
    PyStr::from_vec(alloc, letters)
}

/// The text with each ASCII letter as a small one.
pub fn lower(alloc: Global, text: &[char]) -> Result<PyStr, Memory>
    ensures { IfOk result (λ made. made ≡ map lower text.now) }
{
    let letters = text.iter().map(|c| lower_letter(*c)).collect(alloc)?;
    PyStr::from_vec(alloc, letters)
}

fn upper_letter(c: char) -> char
    ensures { result ≡ upper c }
{
    c.to_ascii_uppercase()
}

fn lower_letter(c: char) -> char
    ensures { result ≡ lower c }
{
    c.to_ascii_lowercase()
}
