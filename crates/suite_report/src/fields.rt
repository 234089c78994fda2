// Fields of a line.
ghost use Rattle.std.specs.Prelude.{◌≡◌, ◌==◌, ◌<◌, ◌≤◌, ◌^◌, ℕ, not, [], ◌∷◌, length, bytes_eq, decimal, Some, IfSome, MatchOption};
ghost use Rattle.std.specs.List.{list_all, prefix_len};
ghost use Rattle.std.specs.Option.{option_map};
ghost use Rattle.report_model.specs.Fields.{cut, word_at, after, number_of, number_at, after_number, is_letter, is_name_part, is_name, name_of};
ghost use Rattle.suite_report.specs.Gives.{Gives};

use crate::fault::Fault;
use itoa::Buffer;
use pyn_base::{Memory, Name, Text};
use std::alloc::Global;
use std::str::from_utf8;

/// Whether a text is this word.
pub fn is(text: &[u8], word: &[u8]) -> bool
    ensures { result ≡ bytes_eq text.now word.now }
{
    text == word
}

// The first byte, and those after it.
fn first(text: &[u8]) -> Option<(&u8, &[u8])>
    ensures { MatchOption result (text.now ≡ []) (λ r. text.now ≡ r.0.now ∷ r.1.now) }
{
    text.split_first()
}

// How many bytes are before the first mark.
fn bytes_before(mark: u8, text: &[u8]) -> usize
    ensures value { result ≡ prefix_len (λ c. not (c == mark)) text.now }
    ensures within { result ≤ length text.now }
{
    text.iter().take_while(|c| **c != mark).count()
}

/// What is before the first mark, and what is after it.
pub fn cut(mark: u8, text: &[u8]) -> Option<(&[u8], &[u8])>
    ensures { option_map (λ x. (x.0.now, x.1.now)) result ≡ cut mark text.now }
{
    let (front, back) = text.split_at(bytes_before(mark, text));
    match first(back) {
        None => None,
        Some((_, rest)) => Some((front, rest)),
    }
}

/// The word before the first space, and what is after that.
pub fn word_at(text: &[u8]) -> Result<(&[u8], &[u8]), Fault>
    ensures { Gives (λ x. (x.0.now, x.1.now)) result (word_at text.now) }
{
    match cut(b' ', text) {
        Some(parts) => Ok(parts),
        None => Err(Fault::Form),
    }
}

/// What is after this word and a space.
#[tactic(auto, unfolding(report_model::specs::Fields::after))]
pub fn after<'t>(word: &[u8], text: &'t [u8]) -> Result<&'t [u8], Fault>
    ensures { Gives (λ x. x.now) result (after word.now text.now) }
{
    let (found, rest) = word_at(text)?;
    if !is(found, word) {
        return Err(Fault::Form);
    }
    Ok(rest)
}

// The number that a word parses as, which may be written otherwise.
fn parsed(digits: &[u8]) -> Option<u32>
    ensures found { (n : ℕ) → n < 2 ^ 32 → digits.now ≡ decimal n → result ≡ Some n }
    ensures small { IfSome result (λ n. n < 2 ^ 32) }
{
    match from_utf8(digits) {
        Ok(text) => text.parse().ok(),
        Err(_) => None,
    }
}

/// The number that a word is, without a sign or a leading zero.
pub fn number_of(digits: &[u8]) -> Result<u32, Fault>
    ensures { Gives (λ n. n) result (number_of digits.now) }
{
    let Some(number) = parsed(digits) else {
        return Err(Fault::Form);
    };
    if !is(digits, Buffer::new().format(number).as_bytes()) {
        return Err(Fault::Form);
    }
    Ok(number)
}

/// A number, and what is after it and a space.
#[tactic(auto, unfolding(report_model::specs::Fields::number_at))]
pub fn number_at(text: &[u8]) -> Result<(u32, &[u8]), Fault>
    ensures { Gives (λ x. (x.0, x.1.now)) result (number_at text.now) }
{
    let (digits, rest) = word_at(text)?;
    let number = number_of(digits)?;
    Ok((number, rest))
}

/// What is after this number and a space.
#[tactic(auto, unfolding(report_model::specs::Fields::after_number))]
pub fn after_number(wanted: usize, text: &[u8]) -> Result<&[u8], Fault>
    ensures { Gives (λ x. x.now) result (after_number wanted text.now) }
{
    let (number, rest) = number_at(text)?;
    if number as usize != wanted {
        return Err(Fault::Form);
    }
    Ok(rest)
}

fn is_letter(c: u8) -> bool
    ensures { result ≡ is_letter c }
{
    (b'a' <= c && c <= b'z') || (b'A' <= c && c <= b'Z') || c == b'_'
}

fn is_name_part(c: u8) -> bool
    ensures { result ≡ is_name_part c }
{
    is_letter(c) || (b'0' <= c && c <= b'9')
}

fn are_name_parts(text: &[u8]) -> bool
    ensures { result ≡ list_all is_name_part text.now }
{
    text.iter().all(|c| is_name_part(*c))
}

fn is_name(text: &[u8]) -> bool
    ensures { result ≡ is_name text.now }
{
    match first(text) {
        None => false,
        Some((c, rest)) => is_letter(*c) && are_name_parts(rest),
    }
}

/// The name that a text is.
#[tactic(auto, unfolding(report_model::specs::Fields::name_of))]
pub fn name_of(alloc: Global, text: &[u8]) -> Result<Name, Fault>
    ensures { Gives (λ n. n) result (name_of text.now) }
{
    if !is_name(text) {
        return Err(Fault::Form);
    }
    Ok(Name::from_ascii(alloc, text)?)
}

/// The text that a name is.
#[tactic(auto, unfolding(report_model::specs::Fields::name_of))]
pub fn class_of(alloc: Global, text: &[u8]) -> Result<Text, Fault>
    ensures { Gives (λ n. n) result (name_of text.now) }
{
    if !is_name(text) {
        return Err(Fault::Form);
    }
    Ok(Text::from_ascii(alloc, text)?)
}
