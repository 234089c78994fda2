// The integers that texts spell, and the texts of integers and truths.
ghost use Rattle.std.specs.Prelude.{◌≡◌, ℕ, ◌+◌, ◌-◌, ◌*◌, ◌^◌, ◌≤◌, min, pos, neg_ℤ, IfOk};
ghost use Rattle.std.specs.Option.{option_map};
ghost use Rattle.pyn_base.specs.Int.{in_range};
ghost use Rattle.py_meaning.specs.Numerals.{is_numeral, digits_of, value_of_digits, number_spelled, signed_spelled, integer_spelled, integer_text, truth_text};
ghost use Rattle.py_meaning.specs.Builtins.{spelled};

use crate::are_digits;
use crate::ends::without_spaces;
use itoa::Buffer;
use py_meaning::{Op, PyStr, Value};
use pyn_base::{BuiltClass, Construct, Memory, PyInt};
use std::alloc::Global;

/// One more than the greatest integer.
const END: u128 = 1 << 127;

/// The integer that a text spells, at no cost: ValueError where it spells none, and beyond the range of integers an
/// answer that leaves.
pub fn spelled(text: &[char]) -> Op<Value>
    ensures { (left : ℕ) → spelled (integer_spelled text.now) left ≡ (result, left) }
{
    match integer_spelled(text) {
        None => Op::Raises(BuiltClass::ValueError),
        Some(None) => Op::Leaves(Construct::IntegerRange),
        Some(Some(n)) => Op::Done(Value::Int(n)),
    }
}

/// The decimal digits of an integer, with `-` before them where it is below 0.
pub fn integer_text(alloc: Global, n: PyInt) -> Result<PyStr, Memory>
    ensures { IfOk result (λ made. made ≡ integer_text n) }
{
    let mut buffer = Buffer::new();
    let letters = buffer.format(n.get()).chars().collect(alloc)?;
    PyStr::from_vec(alloc, letters)
}

/// `True` or `False`.
pub fn truth_text(alloc: Global, b: bool) -> Result<PyStr, Memory>
    ensures { IfOk result (λ made. made ≡ truth_text b) }
{
    let letters = if b { "True" } else { "False" }.chars().collect(alloc)?;
    PyStr::from_vec(alloc, letters)
}

fn integer_spelled(text: &[char]) -> Option<Option<PyInt>>
    ensures { result ≡ option_map in_range (integer_spelled text.now) }
{
    signed_spelled(without_spaces(text))
}

fn signed_spelled(text: &[char]) -> Option<Option<PyInt>>
    ensures { result ≡ option_map in_range (signed_spelled text.now) }
{
    let Some((first, rest)) = text.split_first() else {
        return None;
    };
    if *first == '-' {
        spelled_negative(rest)
    } else if *first == '+' {
        spelled_positive(rest)
    } else {
        spelled_positive(text)
    }
}

fn spelled_positive(text: &[char]) -> Option<Option<PyInt>>
    ensures { result ≡ option_map in_range (option_map pos (number_spelled text.now)) }
{
    if is_numeral(text) {
        Some(positive(value_spelled(text)))
    } else {
        None
    }
}

fn spelled_negative(text: &[char]) -> Option<Option<PyInt>>
    ensures { result ≡ option_map in_range (option_map (λ n. neg_ℤ (pos n)) (number_spelled text.now)) }
{
    if is_numeral(text) {
        Some(negative(value_spelled(text)))
    } else {
        None
    }
}

/// The integer of this size, where one size is for all beyond the range.
fn positive(size: u128) -> Option<PyInt>
    ensures { (n : ℕ) → size ≡ min n (2 ^ 127) → result ≡ in_range (pos n) }
{
    if size < END {
        PyInt::new(size as i128)
    } else {
        None
    }
}

fn negative(size: u128) -> Option<PyInt>
    ensures { (n : ℕ) → size ≡ min n (2 ^ 127) → result ≡ in_range (neg_ℤ (pos n)) }
{
    if size < END {
        PyInt::new(-(size as i128))
    } else {
        None
    }
}

fn is_numeral(text: &[char]) -> bool
    ensures { result ≡ is_numeral text.now }
{
    text.split(|c| *c == '_').all(|digits| are_digits(digits))
}

/// The number that the digits spell, or the end of the range where it lies beyond.
fn value_spelled(text: &[char]) -> u128
    ensures { result ≡ min (value_of_digits (digits_of text.now)) (2 ^ 127) }
{
    let mut value = 0;
    for c in text {
        if *c != '_' {
            value = with_digit(value, *c);
        }
    }
    value
}

fn with_digit(value: u128, digit: char) -> u128
    requires { value ≤ 2 ^ 127 }
    ensures { result ≡ min (value * 10 + (digit - 48)) (2 ^ 127) }
{
    if END / 10 < value {
        END
    } else {
        (value * 10 + (digit as u128).saturating_sub(48)).min(END)
    }
}
