// Integers.
ghost use Rattle.std.specs.Prelude.{◌≡◌, ◌<◌, ◌≤◌, ◌+◌, ◌*◌, ◌^◌, ◌==◌, Some, None, length, IfSome};
ghost use Rattle.py_language.specs.TokensNumbers as spec;
ghost use Rattle.py_lexer.specs.Scan as scan;

use crate::bytes::{begins_digit_below, digit_value, is_digit_below};
use pyn_base::PyInt;

fn digits_len(n: u8, text: &[u8]) -> usize
    ensures value { result ≡ scan.digits_len (spec.is_digit_below n) text.now }
    ensures within { result ≤ length text.now }
{
    let mut rest = text;
    let mut len = 0;
    while let Some((b, more)) = rest.split_first() {
        if !(is_digit_below(n, *b) || (*b == b'_' && begins_digit_below(n, more))) {
            return len;
        }
        len += 1;
        rest = more;
    }
    len
}

fn base_of(b: u8) -> u8
    ensures value { result ≡ spec.base_of b }
    ensures small { result ≤ 16 }
{
    match b {
        b'x' | b'X' => 16,
        b'o' | b'O' => 8,
        b'b' | b'B' => 2,
        _ => 0,
    }
}

fn based_len(text: &[u8]) -> usize
    ensures value { result ≡ scan.based_len text.now }
    ensures within { result ≤ length text.now }
{
    let Some((b, digits)) = text.split_first() else {
        return 0;
    };
    match digits_len(base_of(*b), digits) {
        0 => 0,
        n => n + 1,
    }
}

/// How many bytes after the first digit belong to the integer.
pub fn integer_more(first: u8, rest: &[u8]) -> usize
    ensures value { result ≡ scan.integer_more first rest.now }
    ensures within { result ≤ length rest.now }
{
    if first != b'0' {
        return digits_len(10, rest);
    }
    match based_len(rest) {
        0 => digits_len(1, rest),
        n => n,
    }
}

fn in_width(n: u128) -> Option<u128>
    ensures { result ≡ scan.in_width n }
{
    if n < 1 << 127 { Some(n) } else { None }
}

fn next_value(base: u8, n: u128, b: u8) -> Option<u128>
    requires { n < 2 ^ 127 }
    ensures { result ≡ scan.in_width (scan.next_value base n b) }
{
    if b == b'_' {
        return Some(n);
    }
    let larger = n.checked_mul(base as u128)?;
    in_width(larger.checked_add(digit_value(b) as u128)?)
}

/// The number that digits make, if it is in the range.
fn value_of(base: u8, digits: &[u8]) -> Option<u128>
    requires { 0 < base }
    ensures value { result ≡ scan.in_width (spec.number_from base 0 digits.now) }
    ensures small { IfSome result (λ n. n < 2 ^ 127) }
{
    let mut n = 0;
    for b in digits {
        match next_value(base, n, *b) {
            Some(next) => n = next,
            None => return None,
        }
    }
    in_width(n)
}

/// The base that a letter after `0` says, or 0.
fn base_in(text: &[u8]) -> u8
    ensures { result ≡ spec.base_in text.now }
{
    match text.split_first() {
        Some((b, _)) => base_of(*b),
        None => 0,
    }
}

fn behind_first(text: &[u8]) -> &[u8]
    ensures { result.now ≡ spec.behind_first text.now }
{
    match text.split_first() {
        Some((_, rest)) => rest,
        None => text,
    }
}

/// The value of an integer's text, if it is in the range.
fn value(text: &[u8]) -> Option<u128>
    ensures value { result ≡ scan.in_width (spec.integer_value text.now) }
    ensures small { IfSome result (λ n. n < 2 ^ 127) }
{
    let Some((first, rest)) = text.split_first() else {
        return Some(0);
    };
    let base = base_in(rest);
    if *first == b'0' && base > 0 {
        value_of(base, behind_first(rest))
    } else {
        value_of(10, text)
    }
}

/// The integer that a text is, if it is in the range.
pub fn integer(text: &[u8]) -> Option<PyInt>
    ensures { result ≡ scan.in_range (spec.integer_value text.now) }
{
    match value(text) {
        Some(n) => PyInt::new(n as i128),
        None => None,
    }
}
