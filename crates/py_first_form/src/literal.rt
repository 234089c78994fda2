// The literals that a function of the first form returns.
ghost use Rattle.std.specs.Prelude.{◌≡◌, true, IfOk, option_copied};
ghost use Rattle.std.specs.List.{list_all};
ghost use Rattle.std.specs.Char.{is_ascii_digit};
ghost use Rattle.py_language.specs.FirstForm.{is_plain, is_number, number_of, string_of, literal_of};

use crate::cut::between;
use py_syntax::ExprKind;
use pyn_base::{Memory, PyInt, Text};
use std::alloc::Global;

pub(crate) fn are_digits(bytes: &[u8]) -> bool
    ensures { result ≡ list_all is_ascii_digit bytes.now }
{
    bytes.iter().all(|c| c.is_ascii_digit())
}

fn is_number(text: &[u8]) -> bool
    ensures { result ≡ is_number text.now }
{
    match text.split_first() {
        None => false,
        Some((first, rest)) => {
            if *first == b'0' {
                return rest.is_empty();
            }
            rest.len() <= 18 && are_digits(text)
        }
    }
}

fn number_of(digits: &[u8]) -> u64
    requires { is_number digits.now ≡ true }
    ensures { result ≡ number_of digits.now }
{
    let mut number = 0;
    for digit in digits {
        number = number * 10 + (*digit - b'0') as u64;
    }
    number
}

fn is_plain(c: u8) -> bool
    ensures { result ≡ is_plain c }
{
    32 <= c && c <= 126 && c != b'"' && c != b'\\'
}

fn are_plain(bytes: &[u8]) -> bool
    ensures { result ≡ list_all is_plain bytes.now }
{
    bytes.iter().all(|c| is_plain(*c))
}

fn string_of(text: &[u8]) -> Option<&[u8]>
    ensures { option_copied result ≡ string_of text.now }
{
    let plain = between(b"\"", b"\"", text)?;
    if are_plain(plain) { Some(plain) } else { None }
}

/// The literal that a text spells.
pub(crate) fn literal_of(alloc: Global, text: &[u8]) -> Result<Option<ExprKind>, Memory>
    ensures { IfOk result (λ literal. literal ≡ literal_of text.now) }
{
    if text == b"None".as_slice() {
        return Ok(Some(ExprKind::NoneLit));
    }
    if text == b"True".as_slice() {
        return Ok(Some(ExprKind::BoolLit(true)));
    }
    if text == b"False".as_slice() {
        return Ok(Some(ExprKind::BoolLit(false)));
    }
    if is_number(text) {
        return Ok(Some(ExprKind::IntLit(PyInt::from(number_of(text)))));
    }
    match string_of(text) {
        Some(plain) => Ok(Some(ExprKind::StrLit(Text::from_ascii(alloc, plain)?))),
        None => Ok(None),
    }
}
