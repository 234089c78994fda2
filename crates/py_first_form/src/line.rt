// The lines of a function of the first form.
ghost use Rattle.std.specs.Prelude.{◌≡◌, IfOk, IfSome, chars, option_copied};
ghost use Rattle.std.specs.Str.{IsAscii};
ghost use Rattle.py_language.specs.FirstForm.{is_name, named_by, returned_by, is_empty_line};

use crate::cut::between;
use crate::literal::{are_digits, literal_of};
use py_syntax::ExprKind;
use pyn_base::Memory;
use std::alloc::Global;

fn is_name(name: &[u8]) -> bool
    ensures { result ≡ is_name name.now }
{
    match name.split_first() {
        Some((first, rest)) => first.is_ascii_lowercase() && are_digits(rest),
        None => false,
    }
}

// Bytes of ASCII as a text.
fn ascii(bytes: &[u8]) -> &str
    requires { IsAscii bytes.now }
    ensures bytes { result.now ≡ bytes.now }
    ensures chars { chars result.now ≡ bytes.now }
{
    match str::from_utf8(bytes) {
        Ok(text) => text,
        Err(_) => unreachable!(),
    }
}

/// The name in a line `def NAME():`.
pub(crate) fn named_by(line: &[u8]) -> Option<&str>
    ensures bytes { option_copied result ≡ named_by line.now }
    ensures chars { IfSome result (λ name. chars name.now ≡ name.now) }
{
    let name = between(b"def ", b"():\n", line)?;
    if is_name(name) {
        Some(ascii(name))
    } else {
        None
    }
}

/// The literal in a line `    return LIT`.
pub(crate) fn returned_by(alloc: Global, line: &[u8]) -> Result<Option<ExprKind>, Memory>
    ensures { IfOk result (λ literal. literal ≡ returned_by line.now) }
{
    match between(b"    return ", b"\n", line) {
        Some(text) => literal_of(alloc, text),
        None => Ok(None),
    }
}

pub(crate) fn is_empty_line(line: &[u8]) -> bool
    ensures { result ≡ is_empty_line line.now }
{
    line == b"\n".as_slice()
}
