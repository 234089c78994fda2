// Variables by their names: `var_K`.
ghost use Rattle.std.specs.Prelude.{◌≡◌, IfOk};
ghost use Rattle.std.specs.Str.{all_ascii_digits};
ghost use Rattle.py_plain.specs.Nodes.{kind_of_expr};
ghost use Rattle.suite_file.specs.Spelled.{is_numeral, numeral, variable_named, variable_by, variable_in, variables_in, pair_in, pairs_in};

use py_syntax::{Expr, ExprKind};
use pyn_base::{Ids, Memory, Name};
use sqlite_items::Items;
use std::alloc::Global;

fn are_digits(text: &[u8]) -> bool
    ensures { result ≡ all_ascii_digits text.now }
{
    for c in text {
        if !c.is_ascii_digit() {
            return false;
        }
    }
    true
}

/// Whether a text is a number without a sign, and without a zero in front.
fn is_numeral(text: &[u8]) -> bool
    ensures { result ≡ is_numeral text.now }
{
    match text.split_first() {
        None => false,
        Some((first, rest)) => are_digits(text) && (*first != b'0' || rest.is_empty()),
    }
}

/// The number that a text is. One that no step has is the greatest of all.
fn numeral(text: &str) -> Option<u32>
    ensures { result ≡ numeral text.now }
{
    if !is_numeral(text.as_bytes()) {
        return None;
    }
    match text.parse() {
        Ok(number) => Some(number),
        Err(_) => Some(u32::MAX),
    }
}

fn variable_spelled(name: &str) -> Option<u32>
    ensures { result ≡ variable_named name.now }
{
    match name.strip_prefix("var_") {
        None => None,
        Some(digits) => numeral(digits),
    }
}

/// The number of a variable, by its name.
pub fn variable_named(name: &Name) -> Option<u32>
    ensures { result ≡ variable_named name.now }
{
    variable_spelled(name.as_str())
}

/// The variable that an expression names.
pub fn variable_in(e: &Expr) -> Option<u32>
    ensures { result ≡ variable_in e.now }
{
    match &e.kind {
        ExprKind::Name(name) => variable_named(name),
        _ => None,
    }
}

/// The variables that expressions name, where each names one.
pub fn variables_in(alloc: Global, es: &[Expr]) -> Result<Option<Ids>, Memory>
    ensures { IfOk result (λ found. found ≡ variables_in es.now) }
{
    let mut variables = Ids::new(alloc);
    for e in es {
        match variable_in(e) {
            None => return Ok(None),
            Some(k) => variables.push(k)?,
        }
    }
    Ok(Some(variables))
}

fn pair_in(pair: &(Expr, Expr)) -> Option<(u32, u32)>
    ensures { result ≡ pair_in pair.now }
{
    match variable_in(&pair.0) {
        None => None,
        Some(key) => match variable_in(&pair.1) {
            None => None,
            Some(value) => Some((key, value)),
        },
    }
}

/// The variables that keys and values name.
pub fn pairs_in(alloc: Global, es: &[(Expr, Expr)]) -> Result<Option<Items<(u32, u32)>>, Memory>
    ensures { IfOk result (λ found. found ≡ pairs_in es.now) }
{
    let mut pairs = Items::new(alloc);
    for e in es {
        match pair_in(e) {
            None => return Ok(None),
            Some(pair) => pairs.push(pair)?,
        }
    }
    Ok(Some(pairs))
}
