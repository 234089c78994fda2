// Modules of the first form: functions that return one literal.
ghost use Rattle.std.specs.Prelude.{◌≡◌, ◌≤◌, ◌<◌, length, IfOk, IfErr, Ok, Err};
ghost use Rattle.py_syntax.specs.Gives.{Gives};
ghost use Rattle.py_language.specs.FirstForm.{first_form, module_of};

use crate::cut::take_line;
use crate::line::{is_empty_line, returned_by};
use crate::names::new_name;
use crate::tree::module_of;
use py_language::First;
use py_syntax::{Line, Module, Refusal};
use pyn_base::Construct;
use std::alloc::Global;
use std::collections::BTreeSet;

// How many functions a module may have.
const MOST_FUNCTIONS: usize = 2000;

fn refused(line: Line) -> Refusal
    ensures { result ≡ Refusal.Refused line Construct.Form }
{
    Refusal::Refused {
        line,
        construct: Construct::Form,
    }
}

// The functions of a text that isn't empty. Each turn reads one, and the two empty lines behind it where the text goes on.
fn read_functions(alloc: Global, text: &[u8]) -> Result<Vec<First>, Refusal>
    requires { 0 < length text.now }
    ensures ok { IfOk result (λ functions. first_form text.now ≡ Ok (module_of functions.items)) }
    ensures few { IfOk result (λ functions. length functions.items ≤ 2000) }
    ensures refused { IfErr result (λ refusal. Gives (Err refusal) (first_form text.now)) }
{
    let mut functions = Vec::new(alloc);
    let mut names = BTreeSet::new(alloc);
    let mut left = text;
    loop {
        let line = 4 * functions.len() as Line + 1;
        let (head, rest) = take_line(left);
        let Some(name) = new_name(alloc, &mut names, head)? else {
            return Err(refused(line));
        };
        let (body, rest) = take_line(rest);
        let Some(literal) = returned_by(alloc, body)? else {
            return Err(refused(line + 1));
        };
        functions.push(First { name, literal })?;
        if rest.is_empty() {
            return Ok(functions);
        }
        let (gap, rest) = take_line(rest);
        if functions.len() == MOST_FUNCTIONS {
            return Err(refused(line + 2));
        }
        if !is_empty_line(gap) {
            return Err(refused(line + 2));
        }
        let (gap, rest) = take_line(rest);
        if !is_empty_line(gap) {
            return Err(refused(line + 3));
        }
        left = rest;
    }
}

/// Reads a module of the first form: it is empty, or has one to 2,000 functions that are parted by exactly two
/// empty lines. A function is a line `def NAME():` and a line `    return LIT`. A name is a lower-case letter and any
/// number of digits, and stands once. A literal is `None`, `True`, `False`, a number of up to 19 digits without a
/// leading zero, or a string in double quotes of ASCII characters from 32 to 126 other than the quote and the
/// backslash. Every line ends with a line feed.
///
/// Any other text is refused, with the construct `form` and the first line up to which no text of the form begins
/// with its lines. A rest without a line feed is such a line. Where the text is cut after a whole line, it is the
/// line after the last.
///
/// The time is linear in the length but for the look-up of names, which takes its logarithm.
pub fn read_first(alloc: Global, text: &[u8]) -> Result<Module, Refusal>
    requires { length text.now ≤ 262144 }
    ensures { Gives result (first_form text.now) }
{
    if text.is_empty() {
        return Ok(module_of(alloc, Vec::new(alloc))?);
    }
    let functions = read_functions(alloc, text)?;
    Ok(module_of(alloc, functions)?)
}
