// Lists: the parts between commas or semicolons.
ghost use Rattle.std.specs.Prelude.{◌≡◌, true, List, Option};
ghost use Rattle.std.specs.Borrow.{Bor};
ghost use Rattle.py_expr_shape.specs.Reads.{Gives};
ghost use Rattle.py_language.specs.declared.token.Token.{Token as TokenValue};
ghost use Rattle.py_grammar.specs.Separators.{parts, some_parts, all_parts};
ghost use Rattle.py_grammar.specs.declared.separator.Separator.TheVariants.{Comma};
ghost use Rattle.py_grammar.specs.Statements.{alone, name};
ghost use Rattle.py_line.specs.Reads.{Answers, tail, is_list_separator};

use crate::cut::{cut, first, lone_name};
use py_expr::ExprFault;
use py_grammar::Separator;
use py_language::Token;
use pyn_base::Name;
use sqlite_items::Items;
use std::alloc::Global;

/// What is after the first token.
fn tail(tokens: &[Token]) -> &[Token]
    ensures { result.now ≡ tail tokens.now }
{
    match first(tokens) {
        None => &[],
        Some((_token, others)) => others,
    }
}

/// The parts between separators; a last separator may be after them.
pub fn parts<T: Drop, G: Fn(&[Token]) -> Result<T, ExprFault>>(
    alloc: Global,
    separator: Separator,
    tokens: &[Token],
    part: G,
) -> Result<Items<T>, ExprFault>
    requires callable { (xs : Bor (List TokenValue)) → G.pre part xs }
    requires lists { is_list_separator separator ≡ true }
    ensures { (f : List TokenValue → Option T) → Answers f (G.post part) → Gives result (parts separator f tokens.now) }
{
    let mut all = Items::new(alloc);
    let mut rest = tokens;
    while let Some(_) = first(rest) {
        let (before, others) = cut(separator, rest);
        all.push(part(before)?)?;
        rest = tail(others);
    }
    Ok(all)
}

/// The parts between separators, of which there is one at least; a last separator may be after them.
pub fn some_parts<T: Drop, G: Fn(&[Token]) -> Result<T, ExprFault>>(
    alloc: Global,
    separator: Separator,
    tokens: &[Token],
    part: G,
) -> Result<Items<T>, ExprFault>
    requires callable { (xs : Bor (List TokenValue)) → G.pre part xs }
    requires lists { is_list_separator separator ≡ true }
    ensures { (f : List TokenValue → Option T) → Answers f (G.post part) → Gives result (some_parts separator f tokens.now) }
{
    let Some(_) = first(tokens) else {
        return Err(ExprFault::Refused);
    };
    parts(alloc, separator, tokens, part)
}

/// The parts between separators, without a last separator.
pub fn all_parts<T: Drop, G: Fn(&[Token]) -> Result<T, ExprFault>>(
    alloc: Global,
    separator: Separator,
    tokens: &[Token],
    part: G,
) -> Result<Items<T>, ExprFault>
    requires callable { (xs : Bor (List TokenValue)) → G.pre part xs }
    requires lists { is_list_separator separator ≡ true }
    ensures { (f : List TokenValue → Option T) → Answers f (G.post part) → Gives result (all_parts separator f tokens.now) }
{
    let mut all = Items::new(alloc);
    let (before, mut rest) = cut(separator, tokens);
    all.push(part(before)?)?;
    while let Some((_separator, after)) = first(rest) {
        let (before, others) = cut(separator, after);
        all.push(part(before)?)?;
        rest = others;
    }
    Ok(all)
}

/// The value, where nothing is after it.
pub fn alone<T: Drop>(value: T, tokens: &[Token]) -> Result<T, ExprFault>
    ensures { Gives result (alone value tokens.now) }
{
    match first(tokens) {
        None => Ok(value),
        Some(_) => Err(ExprFault::Refused),
    }
}

/// The name that is alone, as a part.
pub fn name(alloc: Global, tokens: &[Token]) -> Result<Name, ExprFault>
    ensures { Gives result (name tokens.now) }
{
    match lone_name(tokens) {
        None => Err(ExprFault::Refused),
        Some(name) => Ok(name.to_owned(alloc)?),
    }
}

/// Names with commas between them, of which there is one at least.
pub fn names(alloc: Global, tokens: &[Token]) -> Result<Items<Name>, ExprFault>
    ensures { Gives result (some_parts Comma name tokens.now) }
{
    some_parts(alloc, Separator::Comma, tokens, |part| name(alloc, part))
}
