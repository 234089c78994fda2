// The tree of a list of tokens.
ghost use Rattle.py_language.specs.Trees.{tree_at, tree_of, trees_of};
ghost use Rattle.py_language.specs.TreesPlaces.{Postfix};
ghost use Rattle.py_expr_shape.specs.Reads.{Gives};

use crate::number::numbered;
use crate::symbols::symbols_of;
use py_expr_shape::{ExprFault, expression, expressions, primary};
use py_language::Token;
use py_syntax::Expr;
use std::alloc::Global;

/// The tree of the tokens as one expression. Its nodes are numbered from 0 in the order of reading, and have line 1.
///
/// # Errors
///
/// `Refused` exactly where the tokens have no tree, and `Memory` when memory runs out.
pub fn read_expr(alloc: Global, tokens: &[Token]) -> Result<Expr, ExprFault>
    ensures { Gives result (tree_of tokens.now) }
{
    let symbols = symbols_of(alloc, tokens)?;
    let shape = expression(alloc, symbols.as_slice())?;
    let (tree, _end) = numbered(alloc, shape.get(), 0)?;
    Ok(tree)
}

/// The tree of the tokens as one expression, or as a tuple of several with commas between them.
///
/// # Errors
///
/// `Refused` exactly where the tokens have no tree, and `Memory` when memory runs out.
pub fn read_exprs(alloc: Global, tokens: &[Token]) -> Result<Expr, ExprFault>
    ensures { Gives result (trees_of tokens.now) }
{
    let symbols = symbols_of(alloc, tokens)?;
    let shape = expressions(alloc, symbols.as_slice())?;
    let (tree, _end) = numbered(alloc, shape.get(), 0)?;
    Ok(tree)
}

/// The tree of the tokens as a primary: an atom, with calls, indices and attributes after it.
///
/// # Errors
///
/// `Refused` exactly where the tokens have no tree, and `Memory` when memory runs out.
pub fn read_primary(alloc: Global, tokens: &[Token]) -> Result<Expr, ExprFault>
    ensures { Gives result (tree_at Postfix tokens.now) }
{
    let symbols = symbols_of(alloc, tokens)?;
    let shape = primary(alloc, symbols.as_slice())?;
    let (tree, _end) = numbered(alloc, shape.get(), 0)?;
    Ok(tree)
}
