// The recursion over parts, and reading all symbols of a list.
ghost use Rattle.py_language.specs.Trees.{shape};
ghost use Rattle.py_language.specs.TreesPlaces.{Conditional, Listed, Postfix};
ghost use Rattle.py_expr_shape.specs.Levels.{level_of};
ghost use Rattle.py_expr_shape.specs.Reads.{Gives, whole};

use crate::ExprFault;
use crate::operators::{Level, Reader};
use py_language::{Shape, Symbol};
use sqlite_items::Boxed;
use std::alloc::Global;

/// How deep an expression may be.
pub const DEEPEST: usize = 50;

/// The shape of the symbols at a level, no deeper than the limit.
fn shape(
    alloc: Global,
    level: Level,
    symbols: &[Symbol],
    limit: usize,
) -> Result<Boxed<Shape>, ExprFault>
    ensures { Gives result (shape limit (level_of level) symbols.now) }
{
    if limit == 0 {
        return Err(ExprFault::Refused);
    }
    let reader = Reader {
        alloc,
        limit: limit - 1,
        part: shape,
    };
    reader.at_level(level, symbols)
}

/// The shape of the symbols as one expression.
#[tactic(auto, unfolding(crate::specs::Reads::whole))]
pub fn expression(alloc: Global, symbols: &[Symbol]) -> Result<Boxed<Shape>, ExprFault>
    ensures { Gives result (whole Conditional symbols.now) }
{
    shape(alloc, Level::Conditional, symbols, DEEPEST)
}

/// The shape of the symbols as an expression, or as several with commas between them.
#[tactic(auto, unfolding(crate::specs::Reads::whole))]
pub fn expressions(alloc: Global, symbols: &[Symbol]) -> Result<Boxed<Shape>, ExprFault>
    ensures { Gives result (whole Listed symbols.now) }
{
    shape(alloc, Level::Listed, symbols, DEEPEST)
}

/// The shape of the symbols as a primary: an atom, with groups after it.
#[tactic(auto, unfolding(crate::specs::Reads::whole))]
pub fn primary(alloc: Global, symbols: &[Symbol]) -> Result<Boxed<Shape>, ExprFault>
    ensures { Gives result (whole Postfix symbols.now) }
{
    shape(alloc, Level::Postfix, symbols, DEEPEST)
}
