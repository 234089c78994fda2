// Making the nodes of a shape.
ghost use Rattle.std.specs.Prelude.{◌≡◌, IfOk};
ghost use Rattle.py_language.specs.Trees.{operator, comparator};

use py_language::{Atom, Shape, Symbol};
use py_syntax::{BinOp, CmpOp, Sign};
use pyn_base::Memory;
use sqlite_items::Boxed;
use std::alloc::{AllocError, Global};

/// A copy of a name or a literal.
pub fn copied(alloc: Global, atom: &Atom) -> Result<Atom, Memory>
    ensures { IfOk result (λ a. a ≡ atom.now) }
{
    Ok(match atom {
        Atom::NoneLit => Atom::NoneLit,
        Atom::BoolLit(b) => Atom::BoolLit(*b),
        Atom::IntLit(n) => Atom::IntLit(*n),
        Atom::StrLit(text) => Atom::StrLit(text.to_owned(alloc)?),
        Atom::Name(name) => Atom::Name(name.to_owned(alloc)?),
    })
}

/// The arithmetic operator that a symbol is between two operands.
pub fn operator(symbol: &Symbol) -> BinOp
    ensures { result ≡ operator symbol.now }
{
    match symbol {
        Symbol::Factor(op) => *op,
        Symbol::Sign(Sign::Minus) => BinOp::Sub,
        _ => BinOp::Add,
    }
}

/// The comparison that a symbol is.
pub fn comparator(symbol: &Symbol) -> CmpOp
    ensures { result ≡ comparator symbol.now }
{
    match symbol {
        Symbol::Compare(op) => *op,
        _ => CmpOp::Eq,
    }
}

/// A node of its own.
pub fn node(alloc: Global, shape: Shape) -> Result<Boxed<Shape>, AllocError>
    ensures { IfOk result (λ x. x ≡ shape) }
{
    Boxed::new(alloc, shape)
}
