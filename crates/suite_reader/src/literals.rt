// Literals, and integers with a minus.
ghost use Rattle.std.specs.Prelude.{◌≡◌, IfOk};
ghost use Rattle.py_plain.specs.Nodes.{kind_of_expr};
ghost use Rattle.suite_file.specs.Spelled.{negated, signed, integer_by, literal_by};

use py_syntax::{Expr, ExprKind, Sign};
use pyn_base::{Memory, PyInt};
use std::alloc::Global;
use suite_model::Primitive;

/// An integer above 0 with the other sign.
fn negated(prim: Primitive) -> Option<Primitive>
    ensures { result ≡ negated prim }
{
    match prim {
        Primitive::Int(n) => {
            if PyInt::from(0).is_less(n) {
                PyInt::from(0).sub(n).map(Primitive::Int)
            } else {
                None
            }
        }
        _ => None,
    }
}

/// A literal behind a sign.
pub fn signed(sign: Sign, prim: Primitive) -> Option<Primitive>
    ensures { result ≡ signed sign prim }
{
    match sign {
        Sign::Minus => negated(prim),
        _ => None,
    }
}

fn integer_in(e: &Expr) -> Option<Primitive>
    ensures { result ≡ integer_by (kind_of_expr e.now) }
{
    match &e.kind {
        ExprKind::IntLit(n) => Some(Primitive::Int(*n)),
        _ => None,
    }
}

/// The literal that an expression is.
pub fn literal_in(alloc: Global, e: &Expr) -> Result<Option<Primitive>, Memory>
    ensures { IfOk result (λ found. found ≡ literal_by (kind_of_expr e.now)) }
{
    match &e.kind {
        ExprKind::NoneLit => Ok(Some(Primitive::None)),
        ExprKind::BoolLit(b) => Ok(Some(Primitive::Bool(*b))),
        ExprKind::IntLit(n) => Ok(Some(Primitive::Int(*n))),
        ExprKind::StrLit(text) => Ok(Some(Primitive::Str(text.to_owned(alloc)?))),
        ExprKind::Unary(sign, e) => match integer_in(e.get()) {
            None => Ok(None),
            Some(n) => Ok(signed(*sign, n)),
        },
        _ => Ok(None),
    }
}
