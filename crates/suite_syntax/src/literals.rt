// Literals, variables and the module.
ghost use Rattle.std.specs.Prelude.{◌≡◌, neg_ℤ, IfOk};
ghost use Rattle.suite_model.specs.Statements.{variable, expression, variable_read, integer, literal, module_read};

use py_syntax::{Expr, ExprKind, Sign};
use pyn_base::{Memory, Name, NodeId, PyInt, Text};
use sqlite_items::Boxed;
use std::alloc::Global;
use suite_model::Primitive;

/// An expression that no node of the module is.
pub fn expression(kind: ExprKind) -> Expr
    ensures { result ≡ expression kind }
{
    Expr {
        node: NodeId(0),
        line: 1,
        kind,
    }
}

/// The name of a variable.
#[tactic(auto, unfolding(std::specs::Prelude::chars))]
fn variable(alloc: Global, k: u32) -> Result<Name, Memory>
    ensures { IfOk result (λ name. name ≡ variable k) }
{
    let mut text = Text::from_str(alloc, "var_")?;
    text.push_number(u64::from(k))?;
    Ok(Name::from_text(text))
}

/// A variable of a test.
pub fn variable_read(alloc: Global, k: u32) -> Result<Expr, Memory>
    ensures { IfOk result (λ e. e ≡ variable_read k) }
{
    Ok(expression(ExprKind::Name(variable(alloc, k)?)))
}

/// The module under test, as a test names it.
#[tactic(auto, unfolding(std::specs::Prelude::chars))]
pub fn module_read(alloc: Global) -> Result<Expr, Memory>
    ensures { IfOk result (λ e. e ≡ module_read) }
{
    Ok(expression(ExprKind::Name(Name::from_str(alloc, "module_0")?)))
}

/// The integer with the other sign, which is one too.
#[tactic(auto, using(crate::proofs::Integers::by_minus_one))]
fn opposite(n: PyInt) -> PyInt
    ensures { result ≡ neg_ℤ n }
{
    match PyInt::new(-1) {
        Some(minus_one) => n.floor_div(minus_one),
        None => unreachable!(),
    }
}

/// An integer; a negative one is a sign and a literal.
#[tactic(auto, using(crate::proofs::Integers::negative, crate::proofs::Integers::other))]
fn integer(alloc: Global, n: PyInt) -> Result<Expr, Memory>
    ensures { IfOk result (λ e. e ≡ integer n) }
{
    if n.is_less(PyInt::from(0)) {
        let size = expression(ExprKind::IntLit(opposite(n)));
        Ok(expression(ExprKind::Unary(Sign::Minus, Boxed::new(alloc, size)?)))
    } else {
        Ok(expression(ExprKind::IntLit(n)))
    }
}

/// A literal.
pub fn literal(alloc: Global, prim: &Primitive) -> Result<Expr, Memory>
    ensures { IfOk result (λ e. e ≡ literal prim.now) }
{
    match prim {
        Primitive::None => Ok(expression(ExprKind::NoneLit)),
        Primitive::Bool(b) => Ok(expression(ExprKind::BoolLit(*b))),
        Primitive::Int(n) => integer(alloc, *n),
        Primitive::Str(text) => Ok(expression(ExprKind::StrLit(text.to_owned(alloc)?))),
    }
}
