// Copies of expressions.
ghost use Rattle.std.specs.Prelude.{◌≡◌, true, IfOk};
ghost use Rattle.py_copies.specs.Primary.{is_primary};

use py_syntax::{Args, CmpOp, Expr, ExprKind};
use pyn_base::{Memory, Name};
use sqlite_items::{Boxed, Items};
use std::alloc::Global;

/// A copy of an expression, with its lines and node numbers.
#[cycle(copies)]
pub fn copy_expr(alloc: Global, x: &Expr) -> Result<Expr, Memory>
    ensures { IfOk result (λ copy. copy ≡ x.now) }
{
    let kind = copy_kind(alloc, &x.kind)?;
    Ok(Expr {
        node: x.node,
        line: x.line,
        kind,
    })
}

#[cycle(copies)]
#[tactic(auto, using(crate::proofs::KindRules::kinds))]
fn copy_kind(alloc: Global, kind: &ExprKind) -> Result<ExprKind, Memory>
    ensures { IfOk result (λ copy. copy ≡ kind.now) }
{
    Ok(match kind {
        ExprKind::NoneLit => ExprKind::NoneLit,
        ExprKind::BoolLit(b) => ExprKind::BoolLit(*b),
        ExprKind::IntLit(n) => ExprKind::IntLit(*n),
        ExprKind::StrLit(text) => ExprKind::StrLit(text.to_owned(alloc)?),
        ExprKind::Name(name) => ExprKind::Name(name.to_owned(alloc)?),
        ExprKind::ListLit(xs) => ExprKind::ListLit(copy_all(alloc, xs.as_slice())?),
        ExprKind::TupleLit(xs) => ExprKind::TupleLit(copy_all(alloc, xs.as_slice())?),
        ExprKind::DictLit(pairs) => ExprKind::DictLit(copy_pairs(alloc, pairs.as_slice())?),
        ExprKind::Unary(sign, x) => ExprKind::Unary(*sign, copy_part(alloc, x.get())?),
        ExprKind::Not(x) => ExprKind::Not(copy_part(alloc, x.get())?),
        ExprKind::Binary(op, a, b) => {
            let left = copy_part(alloc, a.get())?;
            ExprKind::Binary(*op, left, copy_part(alloc, b.get())?)
        }
        ExprKind::And(xs) => ExprKind::And(copy_all(alloc, xs.as_slice())?),
        ExprKind::Or(xs) => ExprKind::Or(copy_all(alloc, xs.as_slice())?),
        ExprKind::Compare(x, pairs) => {
            let first = copy_part(alloc, x.get())?;
            ExprKind::Compare(first, copy_compared(alloc, pairs.as_slice())?)
        }
        ExprKind::Cond(a, test, b) => {
            let value = copy_part(alloc, a.get())?;
            let condition = copy_part(alloc, test.get())?;
            ExprKind::Cond(value, condition, copy_part(alloc, b.get())?)
        }
        _ => return copy_primary(alloc, kind),
    })
}

/// A copy of a primary that isn't an atom.
#[cycle(copies)]
#[tactic(auto, using(crate::proofs::KindRules::kinds))]
fn copy_primary(alloc: Global, kind: &ExprKind) -> Result<ExprKind, Memory>
    requires { is_primary kind.now ≡ true }
    ensures { IfOk result (λ copy. copy ≡ kind.now) }
{
    Ok(match kind {
        ExprKind::Attr(x, name) => {
            let object = copy_part(alloc, x.get())?;
            ExprKind::Attr(object, name.to_owned(alloc)?)
        }
        ExprKind::Index(x, i) => {
            let object = copy_part(alloc, x.get())?;
            ExprKind::Index(object, copy_part(alloc, i.get())?)
        }
        ExprKind::Slice(x, a, b) => {
            let object = copy_part(alloc, x.get())?;
            let low = copy_bound(alloc, a)?;
            ExprKind::Slice(object, low, copy_bound(alloc, b)?)
        }
        ExprKind::Call(x, given) => {
            let callee = copy_part(alloc, x.get())?;
            ExprKind::Call(callee, copy_args(alloc, given)?)
        }
        ExprKind::Method(x, name, given) => {
            let object = copy_part(alloc, x.get())?;
            let name = name.to_owned(alloc)?;
            ExprKind::Method(object, name, copy_args(alloc, given)?)
        }
        ExprKind::Super(name, given) => {
            let name = name.to_owned(alloc)?;
            ExprKind::Super(name, copy_args(alloc, given)?)
        }
        _ => unreachable!(),
    })
}

#[cycle(copies)]
fn copy_part(alloc: Global, x: &Expr) -> Result<Boxed<Expr>, Memory>
    ensures { IfOk result (λ copy. copy ≡ x.now) }
{
    let x = copy_expr(alloc, x)?;
    Ok(Boxed::new(alloc, x)?)
}

#[cycle(copies)]
fn copy_bound(alloc: Global, bound: &Option<Boxed<Expr>>) -> Result<Option<Boxed<Expr>>, Memory>
    ensures { IfOk result (λ copy. copy ≡ bound.now) }
{
    match bound {
        None => Ok(None),
        Some(x) => Ok(Some(copy_part(alloc, x.get())?)),
    }
}

#[cycle(copies)]
fn copy_all(alloc: Global, xs: &[Expr]) -> Result<Items<Expr>, Memory>
    ensures { IfOk result (λ all. all ≡ xs.now) }
{
    let mut all = Items::new(alloc);
    for x in xs {
        let copy = copy_expr(alloc, x)?;
        all.push(copy)?;
    }
    Ok(all)
}

#[cycle(copies)]
fn copy_pairs(alloc: Global, pairs: &[(Expr, Expr)]) -> Result<Items<(Expr, Expr)>, Memory>
    ensures { IfOk result (λ all. all ≡ pairs.now) }
{
    let mut all = Items::new(alloc);
    for pair in pairs {
        let key = copy_expr(alloc, &pair.0)?;
        let value = copy_expr(alloc, &pair.1)?;
        all.push((key, value))?;
    }
    Ok(all)
}

#[cycle(copies)]
fn copy_compared(alloc: Global, pairs: &[(CmpOp, Expr)]) -> Result<Items<(CmpOp, Expr)>, Memory>
    ensures { IfOk result (λ all. all ≡ pairs.now) }
{
    let mut all = Items::new(alloc);
    for pair in pairs {
        let operand = copy_expr(alloc, &pair.1)?;
        all.push((pair.0, operand))?;
    }
    Ok(all)
}

#[cycle(copies)]
fn copy_named(alloc: Global, pairs: &[(Name, Expr)]) -> Result<Items<(Name, Expr)>, Memory>
    ensures { IfOk result (λ all. all ≡ pairs.now) }
{
    let mut all = Items::new(alloc);
    for pair in pairs {
        let value = copy_expr(alloc, &pair.1)?;
        let name = pair.0.to_owned(alloc)?;
        all.push((name, value))?;
    }
    Ok(all)
}

#[cycle(copies)]
fn copy_args(alloc: Global, given: &Args) -> Result<Args, Memory>
    ensures { IfOk result (λ copy. copy ≡ given.now) }
{
    let plain = copy_all(alloc, given.plain.as_slice())?;
    let named = copy_named(alloc, given.named.as_slice())?;
    Ok(Args { plain, named })
}
