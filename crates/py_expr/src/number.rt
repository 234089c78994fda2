// Numbering the nodes of a shape, in the order of reading.
ghost use Rattle.std.specs.Prelude.{◌≡◌, IfOk, OnOk, map, suc, true};
ghost use Rattle.std.specs.Option.{option_map};
ghost use Rattle.py_language.specs.TreesNumbers.{numbered, in_order, entries, compared, arguments, args, atom};
ghost use Rattle.py_language.specs.TreesNumbers.{bound as bound_of};
ghost use Rattle.py_expr.specs.Numbers.{pair_numbered, comparison_numbered, argument_numbered, one_more, series_kind, series_shape, is_primary};

use py_language::{Atom, Shape};
use py_syntax::{Args, CmpOp, Expr, ExprKind};
use pyn_base::{Memory, Name, NodeId};
use sqlite_items::{Boxed, Items};
use std::alloc::Global;

/// The number after this one. There are fewer nodes than numbers, so there always is one.
fn next_number(number: u32) -> Result<u32, Memory>
    ensures { IfOk result (λ n. n ≡ suc number) }
{
    match number.checked_add(1) {
        Some(next) => Ok(next),
        None => Err(Memory),
    }
}

fn expr(number: u32, kind: ExprKind) -> Expr
    ensures { result ≡ record { node = record { 0 = number }; line = 1; kind = kind } }
{
    Expr {
        node: NodeId(number),
        line: 1,
        kind,
    }
}

fn leaf(alloc: Global, a: &Atom) -> Result<ExprKind, Memory>
    ensures { IfOk result (λ k. k ≡ atom a.now) }
{
    Ok(match a {
        Atom::NoneLit => ExprKind::NoneLit,
        Atom::BoolLit(b) => ExprKind::BoolLit(*b),
        Atom::IntLit(n) => ExprKind::IntLit(*n),
        Atom::StrLit(text) => ExprKind::StrLit(text.to_owned(alloc)?),
        Atom::Name(name) => ExprKind::Name(name.to_owned(alloc)?),
    })
}

/// What a node is whose parts are a list of expressions.
#[derive(Clone, Copy)]
enum Series {
    And,
    Or,
    List,
    Tuple,
}

fn series_kind(series: Series, all: Items<Expr>) -> ExprKind
    ensures { result ≡ series_kind series all }
{
    match series {
        Series::And => ExprKind::And(all),
        Series::Or => ExprKind::Or(all),
        Series::List => ExprKind::ListLit(all),
        Series::Tuple => ExprKind::TupleLit(all),
    }
}

/// An expression with its numbers from one on, and the number after them.
#[cycle(numbers)]
#[tactic(auto, using(crate::proofs::NumberLemmas::numbers))]
pub fn numbered(alloc: Global, shape: &Shape, number: u32) -> Result<(Expr, u32), Memory>
    ensures { IfOk result (λ r. r ≡ numbered shape.now number) }
{
    let next = next_number(number)?;
    match shape {
        Shape::Atom(a) => Ok((expr(number, leaf(alloc, a)?), next)),
        Shape::Unary(sign, x) => {
            let (operand, end) = part_numbered(alloc, x.get(), next)?;
            Ok((expr(number, ExprKind::Unary(*sign, operand)), end))
        }
        Shape::Not(x) => {
            let (operand, end) = part_numbered(alloc, x.get(), next)?;
            Ok((expr(number, ExprKind::Not(operand)), end))
        }
        Shape::Binary(op, a, b) => {
            let (left, middle) = part_numbered(alloc, a.get(), next)?;
            let (right, end) = part_numbered(alloc, b.get(), middle)?;
            Ok((expr(number, ExprKind::Binary(*op, left, right)), end))
        }
        Shape::Compare(x, pairs) => {
            let (first, middle) = part_numbered(alloc, x.get(), next)?;
            let (others, end) = compared_numbered(alloc, pairs.as_slice(), middle)?;
            Ok((expr(number, ExprKind::Compare(first, others)), end))
        }
        Shape::Cond(a, b, c) => {
            let (value, first) = part_numbered(alloc, a.get(), next)?;
            let (test, second) = part_numbered(alloc, b.get(), first)?;
            let (other, end) = part_numbered(alloc, c.get(), second)?;
            Ok((expr(number, ExprKind::Cond(value, test, other)), end))
        }
        Shape::And(items) => series_numbered(alloc, Series::And, items.as_slice(), number),
        Shape::Or(items) => series_numbered(alloc, Series::Or, items.as_slice(), number),
        Shape::ListLit(items) => series_numbered(alloc, Series::List, items.as_slice(), number),
        Shape::TupleLit(items) => series_numbered(alloc, Series::Tuple, items.as_slice(), number),
        Shape::DictLit(pairs) => {
            let (all, end) = entries_numbered(alloc, pairs.as_slice(), next)?;
            Ok((expr(number, ExprKind::DictLit(all)), end))
        }
        _ => primary_numbered(alloc, shape, number),
    }
}

/// A primary: an operand with a group after it, or a call by `super`.
#[cycle(numbers)]
#[tactic(auto, using(crate::proofs::NumberLemmas::numbers))]
fn primary_numbered(alloc: Global, shape: &Shape, number: u32) -> Result<(Expr, u32), Memory>
    requires { is_primary shape.now ≡ true }
    ensures { IfOk result (λ r. r ≡ numbered shape.now number) }
{
    let next = next_number(number)?;
    match shape {
        Shape::Attr(x, name) => {
            let (object, end) = part_numbered(alloc, x.get(), next)?;
            let name = name.to_owned(alloc)?;
            Ok((expr(number, ExprKind::Attr(object, name)), end))
        }
        Shape::Index(x, i) => {
            let (object, middle) = part_numbered(alloc, x.get(), next)?;
            let (index, end) = part_numbered(alloc, i.get(), middle)?;
            Ok((expr(number, ExprKind::Index(object, index)), end))
        }
        Shape::Slice(x, a, b) => {
            let (object, first) = part_numbered(alloc, x.get(), next)?;
            let (low, second) = bound_numbered(alloc, a, first)?;
            let (high, end) = bound_numbered(alloc, b, second)?;
            Ok((expr(number, ExprKind::Slice(object, low, high)), end))
        }
        Shape::Call(x, given) => {
            let (callee, middle) = part_numbered(alloc, x.get(), next)?;
            let (args, end) = args_numbered(alloc, given.as_slice(), middle)?;
            Ok((expr(number, ExprKind::Call(callee, args)), end))
        }
        Shape::Method(x, name, given) => {
            let (object, middle) = part_numbered(alloc, x.get(), next)?;
            let (args, end) = args_numbered(alloc, given.as_slice(), middle)?;
            let name = name.to_owned(alloc)?;
            Ok((expr(number, ExprKind::Method(object, name, args)), end))
        }
        Shape::Super(name, given) => {
            let (args, end) = args_numbered(alloc, given.as_slice(), next)?;
            let name = name.to_owned(alloc)?;
            Ok((expr(number, ExprKind::Super(name, args)), end))
        }
        _ => unreachable!(),
    }
}

/// A part of a node.
#[cycle(numbers)]
#[tactic(auto, using(crate::proofs::NumberLemmas::numbers))]
fn part_numbered(alloc: Global, shape: &Shape, number: u32) -> Result<(Boxed<Expr>, u32), Memory>
    ensures { IfOk result (λ r. r ≡ numbered shape.now number) }
{
    let (x, end) = numbered(alloc, shape, number)?;
    Ok((Boxed::new(alloc, x)?, end))
}

/// A node whose parts are a list of expressions.
#[cycle(numbers)]
#[tactic(auto, using(crate::proofs::NumberLemmas::numbers))]
fn series_numbered(
    alloc: Global,
    series: Series,
    shapes: &[Shape],
    number: u32,
) -> Result<(Expr, u32), Memory>
    ensures { IfOk result (λ r. r ≡ numbered (series_shape series shapes.now) number) }
{
    let next = next_number(number)?;
    let (all, end) = all_numbered(alloc, shapes, next)?;
    Ok((expr(number, series_kind(series, all)), end))
}

#[cycle(numbers)]
#[tactic(auto, using(crate::proofs::NumberLemmas::numbers))]
fn all_numbered(alloc: Global, shapes: &[Shape], number: u32) -> Result<(Items<Expr>, u32), Memory>
    ensures { IfOk result (λ r. r ≡ in_order (map numbered shapes.now) number) }
{
    let mut all = Items::new(alloc);
    let mut next = number;
    for shape in shapes {
        let (x, end) = numbered(alloc, shape, next)?;
        all.push(x)?;
        next = end;
    }
    Ok((all, next))
}

#[cycle(numbers)]
#[tactic(auto, using(crate::proofs::NumberLemmas::numbers))]
fn entries_numbered(
    alloc: Global,
    pairs: &[(Shape, Shape)],
    number: u32,
) -> Result<(Items<(Expr, Expr)>, u32), Memory>
    ensures { IfOk result (λ r. r ≡ entries (map pair_numbered pairs.now) number) }
{
    let mut all = Items::new(alloc);
    let mut next = number;
    for pair in pairs {
        let (key, middle) = numbered(alloc, &pair.0, next)?;
        let (value, end) = numbered(alloc, &pair.1, middle)?;
        all.push((key, value))?;
        next = end;
    }
    Ok((all, next))
}

#[cycle(numbers)]
#[tactic(auto, using(crate::proofs::NumberLemmas::numbers))]
fn compared_numbered(
    alloc: Global,
    pairs: &[(CmpOp, Shape)],
    number: u32,
) -> Result<(Items<(CmpOp, Expr)>, u32), Memory>
    ensures { IfOk result (λ r. r ≡ compared (map comparison_numbered pairs.now) number) }
{
    let mut all = Items::new(alloc);
    let mut next = number;
    for pair in pairs {
        let (x, end) = numbered(alloc, &pair.1, next)?;
        all.push((pair.0, x))?;
        next = end;
    }
    Ok((all, next))
}

/// Adds one more argument.
fn push_argument(
    alloc: Global,
    plain: &mut Items<Expr>,
    named: &mut Items<(Name, Expr)>,
    name: &Option<Name>,
    x: Expr,
) -> Result<(), Memory>
    ensures { OnOk result ((plain.new, named.new) ≡ one_more (plain.old, named.old) name.now x) }
{
    match name {
        None => plain.push(x)?,
        Some(name) => {
            let name = name.to_owned(alloc)?;
            named.push((name, x))?;
        }
    }
    Ok(())
}

#[cycle(numbers)]
#[tactic(auto, using(crate::proofs::NumberLemmas::numbers))]
fn args_numbered(
    alloc: Global,
    given: &[(Option<Name>, Shape)],
    number: u32,
) -> Result<(Args, u32), Memory>
    ensures { IfOk result (λ r. r ≡ (args (arguments (map argument_numbered given.now) number).0, (arguments (map argument_numbered given.now) number).1)) }
{
    let mut plain = Items::new(alloc);
    let mut named = Items::new(alloc);
    let mut next = number;
    for argument in given {
        let (x, end) = numbered(alloc, &argument.1, next)?;
        push_argument(alloc, &mut plain, &mut named, &argument.0, x)?;
        next = end;
    }
    Ok((Args { plain, named }, next))
}

#[cycle(numbers)]
#[tactic(auto, using(crate::proofs::NumberLemmas::numbers))]
fn bound_numbered(
    alloc: Global,
    bound: &Option<Boxed<Shape>>,
    number: u32,
) -> Result<(Option<Boxed<Expr>>, u32), Memory>
    ensures { IfOk result (λ r. r ≡ bound_of (option_map numbered bound.now) number) }
{
    match bound {
        None => Ok((None, number)),
        Some(x) => {
            let (x, end) = part_numbered(alloc, x.get(), number)?;
            Ok((Some(x), end))
        }
    }
}
