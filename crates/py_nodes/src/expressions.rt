// Numbering the nodes of an expression, in the order of reading.
ghost use Rattle.std.specs.Prelude.{◌≡◌, ◌+◌, ◌≤◌, length, map, take, drop, true, IfOk};
ghost use Rattle.std.specs.List.{prefix_len};
ghost use Rattle.std.specs.Option.{option_map};
ghost use Rattle.py_language.specs.TreesNumbers.{in_order};
ghost use Rattle.py_nodes.specs.Expressions.{after, maybe as maybe_of, part_of, parts_of, args_of, expr_on};
ghost use Rattle.py_nodes.specs.Code.{pair_of, compared_of, added, precedes, series_kind as kind_of_series, is_primary};

use py_syntax::{Args, CmpOp, Expr, ExprKind, Line};
use pyn_base::{Memory, Name, NodeId};
use sqlite_items::{Boxed, Items};
use std::alloc::Global;

/// Where an expression stands: its line, and whether its nodes are counted.
#[derive(Clone, Copy)]
pub struct Place {
    pub line: Line,
    pub counted: bool,
}

/// The number after this one, if nodes are counted. There are fewer nodes than numbers, so there always is one.
pub fn number_after(counted: bool, number: u32) -> Result<u32, Memory>
    ensures { IfOk result (λ n. n ≡ after counted number) }
{
    if !counted {
        return Ok(number);
    }
    match number.checked_add(1) {
        Some(next) => Ok(next),
        None => Err(Memory),
    }
}

/// An expression with its numbers from one on, and the number after them.
#[cycle(numbers)]
#[tactic(auto, using(crate::proofs::Levels::parts))]
pub fn expression(alloc: Global, place: Place, x: &Expr, number: u32) -> Result<(Expr, u32), Memory>
    ensures { IfOk result (λ r. r ≡ expr_on place.counted place.line x.now number) }
{
    let next = number_after(place.counted, number)?;
    let (kind, end) = parts(alloc, place, &x.kind, next)?;
    Ok((
        Expr {
            node: NodeId(number),
            line: place.line,
            kind,
        },
        end,
    ))
}

#[cycle(numbers)]
#[tactic(auto, using(crate::proofs::Levels::parts))]
fn parts(
    alloc: Global,
    place: Place,
    kind: &ExprKind,
    number: u32,
) -> Result<(ExprKind, u32), Memory>
    ensures { IfOk result (λ r. r ≡ parts_of place.counted kind.now place.line number) }
{
    match kind {
        ExprKind::NoneLit => Ok((ExprKind::NoneLit, number)),
        ExprKind::BoolLit(b) => Ok((ExprKind::BoolLit(*b), number)),
        ExprKind::IntLit(n) => Ok((ExprKind::IntLit(*n), number)),
        ExprKind::StrLit(text) => Ok((ExprKind::StrLit(text.to_owned(alloc)?), number)),
        ExprKind::Name(name) => Ok((ExprKind::Name(name.to_owned(alloc)?), number)),
        ExprKind::ListLit(xs) => list_parts(alloc, place, Series::List, xs.as_slice(), number),
        ExprKind::TupleLit(xs) => list_parts(alloc, place, Series::Tuple, xs.as_slice(), number),
        ExprKind::And(xs) => list_parts(alloc, place, Series::And, xs.as_slice(), number),
        ExprKind::Or(xs) => list_parts(alloc, place, Series::Or, xs.as_slice(), number),
        ExprKind::DictLit(pairs) => {
            let (all, end) = pairs_in_order(alloc, place, pairs.as_slice(), number)?;
            Ok((ExprKind::DictLit(all), end))
        }
        ExprKind::Unary(sign, x) => {
            let (operand, end) = part(alloc, place, x.get(), number)?;
            Ok((ExprKind::Unary(*sign, operand), end))
        }
        ExprKind::Not(x) => {
            let (operand, end) = part(alloc, place, x.get(), number)?;
            Ok((ExprKind::Not(operand), end))
        }
        ExprKind::Binary(op, a, b) => {
            let (left, middle) = part(alloc, place, a.get(), number)?;
            let (right, end) = part(alloc, place, b.get(), middle)?;
            Ok((ExprKind::Binary(*op, left, right), end))
        }
        ExprKind::Compare(x, pairs) => {
            let (first, middle) = part(alloc, place, x.get(), number)?;
            let (others, end) = compared_in_order(alloc, place, pairs.as_slice(), middle)?;
            Ok((ExprKind::Compare(first, others), end))
        }
        ExprKind::Cond(a, test, b) => {
            let (value, first) = part(alloc, place, a.get(), number)?;
            let (condition, second) = part(alloc, place, test.get(), first)?;
            let (other, end) = part(alloc, place, b.get(), second)?;
            Ok((ExprKind::Cond(value, condition, other), end))
        }
        _ => primary(alloc, place, kind, number),
    }
}

/// The parts of a primary that isn't an atom.
#[cycle(numbers)]
#[tactic(auto, using(crate::proofs::Levels::parts))]
fn primary(
    alloc: Global,
    place: Place,
    kind: &ExprKind,
    number: u32,
) -> Result<(ExprKind, u32), Memory>
    requires { is_primary kind.now ≡ true }
    ensures { IfOk result (λ r. r ≡ parts_of place.counted kind.now place.line number) }
{
    match kind {
        ExprKind::Attr(x, name) => {
            let (object, end) = part(alloc, place, x.get(), number)?;
            let name = name.to_owned(alloc)?;
            Ok((ExprKind::Attr(object, name), end))
        }
        ExprKind::Index(x, i) => {
            let (object, middle) = part(alloc, place, x.get(), number)?;
            let (index, end) = part(alloc, place, i.get(), middle)?;
            Ok((ExprKind::Index(object, index), end))
        }
        ExprKind::Slice(x, a, b) => {
            let (object, first) = part(alloc, place, x.get(), number)?;
            let (low, second) = bound(alloc, place, a, first)?;
            let (high, end) = bound(alloc, place, b, second)?;
            Ok((ExprKind::Slice(object, low, high), end))
        }
        ExprKind::Call(x, given) => {
            let (callee, middle) = part(alloc, place, x.get(), number)?;
            let (args, end) = arguments(alloc, place, given, middle)?;
            Ok((ExprKind::Call(callee, args), end))
        }
        ExprKind::Method(x, name, given) => {
            let (object, middle) = part(alloc, place, x.get(), number)?;
            let (args, end) = arguments(alloc, place, given, middle)?;
            let name = name.to_owned(alloc)?;
            Ok((ExprKind::Method(object, name, args), end))
        }
        ExprKind::Super(name, given) => {
            let (args, end) = arguments(alloc, place, given, number)?;
            let name = name.to_owned(alloc)?;
            Ok((ExprKind::Super(name, args), end))
        }
        _ => unreachable!(),
    }
}

#[cycle(numbers)]
#[tactic(auto, using(crate::proofs::Levels::parts))]
fn part(alloc: Global, place: Place, x: &Expr, number: u32) -> Result<(Boxed<Expr>, u32), Memory>
    ensures { IfOk result (λ r. r ≡ expr_on place.counted place.line x.now number) }
{
    let (x, end) = expression(alloc, place, x, number)?;
    Ok((Boxed::new(alloc, x)?, end))
}

#[cycle(numbers)]
#[tactic(auto, using(crate::proofs::Levels::parts))]
fn bound(
    alloc: Global,
    place: Place,
    bound: &Option<Boxed<Expr>>,
    number: u32,
) -> Result<(Option<Boxed<Expr>>, u32), Memory>
    ensures { IfOk result (λ r. r ≡ maybe_of (option_map (expr_on place.counted place.line) bound.now) number) }
{
    match bound {
        None => Ok((None, number)),
        Some(x) => {
            let (x, end) = part(alloc, place, x.get(), number)?;
            Ok((Some(x), end))
        }
    }
}

/// What a node is whose parts are a list of expressions.
#[derive(Clone, Copy)]
enum Series {
    And,
    Or,
    List,
    Tuple,
}

fn series_kind(series: Series, all: Items<Expr>) -> ExprKind
    ensures { result ≡ kind_of_series series all }
{
    match series {
        Series::And => ExprKind::And(all),
        Series::Or => ExprKind::Or(all),
        Series::List => ExprKind::ListLit(all),
        Series::Tuple => ExprKind::TupleLit(all),
    }
}

/// A node whose parts are a list of expressions.
#[cycle(numbers)]
#[tactic(auto, using(crate::proofs::Levels::parts))]
fn list_parts(
    alloc: Global,
    place: Place,
    series: Series,
    xs: &[Expr],
    number: u32,
) -> Result<(ExprKind, u32), Memory>
    ensures { IfOk result (λ r. r ≡ parts_of place.counted (kind_of_series series xs.now) place.line number) }
{
    let (all, end) = in_order(alloc, place, xs, number)?;
    Ok((series_kind(series, all), end))
}

#[cycle(numbers)]
#[tactic(auto, using(crate::proofs::Levels::parts))]
fn in_order(
    alloc: Global,
    place: Place,
    xs: &[Expr],
    number: u32,
) -> Result<(Items<Expr>, u32), Memory>
    ensures { IfOk result (λ r. r ≡ in_order (map (expr_on place.counted place.line) xs.now) number) }
{
    let mut all = Items::new(alloc);
    let mut next = number;
    for x in xs {
        let (x, end) = expression(alloc, place, x, next)?;
        all.push(x)?;
        next = end;
    }
    Ok((all, next))
}

#[cycle(numbers)]
#[tactic(auto, using(crate::proofs::Levels::parts))]
fn pairs_in_order(
    alloc: Global,
    place: Place,
    pairs: &[(Expr, Expr)],
    number: u32,
) -> Result<(Items<(Expr, Expr)>, u32), Memory>
    ensures { IfOk result (λ r. r ≡ in_order (map (pair_of place.counted place.line) pairs.now) number) }
{
    let mut all = Items::new(alloc);
    let mut next = number;
    for pair in pairs {
        let (key, middle) = expression(alloc, place, &pair.0, next)?;
        let (value, end) = expression(alloc, place, &pair.1, middle)?;
        all.push((key, value))?;
        next = end;
    }
    Ok((all, next))
}

#[cycle(numbers)]
#[tactic(auto, using(crate::proofs::Levels::parts))]
fn compared_in_order(
    alloc: Global,
    place: Place,
    pairs: &[(CmpOp, Expr)],
    number: u32,
) -> Result<(Items<(CmpOp, Expr)>, u32), Memory>
    ensures { IfOk result (λ r. r ≡ in_order (map (compared_of place.counted place.line) pairs.now) number) }
{
    let mut all = Items::new(alloc);
    let mut next = number;
    for pair in pairs {
        let (x, end) = expression(alloc, place, &pair.1, next)?;
        all.push((pair.0, x))?;
        next = end;
    }
    Ok((all, next))
}

/// Whether a named argument was written before the argument that had this number.
fn precedes(argument: &(Name, Expr), had: u32) -> bool
    ensures { result ≡ precedes had argument.now }
{
    argument.1.node.0 < had
}

/// How many of the named arguments from a place on were written before the argument that had this number.
fn written_before(named: &[(Name, Expr)], from: usize, had: u32) -> usize
    requires { from ≤ length named.now }
    ensures count { result ≡ prefix_len (precedes had) (drop from named.now) }
    ensures within { from + result ≤ length named.now }
{
    let left = &named[from..];
    for (i, n) in left.iter().enumerate() {
        if !precedes(n, had) {
            return i;
        }
    }
    left.len()
}

/// The arguments of a call, in the order in which they were written.
#[cycle(numbers)]
#[tactic(auto, using(crate::proofs::Levels::parts))]
fn arguments(alloc: Global, place: Place, given: &Args, number: u32) -> Result<(Args, u32), Memory>
    ensures { IfOk result (λ r. r ≡ args_of place.counted given.now place.line number) }
{
    let mut plain = Items::new(alloc);
    let mut named = Items::new(alloc);
    let mut next = number;
    let mut from = 0;
    let all = given.plain.as_slice();
    let names = given.named.as_slice();
    for x in all {
        let count = written_before(names, from, x.node.0);
        let first = push_named(alloc, place, names, from, count, &mut named, next)?;
        let (x, end) = expression(alloc, place, x, first)?;
        plain.push(x)?;
        next = end;
        from += count;
    }
    let rest = names.len() - from;
    let end = push_named(alloc, place, names, from, rest, &mut named, next)?;
    Ok((Args { plain, named }, end))
}

/// Adds so many named arguments from a place on to those that are done, and gives the number after them.
#[cycle(numbers)]
#[tactic(auto, using(crate::proofs::Levels::parts))]
fn push_named(
    alloc: Global,
    place: Place,
    names: &[(Name, Expr)],
    from: usize,
    count: usize,
    named: &mut Items<(Name, Expr)>,
    number: u32,
) -> Result<u32, Memory>
    requires { from + count ≤ length names.now }
    ensures { IfOk result (λ end. (named.new, end) ≡ added place.counted place.line named.old (take count (drop from names.now)) number) }
{
    let mut next = number;
    for i in 0..count {
        let argument = &names[from + i];
        let (x, end) = expression(alloc, place, &argument.1, next)?;
        let name = argument.0.to_owned(alloc)?;
        named.push((name, x))?;
        next = end;
    }
    Ok(next)
}
