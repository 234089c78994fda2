// Numbering the nodes of statements, in the order of reading.
ghost use Rattle.std.specs.Prelude.{◌≡◌, map, true, IfOk};
ghost use Rattle.std.specs.Option.{option_map};
ghost use Rattle.py_language.specs.TreesNumbers.{in_order};
ghost use Rattle.py_nodes.specs.Expressions.{after, expr as numbered_expr};
ghost use Rattle.py_nodes.specs.Numbers.{target_numbered, maybe_expr as maybe_expr_of, stmt, clause as clause_of, kind as kind_of};
ghost use Rattle.py_syntax.specs.declared.stmt.StmtKind.TheVariants as k;
ghost use Rattle.py_nodes.specs.CodeStatements.{maybe_block_of, is_if, is_simple};

use crate::copies::{maybe_annotation, maybe_name, maybe_names, names_copy};
use crate::expressions::{Place, expression, number_after};
use py_syntax::{Annotation, BinOp, Clause, Expr, Stmt, StmtKind, Target};
use pyn_base::{Memory, NodeId};
use sqlite_items::Items;
use std::alloc::Global;

/// An expression with its numbers from one on, and the number after them. Its parts have its line.
pub fn whole(alloc: Global, counted: bool, x: &Expr, number: u32) -> Result<(Expr, u32), Memory>
    ensures { IfOk result (λ r. r ≡ numbered_expr counted x.now number) }
{
    let place = Place {
        line: x.line,
        counted,
    };
    expression(alloc, place, x, number)
}

/// An expression that may be missing.
fn maybe_expression(
    alloc: Global,
    counted: bool,
    x: &Option<Expr>,
    number: u32,
) -> Result<(Option<Expr>, u32), Memory>
    ensures { IfOk result (λ r. r ≡ maybe_expr_of counted x.now number) }
{
    match x {
        None => Ok((None, number)),
        Some(x) => {
            let (x, end) = whole(alloc, counted, x, number)?;
            Ok((Some(x), end))
        }
    }
}

fn target(
    alloc: Global,
    counted: bool,
    target: &Target,
    number: u32,
) -> Result<(Target, u32), Memory>
    ensures { IfOk result (λ r. r ≡ target_numbered counted target.now number) }
{
    match target {
        Target::Name(name) => Ok((Target::Name(name.to_owned(alloc)?), number)),
        Target::Attr(x, name) => {
            let (object, end) = whole(alloc, counted, x, number)?;
            Ok((Target::Attr(object, name.to_owned(alloc)?), end))
        }
        Target::Index(x, i) => {
            let (object, middle) = whole(alloc, counted, x, number)?;
            let (index, end) = whole(alloc, counted, i, middle)?;
            Ok((Target::Index(object, index), end))
        }
    }
}

fn targets(
    alloc: Global,
    counted: bool,
    all: &[Target],
    number: u32,
) -> Result<(Items<Target>, u32), Memory>
    ensures { IfOk result (λ r. r ≡ in_order (map (target_numbered counted) all.now) number) }
{
    let mut done = Items::new(alloc);
    let mut next = number;
    for one in all {
        let (made, end) = target(alloc, counted, one, next)?;
        done.push(made)?;
        next = end;
    }
    Ok((done, next))
}

/// A statement with its numbers from one on, and the number after them.
#[cycle(numbers)]
#[tactic(auto, using(crate::proofs::StmtLevels::kinds))]
pub fn statement(alloc: Global, counted: bool, x: &Stmt, number: u32) -> Result<(Stmt, u32), Memory>
    ensures { IfOk result (λ r. r ≡ stmt counted x.now number) }
{
    let next = number_after(counted, number)?;
    let (kind, end) = kind(alloc, counted, &x.kind, next)?;
    Ok((
        Stmt {
            node: NodeId(number),
            line: x.line,
            kind,
        },
        end,
    ))
}

#[cycle(numbers)]
#[tactic(auto, using(crate::proofs::StmtLevels::kinds))]
fn kind(
    alloc: Global,
    counted: bool,
    kind: &StmtKind,
    number: u32,
) -> Result<(StmtKind, u32), Memory>
    ensures { IfOk result (λ r. r ≡ kind_of counted kind.now number) }
{
    match kind {
        StmtKind::If(_, _) => branches(alloc, counted, kind, number),
        StmtKind::While(x, body) => {
            let (test, middle) = whole(alloc, counted, x, number)?;
            let (body, end) = block(alloc, counted, body.as_slice(), middle)?;
            Ok((StmtKind::While(test, body), end))
        }
        StmtKind::For(names, is_tuple, x, body) => {
            let names = names_copy(alloc, names.as_slice())?;
            let (walked, middle) = whole(alloc, counted, x, number)?;
            let (body, end) = block(alloc, counted, body.as_slice(), middle)?;
            Ok((StmtKind::For(names, *is_tuple, walked, body), end))
        }
        StmtKind::Try(body, clauses, other, last) => {
            let (body, first) = block(alloc, counted, body.as_slice(), number)?;
            let (clauses, second) = clauses_in_order(alloc, counted, clauses.as_slice(), first)?;
            let (other, third) = maybe_block(alloc, counted, other, second)?;
            let (last, end) = maybe_block(alloc, counted, last, third)?;
            Ok((StmtKind::Try(body, clauses, other, last), end))
        }
        _ => simple(alloc, counted, kind, number),
    }
}

/// An `if`, with each of its arms.
#[cycle(numbers)]
#[tactic(auto, using(crate::proofs::StmtLevels::kinds))]
fn branches(
    alloc: Global,
    counted: bool,
    kind: &StmtKind,
    number: u32,
) -> Result<(StmtKind, u32), Memory>
    requires { is_if kind.now ≡ true }
    ensures { IfOk result (λ r. r ≡ kind_of counted kind.now number) }
{
    match kind {
        StmtKind::If(all, other) => {
            let arms = all.as_slice();
            let mut done = Items::new(alloc);
            let mut next = number;
            for arm in arms {
                let (test, middle) = whole(alloc, counted, &arm.0, next)?;
                let (body, end) = block(alloc, counted, arm.1.as_slice(), middle)?;
                done.push((test, body))?;
                next = end;
            }
            let (other, end) = maybe_block(alloc, counted, other, next)?;
            Ok((StmtKind::If(done, other), end))
        }
        _ => unreachable!(),
    }
}

/// A statement without blocks.
#[tactic(auto, using(crate::proofs::StmtLevels::kinds))]
fn simple(
    alloc: Global,
    counted: bool,
    kind: &StmtKind,
    number: u32,
) -> Result<(StmtKind, u32), Memory>
    requires { is_simple kind.now ≡ true }
    ensures { IfOk result (λ r. r ≡ kind_of counted kind.now number) }
{
    match kind {
        StmtKind::Pass => Ok((StmtKind::Pass, number)),
        StmtKind::Break => Ok((StmtKind::Break, number)),
        StmtKind::Continue => Ok((StmtKind::Continue, number)),
        StmtKind::Return(x) => {
            let (value, end) = maybe_expression(alloc, counted, x, number)?;
            Ok((StmtKind::Return(value), end))
        }
        StmtKind::Raise(x) => {
            let (value, end) = maybe_expression(alloc, counted, x, number)?;
            Ok((StmtKind::Raise(value), end))
        }
        StmtKind::Assert(x, message) => assert(alloc, counted, x, message, number),
        StmtKind::Del(x, i) => delete(alloc, counted, x, i, number),
        StmtKind::Bare(x) => {
            let (value, end) = whole(alloc, counted, x, number)?;
            Ok((StmtKind::Bare(value), end))
        }
        StmtKind::Assign(all, is_tuple, annotation, x) => {
            assign(alloc, counted, all, *is_tuple, annotation, x, number)
        }
        StmtKind::Augment(one, op, x) => augment(alloc, counted, one, *op, x, number),
        _ => unreachable!(),
    }
}

#[tactic(auto, using(crate::proofs::StmtLevels::kinds))]
fn assert(
    alloc: Global,
    counted: bool,
    x: &Expr,
    message: &Option<Expr>,
    number: u32,
) -> Result<(StmtKind, u32), Memory>
    ensures { IfOk result (λ r. r ≡ kind_of counted (k.Assert x.now message.now) number) }
{
    let (test, middle) = whole(alloc, counted, x, number)?;
    let (message, end) = maybe_expression(alloc, counted, message, middle)?;
    Ok((StmtKind::Assert(test, message), end))
}

#[tactic(auto, using(crate::proofs::StmtLevels::kinds))]
fn delete(
    alloc: Global,
    counted: bool,
    x: &Expr,
    i: &Expr,
    number: u32,
) -> Result<(StmtKind, u32), Memory>
    ensures { IfOk result (λ r. r ≡ kind_of counted (k.Del x.now i.now) number) }
{
    let (object, middle) = whole(alloc, counted, x, number)?;
    let (index, end) = whole(alloc, counted, i, middle)?;
    Ok((StmtKind::Del(object, index), end))
}

#[tactic(auto, using(crate::proofs::StmtLevels::kinds))]
fn assign(
    alloc: Global,
    counted: bool,
    all: &Items<Target>,
    is_tuple: bool,
    annotation: &Option<Annotation>,
    x: &Expr,
    number: u32,
) -> Result<(StmtKind, u32), Memory>
    ensures { IfOk result (λ r. r ≡ kind_of counted (k.Assign all.now is_tuple annotation.now x.now) number) }
{
    let annotation = maybe_annotation(alloc, annotation)?;
    let (targets, middle) = targets(alloc, counted, all.as_slice(), number)?;
    let (value, end) = whole(alloc, counted, x, middle)?;
    Ok((StmtKind::Assign(targets, is_tuple, annotation, value), end))
}

#[tactic(auto, using(crate::proofs::StmtLevels::kinds))]
fn augment(
    alloc: Global,
    counted: bool,
    one: &Target,
    op: BinOp,
    x: &Expr,
    number: u32,
) -> Result<(StmtKind, u32), Memory>
    ensures { IfOk result (λ r. r ≡ kind_of counted (k.Augment one.now op x.now) number) }
{
    let (target, middle) = target(alloc, counted, one, number)?;
    let (value, end) = whole(alloc, counted, x, middle)?;
    Ok((StmtKind::Augment(target, op, value), end))
}

#[cycle(numbers)]
#[tactic(auto, using(crate::proofs::StmtLevels::kinds))]
fn maybe_block(
    alloc: Global,
    counted: bool,
    body: &Option<Items<Stmt>>,
    number: u32,
) -> Result<(Option<Items<Stmt>>, u32), Memory>
    ensures { IfOk result (λ r. r ≡ maybe_block_of counted body.now number) }
{
    match body {
        None => Ok((None, number)),
        Some(body) => {
            let all = body.as_slice();
            let mut done = Items::new(alloc);
            let mut next = number;
            for one in all {
                let (made, end) = statement(alloc, counted, one, next)?;
                done.push(made)?;
                next = end;
            }
            Ok((Some(done), next))
        }
    }
}

#[cycle(numbers)]
#[tactic(auto, using(crate::proofs::StmtLevels::kinds))]
pub fn block(
    alloc: Global,
    counted: bool,
    body: &[Stmt],
    number: u32,
) -> Result<(Items<Stmt>, u32), Memory>
    ensures { IfOk result (λ r. r ≡ in_order (map (stmt counted) body.now) number) }
{
    let mut done = Items::new(alloc);
    let mut next = number;
    for one in body {
        let (made, end) = statement(alloc, counted, one, next)?;
        done.push(made)?;
        next = end;
    }
    Ok((done, next))
}

#[cycle(numbers)]
#[tactic(auto, using(crate::proofs::StmtLevels::kinds))]
fn clauses_in_order(
    alloc: Global,
    counted: bool,
    clauses: &[Clause],
    number: u32,
) -> Result<(Items<Clause>, u32), Memory>
    ensures { IfOk result (λ r. r ≡ in_order (map (clause_of counted) clauses.now) number) }
{
    let mut done = Items::new(alloc);
    let mut next = number;
    for one in clauses {
        let (made, end) = clause(alloc, counted, one, next)?;
        done.push(made)?;
        next = end;
    }
    Ok((done, next))
}

#[cycle(numbers)]
#[tactic(auto, using(crate::proofs::StmtLevels::kinds))]
fn clause(alloc: Global, counted: bool, one: &Clause, number: u32) -> Result<(Clause, u32), Memory>
    ensures { IfOk result (λ r. r ≡ clause_of counted one.now number) }
{
    let next = number_after(counted, number)?;
    let (body, end) = block(alloc, counted, one.body.as_slice(), next)?;
    let classes = maybe_names(alloc, &one.classes)?;
    let name = maybe_name(alloc, &one.name)?;
    Ok((
        Clause {
            node: NodeId(number),
            line: one.line,
            classes,
            name,
            body,
        },
        end,
    ))
}
