// The points of a body, in the order of reading.
ghost use Rattle.std.specs.Prelude.{◌≡◌, true, [], ◌∷◌, ◌++◌, IfOk, OnOk};
ghost use Rattle.goal_model.specs.Goals.{body_points};
ghost use Rattle.goal_model.specs.Points.{points, points_in_clause, points_in_kind};
ghost use Rattle.goal_graph.specs.Blocks.{all_points, maybe_points, clauses_points, is_if};

use goal_model::{GoalKind, Point};
use py_syntax::{Clause, Func, Line, Stmt, StmtKind};
use pyn_base::{FuncId, Memory, NodeId};
use sqlite_items::Items;
use std::alloc::Global;

/// The points of a function's body.
#[tactic(auto, using(crate::proofs::Levels::levels))]
pub(crate) fn body_points(alloc: Global, id: FuncId, func: &Func) -> Result<Vec<Point>, Memory>
    ensures { IfOk result (λ points. points.items ≡ body_points id func.now) }
{
    let mut points = Vec::new(alloc);
    add_block(&mut points, func.body.as_slice(), GoalKind::Entry(id))?;
    Ok(points)
}

fn add_decision(
    to: &mut Vec<Point>,
    node: NodeId,
    line: Line,
    governor: GoalKind,
) -> Result<(), Memory>
    ensures { OnOk result (to.new.items ≡ to.old.items ++ Point.Decision node line governor ∷ []) }
{
    to.push(Point::Decision(node, line, governor))?;
    Ok(())
}

#[cycle(points)]
#[tactic(auto, using(crate::proofs::Levels::levels))]
fn add_stmt(to: &mut Vec<Point>, stmt: &Stmt, governor: GoalKind) -> Result<(), Memory>
    ensures { OnOk result (to.new.items ≡ to.old.items ++ points stmt.now governor) }
{
    to.push(Point::Statement(stmt.node, stmt.line, governor))?;
    add_kind(to, &stmt.kind, stmt.node, stmt.line, governor)
}

#[cycle(points)]
#[tactic(auto, using(crate::proofs::Levels::levels))]
fn add_kind(
    to: &mut Vec<Point>,
    kind: &StmtKind,
    node: NodeId,
    line: Line,
    governor: GoalKind,
) -> Result<(), Memory>
    ensures { OnOk result (to.new.items ≡ to.old.items ++ points_in_kind kind.now node line governor) }
{
    match kind {
        StmtKind::If(_, _) => add_arms(to, kind, node, line, governor),
        StmtKind::While(test, body) => {
            add_decision(to, test.node, test.line, governor)?;
            add_block(to, body.as_slice(), GoalKind::Branch(test.node, true))
        }
        StmtKind::For(_, _, _, body) => {
            add_decision(to, node, line, governor)?;
            add_block(to, body.as_slice(), GoalKind::Branch(node, true))
        }
        StmtKind::Assert(test, _) => add_decision(to, test.node, test.line, governor),
        StmtKind::Try(body, clauses, other, last) => {
            add_block(to, body.as_slice(), governor)?;
            add_clauses(to, clauses.as_slice(), governor)?;
            add_maybe(to, other, governor)?;
            add_maybe(to, last, governor)
        }
        StmtKind::Pass => Ok(()),
        StmtKind::Break => Ok(()),
        StmtKind::Continue => Ok(()),
        StmtKind::Return(_) => Ok(()),
        StmtKind::Raise(_) => Ok(()),
        StmtKind::Del(_, _) => Ok(()),
        StmtKind::Assign(_, _, _, _) => Ok(()),
        StmtKind::Augment(_, _, _) => Ok(()),
        StmtKind::Bare(_) => Ok(()),
    }
}

#[cycle(points)]
#[tactic(auto, using(crate::proofs::Levels::levels))]
fn add_block(to: &mut Vec<Point>, body: &[Stmt], governor: GoalKind) -> Result<(), Memory>
    ensures { OnOk result (to.new.items ≡ to.old.items ++ all_points governor body.now) }
{
    for stmt in body {
        add_stmt(to, stmt, governor)?;
    }
    Ok(())
}

#[cycle(points)]
#[tactic(auto, using(crate::proofs::Levels::levels))]
fn add_maybe(
    to: &mut Vec<Point>,
    body: &Option<Items<Stmt>>,
    governor: GoalKind,
) -> Result<(), Memory>
    ensures { OnOk result (to.new.items ≡ to.old.items ++ maybe_points governor body.now) }
{
    match body {
        None => Ok(()),
        Some(body) => {
            let all = body.as_slice();
            for stmt in all {
                add_stmt(to, stmt, governor)?;
            }
            Ok(())
        }
    }
}

/// Those of an `if`: each test is governed by the false of the test before, and so is the `else`.
#[cycle(points)]
#[tactic(auto, using(crate::proofs::Levels::levels))]
fn add_arms(
    to: &mut Vec<Point>,
    kind: &StmtKind,
    node: NodeId,
    line: Line,
    governor: GoalKind,
) -> Result<(), Memory>
    requires { is_if kind.now ≡ true }
    ensures { OnOk result (to.new.items ≡ to.old.items ++ points_in_kind kind.now node line governor) }
{
    match kind {
        StmtKind::If(arms, other) => {
            let all = arms.as_slice();
            let mut outer = governor;
            for arm in all {
                add_decision(to, arm.0.node, arm.0.line, outer)?;
                add_block(to, arm.1.as_slice(), GoalKind::Branch(arm.0.node, true))?;
                outer = GoalKind::Branch(arm.0.node, false);
            }
            add_maybe(to, other, outer)
        }
        _ => unreachable!(),
    }
}

#[cycle(points)]
#[tactic(auto, using(crate::proofs::Levels::levels))]
fn add_clauses(to: &mut Vec<Point>, clauses: &[Clause], governor: GoalKind) -> Result<(), Memory>
    ensures { OnOk result (to.new.items ≡ to.old.items ++ clauses_points governor clauses.now) }
{
    for clause in clauses {
        add_clause(to, clause, governor)?;
    }
    Ok(())
}

#[cycle(points)]
#[tactic(auto, using(crate::proofs::Levels::levels))]
fn add_clause(to: &mut Vec<Point>, clause: &Clause, governor: GoalKind) -> Result<(), Memory>
    ensures { OnOk result (to.new.items ≡ to.old.items ++ points_in_clause clause.now governor) }
{
    add_decision(to, clause.node, clause.line, governor)?;
    add_block(
        to,
        clause.body.as_slice(),
        GoalKind::Branch(clause.node, true),
    )
}
