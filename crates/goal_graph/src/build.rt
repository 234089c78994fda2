// The goals of a module, in order.
ghost use Rattle.std.specs.Prelude.{◌≡◌, ℕ, ◌+◌, ◌<◌, ◌^◌, [], ◌∷◌, ◌++◌, length, map, Some, IfOk, OnOk};
ghost use Rattle.std.specs.List.{filter_map};
ghost use Rattle.goal_model.specs.Goals.{goals_in, goals_from, goals_of, branch};
ghost use Rattle.goal_graph.specs.Lines.{started, some_nodes, starts, line_goal, goals_at, lines_after, trees, method_tree, goals_of_trees};

use crate::lines::{Starts, starts_of};
use crate::points::body_points;
use crate::row::Row;
use goal_model::{GoalKind, Point};
use py_syntax::{Func, Item, Line, Member, Module};
use pyn_base::{FuncId, Memory, NodeId};
use std::alloc::Global;

/// A count as a number. No table has room for more.
pub(crate) fn number_of(count: u64) -> Result<u32, Memory>
    ensures { IfOk result (λ number. number ≡ count) }
{
    match u32::try_from(count) {
        Ok(number) => Ok(number),
        Err(_) => Err(Memory),
    }
}

/// The goals of a module, in order.
#[tactic(auto, using(crate::proofs::LinesLeft::all_goals))]
pub(crate) fn rows_of(alloc: Global, tree: &Module) -> Result<Vec<Row>, Memory>
    ensures { IfOk result (λ rows. rows.items ≡ goals_of tree.now) }
{
    let functions = functions_of(alloc, tree)?;
    let mut rows = Vec::new(alloc);
    let mut number = 0u64;
    for f in &functions {
        add_function(alloc, &mut rows, FuncId(number_of(number)?), *f)?;
        number += 1;
    }
    Ok(rows)
}

fn functions_of<'m>(alloc: Global, tree: &'m Module) -> Result<Vec<&'m Func>, Memory>
    ensures { IfOk result (λ functions. map (λ f. f.now) functions.items ≡ trees tree.now.items) }
{
    let mut functions = Vec::new(alloc);
    for item in tree.items.as_slice() {
        match item {
            Item::Func(f) => functions.push(f)?,
            Item::Class(c) => add_methods(&mut functions, c.members.as_slice())?,
            Item::Import(_, _) => {}
            Item::Other(_) => {}
        }
    }
    Ok(functions)
}

fn add_methods<'m>(functions: &mut Vec<&'m Func>, members: &'m [Member]) -> Result<(), Memory>
    ensures { OnOk result (map (λ f. f.now) functions.new.items ≡ map (λ f. f.now) functions.old.items ++ filter_map method_tree members.now) }
{
    for member in members {
        match member {
            Member::Func(f) => functions.push(f)?,
            Member::Other(_) => {}
        }
    }
    Ok(())
}

fn add_function(alloc: Global, rows: &mut Vec<Row>, id: FuncId, func: &Func) -> Result<(), Memory>
    ensures { OnOk result (rows.new.items ≡ rows.old.items ++ goals_in id func.now) }
{
    let mut nodes = Vec::new(alloc);
    nodes.push(func.node)?;
    rows.push(Row {
        kind: GoalKind::Entry(id),
        line: func.line,
        nodes,
        governor: None,
    })?;
    let points = body_points(alloc, id, func)?;
    let mut lines = starts_of(alloc, points.as_slice())?;
    add_goals(alloc, rows, &mut lines, points.as_slice())
}

/// The goals of points, given which statements begin on each line.
#[tactic(auto, using(crate::proofs::LinesLeft::left_first))]
fn add_goals(
    alloc: Global,
    rows: &mut Vec<Row>,
    lines: &mut Starts,
    points: &[Point],
) -> Result<(), Memory>
    requires { (q : ℕ) → started lines.old q ≡ some_nodes (starts points.now q) }
    ensures { OnOk result (rows.new.items ≡ rows.old.items ++ goals_from [] points.now) }
{
    for point in points {
        add_point(alloc, rows, lines, *point)?;
    }
    Ok(())
}

fn add_point(
    alloc: Global,
    rows: &mut Vec<Row>,
    lines: &mut Starts,
    point: Point,
) -> Result<(), Memory>
    ensures rows { OnOk result (rows.new.items ≡ rows.old.items ++ goals_at (started lines.old) point) }
    ensures lines { OnOk result ((q : ℕ) → started lines.new q ≡ lines_after (started lines.old) point q) }
{
    match point {
        Point::Statement(node, line, governor) => add_line(rows, lines, node, line, governor),
        Point::Decision(node, line, governor) => {
            add_branch(alloc, rows, node, line, governor, true)?;
            add_branch(alloc, rows, node, line, governor, false)
        }
    }
}

/// The goal of a statement's line, where the line has none yet.
fn add_line(
    rows: &mut Vec<Row>,
    lines: &mut Starts,
    node: NodeId,
    line: Line,
    governor: GoalKind,
) -> Result<(), Memory>
    ensures rows { OnOk result (rows.new.items ≡ rows.old.items ++ line_goal node line governor (started lines.old line)) }
    ensures lines { OnOk result ((q : ℕ) → started lines.new q ≡ lines_after (started lines.old) (Point.Statement node line governor) q) }
{
    if let Some(nodes) = lines.remove(&line) {
        rows.push(Row {
            kind: GoalKind::Reached(node),
            line,
            nodes,
            governor: Some(governor),
        })?;
    }
    Ok(())
}

fn add_branch(
    alloc: Global,
    rows: &mut Vec<Row>,
    node: NodeId,
    line: Line,
    governor: GoalKind,
    outcome: bool,
) -> Result<(), Memory>
    ensures { OnOk result (rows.new.items ≡ rows.old.items ++ branch node line governor outcome ∷ []) }
{
    rows.push(Row {
        kind: GoalKind::Branch(node, outcome),
        line,
        nodes: Vec::new(alloc),
        governor: Some(governor),
    })?;
    Ok(())
}
