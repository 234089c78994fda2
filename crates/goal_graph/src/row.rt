// One goal.
ghost use Rattle.std.specs.Prelude.{◌≡◌, suc, max, slice_get};
ghost use Rattle.std.specs.List.{list_any};
ghost use Rattle.py_frames.specs.Marked.{has_begun};
ghost use Rattle.goal_model.specs.Parents.{mark_of};
ghost use Rattle.goal_graph.specs.Graph.{mark_or_none, mark_at, least_above, nodes_of, is_marked};

use goal_model::GoalKind;
use py_frames::Marks;
use py_syntax::Line;
use pyn_base::{GoalId, NodeId};
use std::marker::Model;

/// A goal, with the nodes of which one has to begin for an entry or a line, and the goal that governs it.
#[derive(Drop)]
pub(crate) struct Row {
    pub(crate) kind: GoalKind,
    pub(crate) line: Line,
    pub(crate) nodes: Vec<NodeId>,
    pub(crate) governor: Option<GoalKind>,
}

impl Model for Row {
    ghost use Rattle.goal_model.specs.Goals.{Goal};

    ghost Value = { Goal };

    ghost view = { λ r. record { kind = r.kind; line = r.line; nodes = r.nodes.items; parent = r.governor } };
}

/// What takes a goal: the node that has to begin first, or its decision, with the outcome.
pub(crate) fn mark_of(row: &Row) -> (NodeId, Option<bool>)
    ensures { result ≡ mark_or_none (mark_of row.now) }
{
    match row.kind {
        GoalKind::Branch(node, outcome) => (node, Some(outcome)),
        _ => match row.nodes.first() {
            Some(node) => (*node, None),
            None => (NodeId(0), None),
        },
    }
}

/// What takes a goal of a number.
pub(crate) fn mark_at(rows: &[Row], goal: GoalId) -> (NodeId, Option<bool>)
    ensures { result ≡ mark_at goal rows.now }
{
    match rows.get(goal.0 as usize) {
        Some(row) => mark_of(row),
        None => (NodeId(0), None),
    }
}

/// The least number above those of all nodes that goals are about.
pub(crate) fn node_bound(rows: &[Row]) -> u64
    ensures { result ≡ nodes_of rows.now }
{
    let mut least = 0;
    for row in rows {
        least = least_above(row.nodes.as_slice(), above(mark_of(row).0, least));
    }
    least
}

fn above(node: NodeId, least: u64) -> u64
    ensures { result ≡ max (suc node.0) least }
{
    least.max(u64::from(node.0) + 1)
}

fn least_above(nodes: &[NodeId], least: u64) -> u64
    ensures { result ≡ least_above nodes.now least }
{
    let mut least = least;
    for node in nodes {
        least = above(*node, least);
    }
    least
}

/// Whether marks have what takes a goal.
pub(crate) fn is_marked(row: &Row, marks: &Marks) -> bool
    ensures { result ≡ is_marked marks.now row.now }
{
    match row.kind {
        GoalKind::Branch(node, outcome) => marks.came(node, outcome),
        _ => has_begun(row.nodes.as_slice(), marks),
    }
}

fn has_begun(nodes: &[NodeId], marks: &Marks) -> bool
    ensures { result ≡ list_any (λ node. has_begun (slice_get marks.now node.0)) nodes.now }
{
    for node in nodes {
        if marks.began_at(*node) {
            return true;
        }
    }
    false
}
