// The points of a body.

use crate::GoalKind;
use py_syntax::Line;
use pyn_base::NodeId;

/// Where a run may come by in a body: a node, its line, and the goal that governs it.
#[derive(Clone, Copy, Debug, PartialEq, Eq)]
pub enum Point {
    /// A statement begins.
    Statement(NodeId, Line, GoalKind),
    /// A decision has an outcome.
    Decision(NodeId, Line, GoalKind),
}
