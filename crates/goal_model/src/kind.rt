// What a goal is about.

use pyn_base::{FuncId, NodeId};

/// What is to be reached.
#[derive(Clone, Copy, Debug, PartialEq, Eq)]
pub enum GoalKind {
    /// The function begins.
    Entry(FuncId),
    /// The decision at this node has this outcome. A decision's node is its test; of a `for` the statement; of a clause the clause.
    Branch(NodeId, bool),
    /// A statement begins on the line of this statement, which is the first on it.
    Reached(NodeId),
}
