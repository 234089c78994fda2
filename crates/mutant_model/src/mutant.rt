// Mutants.

use py_syntax::{Line, Patch};
use pyn_base::NodeId;
use report_model::Operator;

/// A mutant of a module: the operator, the node that is rewritten, its line, and how.
#[derive(Clone, Copy, Debug, PartialEq, Eq)]
pub struct Mutant {
    pub op: Operator,
    pub node: NodeId,
    pub line: Line,
    pub patch: Patch,
}
