// What the lines of tests, goals and mutants say.

use crate::{Cause, Operator, ShownReason, Verdict};
use py_syntax::Line;
use pyn_base::TestId;

/// How a test of the suite ends.
#[derive(Drop)]
pub enum TestLine {
    Passes,
    /// The line of the suite at which it fails, and why.
    Fails(Line, ShownReason),
    /// The line of the suite at which it stops, and why.
    Stopped(Line, Cause),
}

/// What a goal asks for, as a report shows it.
#[derive(Clone, Copy, Debug, PartialEq, Eq)]
pub enum ShownKind {
    /// That a function begins.
    Entry,
    /// That a decision comes out true.
    True,
    /// That a decision comes out false.
    False,
    /// That a statement on the line begins.
    Reached,
}

/// A goal of the module: its line there, and the first test that takes it.
#[derive(Clone, Copy, Debug, PartialEq, Eq)]
pub struct GoalLine {
    pub kind: ShownKind,
    pub line: Line,
    pub by: Option<TestId>,
}

/// A mutant of the module: its line there, and what the suite makes of it.
#[derive(Drop)]
pub struct MutantLine {
    pub op: Operator,
    pub line: Line,
    pub verdict: Verdict,
}
