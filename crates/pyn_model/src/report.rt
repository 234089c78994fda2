// Reports: what the run of a suite shows.

use py_syntax::Line;
use pyn_base::{Construct, Name, TestId};
use sqlite_items::Items;

/// What a goal asks for.
#[derive(Clone, Copy, Debug, PartialEq, Eq)]
pub enum GoalKind {
    /// That the function begins.
    Entry,
    /// That a statement on the line begins.
    Reached,
}

/// How a test ended.
#[derive(Clone, Copy, Debug, PartialEq, Eq)]
pub enum TestLine {
    Passes,
    /// The statement on this line ran out of steps.
    OutOfSteps(Line),
    /// The statement on this line left the subset of the language by this construct.
    Left(Line, Construct),
}

/// A goal, and the first test that takes it.
#[derive(Clone, Copy, Debug, PartialEq, Eq)]
pub struct GoalLine {
    pub kind: GoalKind,
    pub line: Line,
    pub by: Option<TestId>,
}

/// The report of a suite of a module.
#[derive(Drop)]
pub struct Report {
    pub module: Name,
    /// The steps that each statement has.
    pub steps: u32,
    /// The most mutants that are listed.
    pub cap: u32,
    pub tests: Items<TestLine>,
    pub goals: Items<GoalLine>,
    /// Whether no test can go without a goal that goes too.
    pub minimal: bool,
}
