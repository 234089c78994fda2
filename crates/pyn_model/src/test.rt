// Tests and suites.

use py_syntax::Line;
use pyn_base::{FuncId, Ids, Name};
use sqlite_items::Items;

/// A step of a test. Step `k` defines variable `k`, and names earlier variables alone.
#[derive(Drop)]
pub enum Step {
    /// A call of a function of the module, with the variables that are its arguments.
    Function(FuncId, Ids),
}

#[derive(Drop)]
pub struct Test {
    pub steps: Items<Step>,
}

/// A test as it stands in a suite file.
#[derive(Drop)]
pub struct TestCase {
    /// The line of its `def`.
    pub line: Line,
    pub test: Test,
    /// The line of each step.
    pub lines: Items<Line>,
}

/// A pytest file: tests of one module.
#[derive(Drop)]
pub struct Suite {
    /// The module under test.
    pub module: Name,
    pub cases: Items<TestCase>,
}
