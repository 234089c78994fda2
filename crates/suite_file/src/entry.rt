// What a statement of a test gives, once its names are looked up.

use py_syntax::Line;
use pyn_base::{ClassId, Construct};
use suite_model::{Assert, Step};

/// Where a statement stands in its test.
#[derive(Clone, Copy, Debug, PartialEq, Eq)]
pub struct At {
    /// How many steps and blocks are before it.
    pub steps: u32,
    /// How many variables are bound.
    pub bound: u32,
    /// Whether the test's block is before it.
    pub closed: bool,
}

/// A step, a block, an assertion, or why there is none.
#[derive(Drop)]
pub enum Entry {
    /// A step, with its line.
    Does(Line, Step),
    /// The line of a `with`, its class, and the step in its block with that one's line.
    Raises(Line, ClassId, Line, Step),
    Asserts(Assert),
    /// What is told of a line.
    Faulty(Line, Construct),
}
