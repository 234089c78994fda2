// Suites: tests with their assertions, as they stand in a file.

use crate::{Primitive, Test};
use py_syntax::Line;
use pyn_base::{ClassId, Name};
use sqlite_items::Items;

/// A display: a literal, or a list, tuple or dict of displays.
#[derive(Drop)]
pub enum Shown {
    Prim(Primitive),
    List(Items<Shown>),
    Tuple(Items<Shown>),
    /// Each key with its value.
    Dict(Items<(Shown, Shown)>),
}

/// What an assertion is about: a variable, or an attribute of one.
#[derive(Drop)]
pub enum Subject {
    Whole(u32),
    Attr(u32, Name),
}

/// What an assertion asks of its subject.
#[derive(Drop)]
pub enum Wants {
    /// `is`, with None or a truth value
    Is(Primitive),
    /// `==`
    Equals(Shown),
    /// `isinstance`
    Kind(ClassId),
}

#[derive(Drop)]
pub struct Assert {
    /// The step after which it stands.
    pub after: u32,
    pub line: Line,
    pub subject: Subject,
    pub wants: Wants,
}

/// A test as it stands in a file.
#[derive(Drop)]
pub struct TestCase {
    /// The line of its `def`.
    pub line: Line,
    pub test: Test,
    /// The line of each step.
    pub lines: Items<Line>,
    /// Where the last step has to raise: the line of its `with`, and the class.
    pub raises: Option<(Line, ClassId)>,
    pub asserts: Items<Assert>,
}

/// A pytest file: tests of one module.
#[derive(Drop)]
pub struct Suite {
    /// The module under test.
    pub module: Name,
    pub cases: Items<TestCase>,
}
