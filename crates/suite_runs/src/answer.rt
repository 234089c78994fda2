// What a check says.

use py_syntax::Line;

/// What a check says of a suite and of a report that go with a module.
#[derive(Clone, Copy, Debug, PartialEq, Eq)]
pub enum Answer {
    /// Every test passes, and the report is the suite's.
    Yes,
    /// The line of the suite at which the first test that doesn't pass fails or stops.
    NoSuite(Line),
    /// The first line of the report that isn't that of the suite's report; the first is 1.
    NoReport(Line),
}
