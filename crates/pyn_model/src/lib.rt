//! What a suite, its run and its report are: the definitions of test generation.
//!
//! The words of this crate are what a reader must believe of the program's output: the goals of a module and
//! what takes them, tests and the text of a suite (written and read), the run of a suite file by the plain meaning of
//! the language, when a suite is minimal, and the report of a suite. The plain data types that they speak
//! of stand here too. They cover what the program reads so far: modules of functions without parameters that
//! return one literal, and tests that call them; what running means for these alone is here too.
//!
//! It stands on `py_language` and `py_meaning`, and knows nothing of desks, of words or of how a suite is found.
#![tactic(auto)]

mod examples;
mod report;
mod test;

pub use examples::suites_by_example;
pub use report::{GoalKind, GoalLine, Report, TestLine};
pub use test::{Step, Suite, Test, TestCase};
