//! The trees of a suite's assertions.
//!
//! `assertion` makes the statement that `suite_model` spells an assertion as, which is run and printed like any other. `class_read` makes
//! what a class is named by in a test. The recursion goes down a display, which is no deeper than a display is written. Nodes have no numbers.
//!
//! It stands on `suite_model` and `py_tables`, and knows nothing of text or of running.
#![tactic(auto)]

mod assertions;
mod classes;
mod displays;
mod literals;

pub use assertions::assertion;
pub use classes::{bare_name, class_read};
pub use displays::display;
pub use literals::{expression, literal, module_read, variable_read};
