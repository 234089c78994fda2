//! Writes suites as pytest files.
//!
//! `write_suite` gives exactly the text of `suite_text`, in one walk over the suite. A test's steps and assertions are made into statements
//! and added to the page of `module_printer` one by one, so that a suite is laid out as any module is. Assertions are taken from the front of
//! their list, since they come in the order of the steps that they are after.
//!
//! It stands on `suite_text`, `suite_syntax`, `test_chromosome` and `module_printer`, and knows nothing of files or of running.
#![tactic(auto)]

mod cases;
mod imports;
mod raises;
mod steps;
mod suites;

pub use suites::write_suite;
