//! The suite that a file is, as it was read.
//!
//! `as_suite` reads a file's tree by the forms of `suite_file`, and looks up each name in a module's tables. It goes through the file once, and
//! keeps the earliest fault of what it has read. The recursion goes down a display, which is no deeper than it is written.
//!
//! It stands on `suite_file` and `py_tables`, and knows nothing of text, of writing or of running.
#![tactic(auto)]

mod assertions;
mod cases;
mod classes;
mod counts;
mod displays;
mod entries;
mod faults;
mod literals;
mod lookups;
mod rights;
mod statements;
mod suites;
mod variables;

pub use suites::as_suite;
