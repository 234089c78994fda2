//! The report of a suite as text, both ways: the definitions.
//!
//! A report has a line for each test, each goal and each mutant, after a head and before its totals. `specs/Lines` has one equation for
//! each kind of line, and `specs/ReportText` puts the lines together. `specs/Fields` and `specs/LineForms` read a line, field by field, and
//! `specs/ReportRead` reads a text line by line: up to the first line with which no report's text goes on. What a report says is not
//! judged here, and its totals are read without being counted. Each form is stated by its own words, apart from the other direction; that they
//! agree is a law. Definitions alone: no code writes or reads here, and this layer knows nothing of how a report comes about.
//!
//! It stands on `pyn_base` and `py_syntax`.
#![tactic(auto)]

mod examples;
mod laws;
mod lines;
mod mutant;
mod reason;
mod report;

pub use examples::{read_by_example, refused_by_example, written_by_example};
pub use laws::{law_of_refusals, laws_of_reports};
pub use lines::{GoalLine, MutantLine, ShownKind, TestLine};
pub use mutant::{Operator, Verdict};
pub use reason::{Cause, ShownReason};
pub use report::Report;
