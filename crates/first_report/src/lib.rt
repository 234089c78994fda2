//! The text of a report.
//!
//! A report is a list of lines: the head (the module, the steps of a statement, the most mutants), one line a test, one a
//! goal, and the totals. `write_report` gives exactly the text that the definition of a report's text says; out of
//! memory is its only other answer. The layer knows nothing of how a report comes about, of files or of modules.
//!
//! It stands on `pyn_model`, whose words its contract cites.
#![tactic(auto)]

mod lines;
mod write;

pub use pyn_model::{GoalKind, GoalLine, Report, TestLine};
pub use write::write_report;
