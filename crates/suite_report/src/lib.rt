//! Reports as text, both ways.
//!
//! `read_report` gives exactly the report that the definition reads in a text, or refuses exactly the line that it refuses: the first with
//! which no report's text goes on. `write_report` gives exactly the defined text of a report. Out of memory is the only other answer of
//! either. A text is read once, from its front to its end. Whether a report is true is not asked here, and the totals that are read are not
//! counted: who judges a report does that. The layer knows nothing of how a report comes about, of files or of modules.
//!
//! It stands on `report_model`, whose definitions its contracts cite.
#![tactic(auto)]

mod cursor;
mod fault;
mod fields;
mod goal_lines;
mod head_lines;
mod mutant_lines;
mod read;
mod reasons;
mod refusal;
mod series;
mod steps;
mod tables;
mod test_lines;
mod write;
mod write_lines;

pub use read::read_report;
pub use refusal::ReportRefusal;
pub use report_model::{
    Cause, GoalLine, MutantLine, Operator, Report, ShownKind, ShownReason, TestLine, Verdict,
};
pub use write::write_report;
