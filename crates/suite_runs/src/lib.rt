//! What the run of a suite file is, and what it shows: how each test ends, the goals that it takes, what each mutant does to it, and
//! whether anything of it could go.
//!
//! Each test begins in the state after import, and each of its statements and assertions has its own steps. A test passes, fails at a line
//! for a reason, or stops at a line where the run ends in no outcome of its own; only a failing test kills a mutant. `FileRun` runs,
//! `Verdicts` says what becomes of a mutant, `Minimal` leaves each test and each assertion out in turn, and `Judged` is the report of it all,
//! by which `Checked` judges a suite and a report that anyone may have written. Definitions alone, by the plain meaning of programs: no machine runs here.
//!
//! It builds on `suite_model`, `mutant_model` and `report_model`.
#![tactic(auto)]

mod answer;
mod examples;

pub use answer::Answer;
pub use examples::{
    answers_by_example, minimal_by_example, reports_by_example, verdicts_by_example,
};
