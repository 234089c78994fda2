//! What is kept of a test passes where a suite runs it, on whatever lines it stands, with the trail that was kept.
//!
//! What is kept of a test is one definition, and the run of a suite's file another: the first keeps the steps that end normally, and the one that raises; the
//! second says of each test whether it passes, and in it a step that has to raise assigns nothing. Here they are joined. So whoever writes kept
//! tests into a file knows, without a run of that file, that each of them passes and which goals it takes.
//!
//! One thing is asked besides: where a test ends with an exception of the module's own, the module has that class. A file can't name it otherwise.
//!
//! It builds on `suite_runs` and `test_frames`, and has definitions and laws alone: no machine, no text of a file and no search is known here.
#![tactic(auto)]

mod laws;
mod recorded;

pub use laws::{laws_of_abrupt_ends, laws_of_cases, laws_of_files};
