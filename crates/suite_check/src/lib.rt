//! The report of a suite.
//!
//! `judge_calls` gives the report of the suite that calls each function of a module of the first form once: exactly
//! the one that the definition makes of the run of that suite by the plain meaning of the language. No run is made for it:
//! its contract is the proof that none is needed. Out of memory is the only other answer. The layer knows nothing
//! of text or files.
//!
//! It stands on `pyn_model`, whose words its contract cites.
#![tactic(auto)]

mod judge;

pub use judge::{STEPS, judge_calls};
