//! The text of a suite, which is a pytest file.
//!
//! `write_calls` gives the text of the suite that has one test for each function of a module, in order, which calls it
//! without arguments. The text is exactly the one that the definition of a suite's text gives for that suite; want of
//! memory is the only other answer. The layer knows nothing of running, of goals or of files.
//!
//! It stands on `pyn_model`, whose words its contract cites.
#![tactic(auto)]

mod write;

pub use write::write_calls;
