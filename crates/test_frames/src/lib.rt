//! Laws of the frame that a test has: its own statements leave it a test's frame, whatever the functions that they call do in theirs.
//!
//! An assertion of a test changes nothing where it runs in a test's frame, in which `isinstance` is not bound (`py_plain`'s laws). So whoever runs a whole
//! test has to know that each state between its statements is such a one, and that is what stands here. Definitions and proofs alone: nothing runs.
//!
//! It builds on `py_plain`, and knows nothing of machines, of suites, or of how a test was written.
#![tactic(auto)]

mod laws;

pub use laws::laws_of_test_frames;
