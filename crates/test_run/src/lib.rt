//! One run of a test: how many of its statements are kept, what they cost, how the test ends, and which goals are gained.
//!
//! A test is run by the frame machine, with marks that tell which nodes began and which outcomes came. What is kept is the longest prefix whose
//! statements all end normally, with the one that raises where that ends it. A statement that runs out of steps, or leaves the subset, has left
//! its marks too; each mark has the time at which it was first set, so those of the kept statements are told from them, and nothing is run twice.
//!
//! This layer must never know how a test was drawn, or what another test gained.
#![tactic(auto)]

mod gains;
mod kept;
mod laws;
mod ran;
mod recorded;
mod steps;

pub use kept::run_test;
pub use ran::Ran;
