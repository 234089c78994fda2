//! One test for each class, method and function that a module lets a test call.
//!
//! Each value is supplied by steps of its own: zero, the empty text, False, None, an empty list or dict, or an instance by its class's
//! constructor, whose parameters are supplied one level deeper; at depth 3 an instance is None. The call ends the test, and a test of more
//! than 20 steps is left out. Definitions alone: no test is made here yet.
//!
//! This layer must never know how a test is run, kept or chosen.
#![tactic(auto)]

mod examples;

pub use examples::tests_by_example;
