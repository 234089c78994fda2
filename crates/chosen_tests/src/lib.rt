//! Which tests of a list a suite is made of: each gains a goal that no other one of them gains, and no goal is lost that a test of the list gains.
//!
//! Each test is run once. Those that gain nothing new are let go at once; then, from the last to the first, those whose goals the others
//! gain as well. How often each goal is gained is counted, so that the time is linear in the runs and the gains.
//!
//! This layer must never know how the tests were found, or on which lines they will be written.
#![tactic(auto)]

mod choice;
mod chosen;
mod copies;
mod counts;
mod examples;
mod gaining;
mod staying;

pub use choice::choose;
pub use chosen::Chosen;
pub use examples::chosen_by_example;
