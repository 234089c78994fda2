// A test that a suite takes.

use pyn_base::{ClassId, Ids};
use suite_model::Test;

/// What is kept of a test, as a suite takes it.
#[derive(Drop)]
pub struct Chosen {
    /// The steps that are kept.
    pub test: Test,
    /// The class of the exception that the last of them raises, if it does.
    pub raises: Option<ClassId>,
    /// The goals that they take, by their numbers, in ascending order.
    pub gains: Ids,
}
