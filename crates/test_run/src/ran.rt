// What a run of a test tells.
use pyn_base::Ids;
use suite_model::TestEnd;

/// What of a test is kept, and what that gains.
#[derive(Drop)]
pub struct Ran {
    /// The steps of each statement that is kept, in order.
    pub steps: Vec<u32>,
    /// How the whole test ends.
    pub end: TestEnd,
    /// The goals that the kept statements take, by their numbers, in ascending order.
    pub gains: Ids,
}
