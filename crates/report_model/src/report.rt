// Reports: what the run of a suite shows.

use crate::{GoalLine, MutantLine, TestLine};
use pyn_base::Name;
use sqlite_items::Items;

/// The report of a suite of a module.
#[derive(Drop)]
pub struct Report {
    pub module: Name,
    /// The steps that each statement has.
    pub steps: u32,
    /// The most mutants that are listed.
    pub cap: u32,
    pub tests: Items<TestLine>,
    pub goals: Items<GoalLine>,
    pub mutants: Items<MutantLine>,
    /// Whether each test and each assertion is needed for some goal or kill.
    pub minimal: bool,
}
