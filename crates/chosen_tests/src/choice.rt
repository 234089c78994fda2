// The tests that a suite is made of.
ghost use Rattle.std.specs.Prelude.{◌≡◌, map, IfOk};
ghost use Rattle.py_plain.specs.Program.{program_of};
ghost use Rattle.goal_model.specs.Goals.{goals_of};
ghost use Rattle.chosen_tests.specs.Chosen.{chosen, chosen_as};

use crate::chosen::Chosen;
use crate::gaining::gaining_tests;
use crate::staying::staying_tests;
use goal_graph::Goals;
use py_syntax::Module;
use py_tables::Tables;
use pyn_base::Memory;
use sqlite_items::Items;
use std::alloc::Global;
use suite_model::Test;

/// Which of some tests a suite of a module is made of, whose tables and goals these are, and what is kept of each; with so many steps for
/// each statement.
#[tactic(auto, using(crate::proofs::OfTests::tests_chosen))]
pub fn choose<'m>(
    alloc: Global,
    tree: &'m Module,
    tables: &Tables<'m>,
    goals: &Goals,
    tests: &[Test],
    limit: u32,
) -> Result<Items<Chosen>, Memory>
    requires tables { tables.now ≡ program_of tree.now }
    requires goals { goals.now ≡ goals_of tree.now }
    ensures { IfOk result (λ all. all ≡ map (chosen_as tree.now limit) (chosen tree.now limit tests.now)) }
{
    let found = gaining_tests(alloc, tree, tables, goals, tests, limit)?;
    staying_tests(alloc, found)
}
