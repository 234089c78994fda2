// The tests that gain something new.
ghost use Rattle.std.specs.Prelude.{◌≡◌, ◌&&◌, [], map, IfOk};
ghost use Rattle.std.specs.List.{flat_map};
ghost use Rattle.py_plain.specs.Program.{program_of};
ghost use Rattle.goal_model.specs.Goals.{goals_of};
ghost use Rattle.case_laws.specs.Cases.{can_name, class_raised};
ghost use Rattle.chosen_tests.specs.Chosen.{can_be_written, chosen_as, chosen_from, gaining, gains, gains_kept};
ghost use Rattle.chosen_tests.specs.Counting.{Counted, lacks};

use crate::chosen::Chosen;
use crate::copies::copy_first;
use crate::counts::Counts;
use goal_graph::Goals;
use py_syntax::Module;
use py_tables::Tables;
use pyn_base::{ClassId, Memory};
use sqlite_items::Items;
use std::alloc::Global;
use suite_model::{Test, TestEnd};
use test_run::{Ran, run_test};

/// Tests, and how often each goal is gained by them.
#[derive(Drop)]
pub(crate) struct Gaining {
    pub(crate) tests: Items<Chosen>,
    pub(crate) counts: Counts,
}

/// The class of the exception that ends a test, if one does.
fn class_raised(end: TestEnd) -> Option<ClassId>
    ensures { result ≡ class_raised end }
{
    match end {
        TestEnd::Raised(class) => Some(class),
        _ => None,
    }
}

/// Whether a class is there to be named, if one has to be.
fn can_name(tables: &Tables, class: Option<ClassId>) -> bool
    ensures { result ≡ can_name tables.now class }
{
    match class {
        Some(ClassId::Own(number)) => (number as usize) < tables.classes().len(),
        _ => true,
    }
}

/// Whether a test can be written, and gains a goal that was never met.
fn is_wanted(tables: &Tables, counts: &Counts, ran: &Ran) -> bool
    ensures { result ≡ (can_name tables.now (class_raised ran.now.end) && lacks counts.now ran.now.gains) }
{
    can_name(tables, class_raised(ran.end)) && counts.lacks(ran.gains.as_slice())
}

/// What is kept of a test.
fn as_chosen(alloc: Global, test: &Test, ran: Ran) -> Result<Chosen, Memory>
    ensures { IfOk result (λ chosen. chosen ≡ chosen_from test.now ran.steps.items ran.end ran.gains) }
{
    let steps = copy_first(alloc, test.steps.as_slice(), ran.steps.len())?;
    Ok(Chosen {
        test: Test { steps },
        raises: class_raised(ran.end),
        gains: ran.gains,
    })
}

/// The tests that gain a goal which none before them gains, of those that can be written.
pub(crate) fn gaining_tests<'m>(
    alloc: Global,
    tree: &'m Module,
    tables: &Tables<'m>,
    goals: &Goals,
    tests: &[Test],
    limit: u32,
) -> Result<Gaining, Memory>
    requires tables { tables.now ≡ program_of tree.now }
    requires goals { goals.now ≡ goals_of tree.now }
    ensures tests { IfOk result (λ found. found.tests ≡ map (chosen_as tree.now limit) (gaining (gains tree.now limit) (can_be_written tree.now limit) [] tests.now)) }
    ensures counted { IfOk result (λ found. Counted found.counts (flat_map gains_kept found.tests)) }
{
    let mut all = Items::new(alloc);
    let mut counts = Counts::new(alloc);
    for test in tests {
        let ran = run_test(alloc, tree, tables, goals, test, limit)?;
        if is_wanted(tables, &counts, &ran) {
            counts.add(ran.gains.as_slice())?;
            all.push(as_chosen(alloc, test, ran)?)?;
        }
    }
    Ok(Gaining { tests: all, counts })
}
