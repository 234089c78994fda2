// Rows of one test's run: what is kept, how it ends, and which goals it gains.
ghost use Rattle.std.specs.Prelude.{◌≡◌};
ghost use Rattle.goal_model.specs.Goals.{goals_of};
ghost use Rattle.py_plain.specs.Program.{program_of};

use crate::rows::{ALIASES_TEXT, PAST_THE_RANGE_TEXT, UNBOUND_TEXT};
use crate::runs::read;
use goal_graph::Goals;
use py_syntax::Module;
use py_tables::Tables;
use pyn_base::{BuiltClass, ClassId, Construct, FuncId, Ids, Memory, PyInt};
use sqlite_items::Items;
use std::alloc::Global;
use std::test::Fail;
use suite_model::{Primitive, Step, Test, TestEnd};
use test_run::{Ran, run_test};

/// The steps that each statement is given.
const GIVEN: u32 = 20000;

/// A number whose double is no integer of the subset.
const HALF_OF_TOO_MUCH: i128 = 85070591730234615865843651857942052864;

fn integer(n: i128) -> Result<Step, Fail> {
    match PyInt::new(n) {
        Some(n) => Ok(Step::Prim(Primitive::Int(n))),
        None => Err("an integer of a row is none")?,
    }
}

/// A call of the module's first function.
fn call(alloc: Global, args: &[u32]) -> Result<Step, Memory> {
    let mut ids = Ids::new(alloc);
    for arg in args {
        ids.push(*arg)?;
    }
    Ok(Step::Function(FuncId(0), ids))
}

fn ran<'m>(
    alloc: Global,
    tree: &'m Module,
    tables: &Tables<'m>,
    goals: &Goals,
    test: &Test,
) -> Result<Ran, Fail>
    requires tables { tables.now ≡ program_of tree.now }
    requires goals { goals.now ≡ goals_of tree.now }
{
    Ok(run_test(alloc, tree, tables, goals, test, GIVEN)?)
}

fn run_in(alloc: Global, tree: &Module, test: &Test) -> Result<Ran, Fail> {
    let tables = Tables::new(alloc, tree)?;
    let goals = Goals::of(alloc, tree)?;
    ran(alloc, tree, &tables, &goals, test)
}

fn run(alloc: Global, text: &str, steps: Items<Step>) -> Result<Ran, Fail> {
    let tree = read(alloc, text)?;
    run_in(alloc, &tree, &Test { steps })
}

#[test]
fn both_names_have_the_list(rt: HostRuntime) -> Result<(), Fail> {
    let alloc = rt.alloc();
    let mut steps = Items::new(alloc);
    steps.push(Step::ListOf(Ids::new(alloc)))?;
    steps.push(call(alloc, &[0, 0])?)?;
    let ran = run(alloc, ALIASES_TEXT, steps)?;
    assert_eq!(rt; ran.steps.as_slice(), &[2, 15][..]);
    assert_eq!(rt; ran.end, TestEnd::Ok);
    Ok(())
}

#[test]
fn what_leaves_the_subset_gains_nothing(rt: HostRuntime) -> Result<(), Fail> {
    let alloc = rt.alloc();
    let mut steps = Items::new(alloc);
    steps.push(integer(HALF_OF_TOO_MUCH)?)?;
    steps.push(integer(1)?)?;
    steps.push(call(alloc, &[1])?)?;
    steps.push(call(alloc, &[0])?)?;
    let ran = run(alloc, PAST_THE_RANGE_TEXT, steps)?;
    assert_eq!(rt; ran.steps.len(), 3);
    assert_eq!(rt; ran.end, TestEnd::Left(Construct::IntegerRange));
    assert_eq!(rt; ran.gains.as_slice(), &[0, 1, 2][..]);
    Ok(())
}

#[test]
fn the_step_that_raises_is_kept(rt: HostRuntime) -> Result<(), Fail> {
    let alloc = rt.alloc();
    let mut steps = Items::new(alloc);
    steps.push(integer(0)?)?;
    steps.push(call(alloc, &[0])?)?;
    let ran = run(alloc, UNBOUND_TEXT, steps)?;
    assert_eq!(rt; ran.steps.len(), 2);
    assert_eq!(rt;
        ran.end,
        TestEnd::Raised(ClassId::Built(BuiltClass::UnboundLocalError))
    );
    assert_eq!(rt; ran.gains.as_slice(), &[0, 1, 2, 3, 5, 6][..]);
    Ok(())
}
