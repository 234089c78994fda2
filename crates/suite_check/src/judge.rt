// The suite that calls each function once.
ghost use Rattle.std.specs.Prelude.{◌≡◌, ◌+◌, ◌<◌, ◌^◌, ◌++◌, IfOk, OnOk, length, map};
ghost use Rattle.py_syntax.specs.Functions.{function_in, functions_in};
ghost use Rattle.pyn_model.specs.FirstModules.{IsFirst};
ghost use Rattle.pyn_model.specs.Judged.{judged};
ghost use Rattle.pyn_model.specs.Calls.{calls_suite};
ghost use Rattle.pyn_model.specs.CallsReport.{body_lines, covers_from, function_lines, passes};
ghost use Rattle.suite_check.specs.Items.{item_tests, item_lines, number_after};

use py_syntax::{Func, Item, Module, Stmt};
use pyn_base::{Memory, Name, TestId};
use pyn_model::{GoalKind, GoalLine, Report, TestLine};
use sqlite_items::Items;
use std::alloc::Global;

/// The steps that each statement of a test has.
pub const STEPS: u32 = 20_000;

// The statements of a body, as a test covers them.
fn cover_body(goals: &mut Items<GoalLine>, test: TestId, body: &[Stmt]) -> Result<(), Memory>
    ensures { OnOk result (goals.new ≡ goals.old ++ body_lines test.0 body.now) }
{
    for stmt in body {
        goals.push(GoalLine {
            kind: GoalKind::Reached,
            line: stmt.line,
            by: Some(test),
        })?;
    }
    Ok(())
}

// The entry of a function, and the statements of its body.
fn cover_function(goals: &mut Items<GoalLine>, test: TestId, function: &Func) -> Result<(), Memory>
    ensures { OnOk result (goals.new ≡ goals.old ++ function_lines test.0 function.now) }
{
    goals.push(GoalLine {
        kind: GoalKind::Entry,
        line: function.line,
        by: Some(test),
    })?;
    cover_body(goals, test, function.body.as_slice())?;
    Ok(())
}

// An item that is a function has a test, which passes and covers it. The number is that of the next test.
fn judge_item(
    tests: &mut Items<TestLine>,
    goals: &mut Items<GoalLine>,
    number: u32,
    item: &Item,
) -> Result<u32, Memory>
    requires { number + 1 < 2 ^ 32 }
    ensures tests { OnOk result (tests.new ≡ tests.old ++ item_tests (function_in item.now)) }
    ensures goals { OnOk result (goals.new ≡ goals.old ++ item_lines number (function_in item.now)) }
    ensures next { IfOk result (λ next. next ≡ number_after number (function_in item.now)) }
{
    let Some(function) = item.function() else {
        return Ok(number);
    };
    tests.push(TestLine::Passes)?;
    cover_function(goals, TestId(number), function)?;
    Ok(number + 1)
}

fn judge_items(
    tests: &mut Items<TestLine>,
    goals: &mut Items<GoalLine>,
    items: &[Item],
) -> Result<(), Memory>
    requires { length items.now < 2 ^ 31 }
    ensures tests { OnOk result (tests.new ≡ tests.old ++ passes (functions_in items.now)) }
    ensures goals { OnOk result (goals.new ≡ goals.old ++ covers_from 0 (functions_in items.now)) }
{
    let mut number = 0;
    for item in items {
        number = judge_item(tests, goals, number, item)?;
    }
    Ok(())
}

/// The report of the suite that calls each function of a module of the first form once, under this name of the module: with
/// `STEPS` steps for each statement, and without mutants.
pub fn judge_calls(alloc: Global, module: &Module, name: &Name) -> Result<Report, Memory>
    requires { IsFirst «module».now }
    ensures { IfOk result (λ report. report ≡ judged «module».now (calls_suite name.now «module».now) 20000 0) }
{
    let mut tests = Items::new(alloc);
    let mut goals = Items::new(alloc);
    judge_items(&mut tests, &mut goals, module.items.as_slice())?;
    Ok(Report {
        module: name.to_owned(alloc)?,
        steps: STEPS,
        cap: 0,
        tests,
        goals,
        minimal: true,
    })
}
