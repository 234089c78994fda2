// The whole text.
ghost use Rattle.std.specs.Prelude.{◌≡◌, ◌++◌, length, IfOk, OnOk, codes, decimal};
ghost use Rattle.pyn_model.specs.Report.{covered_count, head_text, tests_text, goals_text, yes_or_no, totals_text, report_text};

use crate::lines::{write_goal, write_test};
use pyn_base::{Memory, Text};
use pyn_model::{GoalLine, Report, TestLine};
use std::alloc::Global;

fn write_title(text: &mut Text, report: &Report) -> Result<(), Memory>
    ensures { OnOk result (text.new ≡ text.old ++ (codes "pynguin report 1\nmodule " ++ report.now.module ++ codes "\nsteps " ++ decimal report.now.steps)) }
{
    text.push_ascii(b"pynguin report 1\nmodule ")?;
    text.push_name(&report.module)?;
    text.push_ascii(b"\nsteps ")?;
    text.push_number(report.steps as u64)?;
    Ok(())
}

fn write_head(text: &mut Text, report: &Report) -> Result<(), Memory>
    ensures { OnOk result (text.new ≡ text.old ++ head_text report.now) }
{
    write_title(text, report)?;
    text.push_ascii(b"\nmutants ")?;
    text.push_number(report.cap as u64)?;
    text.push_ascii(b"\n")?;
    Ok(())
}

fn write_tests(text: &mut Text, tests: &[TestLine]) -> Result<(), Memory>
    ensures { OnOk result (text.new ≡ text.old ++ tests_text 0 tests.now) }
{
    for (number, test) in tests.iter().enumerate() {
        write_test(text, number as u64, *test)?;
    }
    Ok(())
}

fn write_goals(text: &mut Text, goals: &[GoalLine]) -> Result<(), Memory>
    ensures { OnOk result (text.new ≡ text.old ++ goals_text 0 goals.now) }
{
    for (number, goal) in goals.iter().enumerate() {
        write_goal(text, number as u64, *goal)?;
    }
    Ok(())
}

// How many goals a test takes.
fn covered(goals: &[GoalLine]) -> usize
    ensures { result ≡ covered_count goals.now }
{
    goals.iter().filter(|goal| goal.by.is_some()).count()
}

fn write_answer(text: &mut Text, answer: bool) -> Result<(), Memory>
    ensures { OnOk result (text.new ≡ text.old ++ yes_or_no answer) }
{
    if answer {
        text.push_ascii(b"yes")?;
    } else {
        text.push_ascii(b"no")?;
    }
    Ok(())
}

fn write_totals(text: &mut Text, report: &Report) -> Result<(), Memory>
    ensures { OnOk result (text.new ≡ text.old ++ totals_text report.now) }
{
    let goals = report.goals.as_slice();
    text.push_ascii(b"goals ")?;
    text.push_number(covered(goals) as u64)?;
    text.push_ascii(b" of ")?;
    text.push_number(goals.len() as u64)?;
    text.push_ascii(b"\nkills 0 of 0\nminimal ")?;
    write_answer(text, report.minimal)?;
    text.push_ascii(b"\n")?;
    Ok(())
}

/// The text of a report, line by line: the head, a line a test, a line a goal, and the totals.
pub fn write_report(alloc: Global, report: &Report) -> Result<Text, Memory>
    ensures { IfOk result (λ text. text ≡ report_text report.now) }
{
    let mut text = Text::new(alloc);
    write_head(&mut text, report)?;
    write_tests(&mut text, report.tests.as_slice())?;
    write_goals(&mut text, report.goals.as_slice())?;
    write_totals(&mut text, report)?;
    Ok(text)
}
