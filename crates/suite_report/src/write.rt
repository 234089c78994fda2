// The whole text.
ghost use Rattle.std.specs.Prelude.{◌≡◌, ◌++◌, ◌∷◌, [], length, IfOk, OnOk, codes, count_by, is_some, decimal};
ghost use Rattle.report_model.specs.declared.lines.GoalLine.{GoalLine};
ghost use Rattle.report_model.specs.declared.lines.MutantLine.{MutantLine};
ghost use Rattle.report_model.specs.Lines.{minimal_line};
ghost use Rattle.report_model.specs.ReportText.{numbered, text_of_lines, is_killed, report_text, totals_of, end_lines};
ghost use Rattle.suite_report.specs.Heads.{head_text};

use crate::write_lines::Written;
use pyn_base::{Memory, Text};
use report_model::{GoalLine, MutantLine, Report, Verdict};
use std::alloc::Global;

fn write_head(text: &mut Text, report: &Report) -> Result<(), Memory>
    ensures { OnOk result (text.new ≡ text.old ++ head_text report.now) }
{
    text.push_ascii(b"pynguin report 1\nmodule ")?;
    text.push_name(&report.module)?;
    text.push_ascii(b"\nsteps ")?;
    text.push_number(u64::from(report.steps))?;
    text.push_ascii(b"\nmutants ")?;
    text.push_number(u64::from(report.cap))?;
    text.push_ascii(b"\n")?;
    Ok(())
}

fn write_series<T: Written>(text: &mut Text, items: &[T]) -> Result<(), Memory>
    ensures { OnOk result (text.new ≡ text.old ++ text_of_lines (numbered T.line 0 items.now)) }
{
    for (number, item) in items.iter().enumerate() {
        item.write(text, number as u64)?;
    }
    Ok(())
}

// How many goals a test takes.
fn covered(goals: &[GoalLine]) -> usize
    ensures { result ≡ count_by (λ (goal : GoalLine). is_some goal.by) goals.now }
{
    goals.iter().filter(|goal| goal.by.is_some()).count()
}

fn is_killed(verdict: &Verdict) -> bool
    ensures { result ≡ is_killed verdict.now }
{
    match verdict {
        Verdict::Killed(_, _, _) => true,
        Verdict::Survived => false,
        Verdict::Undecided(_) => false,
    }
}

// How many mutants are killed.
fn killed(mutants: &[MutantLine]) -> usize
    ensures { result ≡ count_by (λ (mutant : MutantLine). is_killed mutant.verdict) mutants.now }
{
    mutants
        .iter()
        .filter(|mutant| is_killed(&mutant.verdict))
        .count()
}

fn write_total(text: &mut Text, some: usize, all: usize) -> Result<(), Memory>
    ensures { OnOk result (text.new ≡ text.old ++ (decimal some ++ (codes " of " ++ (decimal all ++ 10 ∷ [])))) }
{
    text.push_number(some as u64)?;
    text.push_ascii(b" of ")?;
    text.push_number(all as u64)?;
    text.push_ascii(b"\n")?;
    Ok(())
}

fn write_minimal(text: &mut Text, minimal: bool) -> Result<(), Memory>
    ensures { OnOk result (text.new ≡ text.old ++ (minimal_line minimal ++ 10 ∷ [])) }
{
    if minimal {
        text.push_ascii(b"minimal yes\n")?;
    } else {
        text.push_ascii(b"minimal no\n")?;
    }
    Ok(())
}

fn write_end(text: &mut Text, report: &Report) -> Result<(), Memory>
    ensures { OnOk result (text.new ≡ text.old ++ text_of_lines (end_lines (totals_of report.now) report.now.minimal)) }
{
    let goals = report.goals.as_slice();
    let mutants = report.mutants.as_slice();
    text.push_ascii(b"goals ")?;
    write_total(text, covered(goals), goals.len())?;
    text.push_ascii(b"kills ")?;
    write_total(text, killed(mutants), mutants.len())?;
    write_minimal(text, report.minimal)?;
    Ok(())
}

/// The text of a report, line by line: the head, a line for each test, goal and mutant, and the totals.
pub fn write_report(alloc: Global, report: &Report) -> Result<Text, Memory>
    ensures { IfOk result (λ text. text ≡ report_text report.now) }
{
    let mut text = Text::new(alloc);
    write_head(&mut text, report)?;
    write_series(&mut text, report.tests.as_slice())?;
    write_series(&mut text, report.goals.as_slice())?;
    write_series(&mut text, report.mutants.as_slice())?;
    write_end(&mut text, report)?;
    Ok(text)
}
