// Lines that are numbered in order: tests, goals and mutants.
ghost use Rattle.std.specs.Prelude.{ℕ, List, Option, IfOk};
ghost use Rattle.report_model.specs.LineForms.{test_of, goal_of, mutant_of};
ghost use Rattle.suite_report.specs.Gives.{Gives};
ghost use Rattle.suite_report.specs.Places.{HasRoom, IsNextItem, IsSeries};

use crate::cursor::{Cursor, next_line};
use crate::fault::Fault;
use crate::goal_lines::goal_of;
use crate::mutant_lines::mutant_of;
use crate::test_lines::test_of;
use pyn_base::Memory;
use report_model::{GoalLine, MutantLine, TestLine};
use sqlite_items::Items;
use std::alloc::Global;

/// What a line says that has a number.
pub trait Numbered: Drop {
    /// What the line of this number says.
    ghost form: { ℕ → List ℕ → Option Self };

    /// What the line of this number says.
    fn read(alloc: Global, number: usize, line: &[u8]) -> Result<Self, Fault>
        ensures { Gives (λ x. x) result (form number line.now) };
}

impl Numbered for TestLine {
    ghost form = { test_of };

    fn read(alloc: Global, number: usize, line: &[u8]) -> Result<Self, Fault> {
        test_of(alloc, number, line)
    }
}

impl Numbered for GoalLine {
    ghost form = { goal_of };

    fn read(_: Global, number: usize, line: &[u8]) -> Result<Self, Fault> {
        goal_of(number, line)
    }
}

impl Numbered for MutantLine {
    ghost form = { mutant_of };

    fn read(alloc: Global, number: usize, line: &[u8]) -> Result<Self, Fault> {
        mutant_of(alloc, number, line)
    }
}

// The next of a series, unless the next line is of another form.
fn next_item<T: Numbered>(
    alloc: Global,
    number: usize,
    at: Cursor,
) -> Result<Option<(T, Cursor)>, Memory>
    requires { HasRoom at }
    ensures { IfOk result (IsNextItem T.form number at.entry) }
{
    let Some((line, after)) = next_line(at) else {
        return Ok(None);
    };
    match T::read(alloc, number, line) {
        Ok(item) => Ok(Some((item, after))),
        Err(Fault::Form) => Ok(None),
        Err(Fault::Memory) => Err(Memory),
    }
}

/// As many lines of a series as there are, numbered from 0, and the place after them.
pub fn series<T: Numbered>(alloc: Global, start: Cursor) -> Result<(Items<T>, Cursor), Memory>
    requires { HasRoom start }
    ensures { IfOk result (λ x. IsSeries T.form start.entry x.0 x.1) }
{
    let mut items = Items::new(alloc);
    let mut at = start;
    while let Some((item, after)) = next_item(alloc, items.len(), at)? {
        items.push(item)?;
        at = after;
    }
    Ok((items, at))
}
