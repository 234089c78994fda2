// Tests.
ghost use Rattle.std.specs.Prelude.{◌≡◌, ◌∷◌, [], ◌++◌, IfOk, OnOk};
ghost use Rattle.py_printer.specs.Lines.{lines_text};
ghost use Rattle.module_printer.specs.Pages.{onto};
ghost use Rattle.suite_text.specs.SuiteText.{case_lines, cases_lines, test_name, test_row};

use crate::steps::steps;
use module_printer::{Page, def, new_pen};
use py_tables::Tables;
use pyn_base::{Memory, Name, Text};
use std::alloc::Global;
use suite_model::TestCase;
use test_chromosome::to_syntax;

/// How many empty lines are before a test.
const BETWEEN_TESTS: usize = 2;

/// The name of a test.
#[tactic(auto, unfolding(std::specs::Prelude::chars))]
fn test_name(alloc: Global, number: u64) -> Result<Name, Memory>
    ensures { IfOk result (λ name. name ≡ test_name number) }
{
    let mut text = Text::from_str(alloc, "test_case_")?;
    text.push_number(number)?;
    Ok(Name::from_text(text))
}

/// Adds the header of a test.
fn test_line(alloc: Global, page: &mut Page, number: u64) -> Result<(), Memory>
    ensures { OnOk result (page.new ≡ onto page.old (test_row number ∷ [])) }
{
    let name = test_name(alloc, number)?;
    let mut pen = new_pen(alloc);
    def(alloc, &mut pen, &name, &[], &None)?;
    page.line(0, &pen.text)
}

/// Adds a test.
fn case(
    alloc: Global,
    page: &mut Page,
    tables: &Tables,
    number: u64,
    x: &TestCase,
) -> Result<(), Memory>
    ensures { OnOk result (page.new.text ≡ page.old.text ++ lines_text (case_lines tables.now number x.now)) }
{
    page.blanks = BETWEEN_TESTS;
    test_line(alloc, page, number)?;
    let stmts = to_syntax(alloc, tables, &x.test)?;
    let asserts = x.asserts.as_slice();
    steps(alloc, page, tables, &x.raises, asserts, stmts.as_slice())
}

/// Adds all tests.
pub fn cases(
    alloc: Global,
    page: &mut Page,
    tables: &Tables,
    all: &[TestCase],
) -> Result<(), Memory>
    ensures { OnOk result (page.new.text ≡ page.old.text ++ lines_text (cases_lines tables.now 0 all.now)) }
{
    let mut number = 0u64;
    for x in all {
        case(alloc, page, tables, number, x)?;
        number += 1;
    }
    Ok(())
}
