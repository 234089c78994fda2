// Suites.
ghost use Rattle.std.specs.Prelude.{◌≡◌, IfOk};
ghost use Rattle.suite_text.specs.SuiteText.{suite_text};

use crate::cases::cases;
use crate::imports::imports;
use module_printer::Page;
use py_tables::Tables;
use pyn_base::{Memory, Text};
use std::alloc::Global;
use suite_model::Suite;

/// The text of a suite as a pytest file, or out of memory. The tables are those of the module under test: functions and classes are
/// written by the names that they have there. The lines that the suite gives for its steps play no part.
pub fn write_suite(alloc: Global, tables: &Tables, suite: &Suite) -> Result<Text, Memory>
    ensures { IfOk result (λ text. text ≡ suite_text tables.now suite.now) }
{
    let mut page = Page::new(alloc);
    imports(alloc, &mut page, &suite.module)?;
    cases(alloc, &mut page, tables, suite.cases.as_slice())?;
    Ok(page.text)
}
