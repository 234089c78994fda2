// The suite that a file is.
ghost use Rattle.std.specs.Prelude.{◌≡◌, None, IfOk, map};
ghost use Rattle.py_syntax.specs.Gives.{Gives};
ghost use Rattle.suite_file.specs.SuiteOf.{earliest, form_at, case_of, fault_in_tests, suite_of};

use crate::cases::read_test;
use crate::faults::{Fault, earlier};
use crate::lookups::Lookups;
use py_syntax::{Line, Refusal};
use py_tables::Tables;
use pyn_base::{Construct, Memory};
use sqlite_items::Items;
use std::alloc::Global;
use suite_file::{FileTest, SuiteFile};
use suite_model::{Suite, TestCase};

/// What is told of the lines that are neither imports nor tests.
fn fault_of_strays(strays: &[Line]) -> Option<Fault>
    ensures { result ≡ earliest None (map form_at strays.now) }
{
    let mut fault = None;
    for line in strays {
        fault = earlier(fault, Some((*line, Construct::Form)));
    }
    fault
}

/// The tests of a file, and the earliest fault after them.
fn read_tests(
    alloc: Global,
    names: &Lookups,
    fault: Option<Fault>,
    tests: &[FileTest],
) -> Result<(Items<TestCase>, Option<Fault>), Memory>
    ensures { IfOk result (λ r. r ≡ (map (case_of names.now) tests.now, fault_in_tests names.now fault 0 tests.now)) }
{
    let mut cases = Items::new(alloc);
    let mut fault = fault;
    let mut number = 0u64;
    for test in tests {
        let (case, found) = read_test(alloc, names, fault, number, test)?;
        cases.push(case)?;
        fault = found;
        number += 1;
    }
    Ok((cases, fault))
}

/// The suite that a file is, by a module's tables, exactly as it is defined. `Memory` where there is no room.
///
/// A file without its two imports is refused with `header`, at line 1. Of all other faults the one on the least line is told, and of those on
/// one line the first of these:
///
/// - `test name`: a test's name isn't that of its number, from `test_case_0` on.
/// - `form`: a line is no step, block or assertion; a step's number isn't the next; another step or block follows a block; a block has a second
///   statement; a test has no step, or a parameter or annotation; or there is something else than tests.
/// - `unknown name`: a variable isn't bound, the module has no such function or class, or a class that should be raised is no exception.
///
/// It goes through the file once, and finds each name in logarithmic time.
pub fn as_suite(alloc: Global, tables: &Tables, file: &SuiteFile) -> Result<Suite, Refusal>
    ensures { Gives result (suite_of tables.now file.now) }
{
    if file.module.is("") {
        return Err(Refusal::Refused {
            line: 1,
            construct: Construct::Header,
        });
    }
    let names = Lookups::new(alloc, tables)?;
    let strays = fault_of_strays(file.strays.as_slice());
    let (cases, fault) = read_tests(alloc, &names, strays, file.tests.as_slice())?;
    match fault {
        None => Ok(Suite {
            module: file.module.to_owned(alloc)?,
            cases,
        }),
        Some((line, construct)) => Err(Refusal::Refused { line, construct }),
    }
}
