// Tests, as they stand in a file.
ghost use Rattle.std.specs.Prelude.{◌≡◌, [], None, IfOk, OnOk};
ghost use Rattle.suite_file.specs.SuiteOf.{after_all, start, is_test_name, header_fault, fault_in_test, case_of};
ghost use Rattle.suite_reader.specs.Parts.{with_entry};

use crate::entries::read_stmt;
use crate::faults::{Fault, earlier, form_if};
use crate::lookups::Lookups;
use py_syntax::Line;
use pyn_base::{ClassId, Construct, Memory, Name, Text};
use sqlite_items::Items;
use std::alloc::Global;
use suite_file::{At, Entry, FileTest};
use suite_model::{Assert, Step, Test, TestCase};

/// What is read of a test.
#[derive(Drop)]
pub struct Parts {
    steps: Items<Step>,
    lines: Items<Line>,
    raises: Option<(Line, ClassId)>,
    asserts: Items<Assert>,
    fault: Option<Fault>,
}

impl Parts {
    /// Nothing, after a fault of the tests before.
    fn new(alloc: Global, fault: Option<Fault>) -> Parts
        ensures { result ≡ record { steps = []; lines = []; raises = None; asserts = []; fault = fault } }
    {
        Parts {
            steps: Items::new(alloc),
            lines: Items::new(alloc),
            raises: None,
            asserts: Items::new(alloc),
            fault,
        }
    }

    fn add(&mut self, entry: Entry) -> Result<(), Memory>
        ensures { OnOk result (self.new ≡ with_entry self.old entry) }
    {
        match entry {
            Entry::Does(line, step) => {
                self.steps.push(step)?;
                self.lines.push(line)?;
            }
            Entry::Raises(block, class, line, step) => {
                self.steps.push(step)?;
                self.lines.push(line)?;
                if self.raises.is_none() {
                    self.raises = Some((block, class));
                }
            }
            Entry::Asserts(assert) => self.asserts.push(assert)?,
            Entry::Faulty(line, construct) => {
                self.fault = earlier(self.fault, Some((line, construct)));
            }
        }
        Ok(())
    }
}

/// Whether a test has the name of its number.
#[tactic(auto, unfolding(std::specs::Prelude::chars))]
fn is_test_name(alloc: Global, number: u64, name: &Name) -> Result<bool, Memory>
    ensures { IfOk result (λ b. b ≡ is_test_name number name.now) }
{
    let mut wanted = Text::from_str(alloc, "test_case_")?;
    wanted.push_number(number)?;
    Ok(name.is_same(&Name::from_text(wanted)))
}

/// What is told of a test's header, where its last statement stands so.
fn header_fault(
    alloc: Global,
    number: u64,
    test: &FileTest,
    last: At,
) -> Result<Option<Fault>, Memory>
    requires { last ≡ after_all start test.now.body }
    ensures { IfOk result (λ fault. fault ≡ header_fault number test.now) }
{
    if !is_test_name(alloc, number, &test.name)? {
        return Ok(Some((test.line, Construct::TestName)));
    }
    Ok(form_if(!test.is_bare || last.steps == 0, test.line))
}

/// A test, and the earliest fault after it. Where there is one, the test is none.
pub fn read_test(
    alloc: Global,
    names: &Lookups,
    fault: Option<Fault>,
    number: u64,
    test: &FileTest,
) -> Result<(TestCase, Option<Fault>), Memory>
    ensures { IfOk result (λ r. r ≡ (case_of names.now test.now, fault_in_test names.now fault number test.now)) }
{
    let mut parts = Parts::new(alloc, fault);
    let mut at = At {
        steps: 0,
        bound: 0,
        closed: false,
    };
    for stmt in test.body.as_slice() {
        let (entry, next) = read_stmt(alloc, names, at, stmt)?;
        parts.add(entry)?;
        at = next;
    }
    let header = header_fault(alloc, number, test, at)?;
    let Parts {
        steps,
        lines,
        raises,
        asserts,
        fault,
    } = parts;
    let case = TestCase {
        line: test.line,
        test: Test { steps },
        lines,
        raises,
        asserts,
    };
    Ok((case, earlier(fault, header)))
}
