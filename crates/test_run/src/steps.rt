// The statements of a test, one after another.
ghost use Rattle.std.specs.Prelude.{◌≡◌, None, IfOk};
ghost use Rattle.timed_marks.specs.Timed.{timer};
ghost use Rattle.test_run.specs.Watched.{Told, is_kept, kept_for, end_after};

use py_machine::Machine;
use py_plain::End;
use py_syntax::Stmt;
use pyn_base::Memory;
use std::alloc::Global;
use suite_model::TestEnd;
use timed_marks::TimedMarks;

/// The steps of each statement that is kept, how the test ends, and when the last kept one had ended.
#[derive(Drop)]
pub(crate) struct Steps {
    pub(crate) used: Vec<u32>,
    pub(crate) end: TestEnd,
    pub(crate) clock: u64,
}

/// How a test ends where a statement does, if it ends there.
fn end_after(end: End) -> Result<Option<TestEnd>, Memory>
    ensures { IfOk result (λ after. Some after ≡ end_after end) }
{
    match end {
        End::Normal => Ok(None),
        End::Raised(_, class) => Ok(Some(TestEnd::Raised(class))),
        End::OutOfSteps => Ok(Some(TestEnd::OutOfSteps)),
        End::Left(construct) => Ok(Some(TestEnd::Left(construct))),
        End::Memory => Err(Memory),
        End::Ended(_) => Err(Memory),
    }
}

/// Whether all statements of a test that ends so are kept, also the last.
fn is_kept(end: TestEnd) -> bool
    ensures { result ≡ is_kept end }
{
    match end {
        TestEnd::Ok => true,
        TestEnd::Raised(_) => true,
        TestEnd::OutOfSteps => false,
        TestEnd::Left(_) => false,
    }
}

/// Runs statements one after another, to the first that doesn't end normally. The machine keeps what was seen of all of them.
pub(crate) fn run_steps<'s>(
    alloc: Global,
    machine: &mut Machine<'s, '_, TimedMarks>,
    stmts: &'s [Stmt],
    limit: u32,
) -> Result<Steps, Memory>
    requires { machine.old.ended ≡ None }
    ensures { IfOk result (λ steps. Told (kept_for timer machine.old.tables.now limit stmts.now machine.old.state) steps.used.items steps.end steps.clock machine.new.state.seen) }
{
    let mut used = Vec::new(alloc);
    for stmt in stmts {
        let mut clock = machine.probe().clock();
        let end = machine.run_statement(stmt, limit);
        match end_after(end)? {
            None => used.push(machine.used())?,
            Some(end) => {
                if is_kept(end) {
                    used.push(machine.used())?;
                    clock = machine.probe().clock();
                }
                return Ok(Steps { used, end, clock });
            }
        }
    }
    Ok(Steps {
        used,
        end: TestEnd::Ok,
        clock: machine.probe().clock(),
    })
}
