// What is said of a module whose first function is called again and again.
ghost use Rattle.std.specs.Prelude.{◌≡◌, None, IfOk};
ghost use Rattle.py_plain.specs.Program.{program_of};
ghost use Rattle.pyn_bench.specs.Runs.{calls, calls_of_first, one_call, calls_text, ran_text, run_report};

use crate::modules::{LONGEST_MODULE, refused_text};
use py_frames::NoProbe;
use py_machine::Machine;
use py_parser::read_module;
use py_plain::End;
use py_syntax::{Module, Refusal, Stmt};
use py_tables::Tables;
use pyn_base::{Construct, FuncId, Ids, Memory, Text};
use sqlite_items::Items;
use std::alloc::Global;
use suite_model::{Step, Test};
use test_chromosome::to_syntax;

/// The steps that each call is given: the most that there can be.
const GIVEN: u32 = 4294967295;

/// How many calls ended, and the steps that they took.
#[derive(Drop)]
struct Made {
    ended: u32,
    steps: u64,
}

/// Runs a statement so many times, and stops where it ends neither normally nor by an exception.
fn calls<'s>(
    machine: &mut Machine<'s, '_, NoProbe>,
    stmt: &'s Stmt,
    times: u32,
) -> Result<Made, Memory>
    requires { machine.old.ended ≡ None }
    ensures { IfOk result (λ made. made ≡ calls machine.old.tables.now stmt.now times machine.old.state) }
{
    let mut made = Made { ended: 0, steps: 0 };
    let mut left = times;
    while left > 0 {
        match machine.run_statement(stmt, GIVEN) {
            End::Normal | End::Raised(_, _) => {
                made.ended += 1;
                made.steps += u64::from(machine.used());
            }
            End::Memory => return Err(Memory),
            End::OutOfSteps | End::Left(_) | End::Ended(_) => return Ok(made),
        }
        left -= 1;
    }
    Ok(made)
}

fn calls_text(alloc: Global, made: Made) -> Result<Text, Memory>
    ensures { IfOk result (λ t. t ≡ calls_text made) }
{
    let mut text = Text::new(alloc);
    text.push_ascii(b"calls ")?;
    text.push_number(u64::from(made.ended))?;
    text.push_ascii(b"\nsteps ")?;
    text.push_number(made.steps)?;
    text.push_ascii(b"\n")?;
    Ok(text)
}

/// A test that calls the module's first function.
fn one_call(alloc: Global) -> Result<Test, Memory>
    ensures { IfOk result (λ test. test ≡ one_call) }
{
    let mut steps = Items::new(alloc);
    steps.push(Step::Function(FuncId(0), Ids::new(alloc)))?;
    Ok(Test { steps })
}

/// Runs the first of statements so many times, in a module that was just imported.
fn calls_of_first<'m>(
    alloc: Global,
    tree: &'m Module,
    tables: &Tables<'m>,
    stmts: &[Stmt],
    times: u32,
) -> Result<Made, Memory>
    requires { tables.now ≡ program_of tree.now }
    ensures { IfOk result (λ made. made ≡ calls_of_first tables.now times stmts.now) }
{
    let mut machine = Machine::load(alloc, tree, tables, NoProbe)?;
    match stmts.first() {
        Some(stmt) => calls(&mut machine, stmt, times),
        None => Ok(Made { ended: 0, steps: 0 }),
    }
}

fn ran_text(alloc: Global, times: u32, tree: &Module) -> Result<Text, Memory>
    ensures { IfOk result (λ t. t ≡ ran_text times tree.now) }
{
    let tables = Tables::new(alloc, tree)?;
    let stmts = to_syntax(alloc, &tables, &one_call(alloc)?)?;
    let made = calls_of_first(alloc, tree, &tables, stmts.as_slice(), times)?;
    calls_text(alloc, made)
}

/// What is said of a text that is read as a module, whose first function is called so many times.
pub fn run_report(alloc: Global, times: u32, text: &[u8]) -> Result<Text, Memory>
    ensures { IfOk result (λ t. t ≡ run_report times text.now) }
{
    if text.len() > LONGEST_MODULE {
        return refused_text(alloc, 1, Construct::TooLong);
    }
    match read_module(alloc, text) {
        Ok(tree) => ran_text(alloc, times, &tree),
        Err(Refusal::Refused { line, construct }) => refused_text(alloc, line, construct),
        Err(Refusal::Memory) => Err(Memory),
    }
}
