// Tests as rows write them, and their runs.
ghost use Rattle.std.specs.Prelude.{◌≡◌};
ghost use Rattle.py_plain.specs.Program.{program_of};

use py_frames::NoProbe;
use py_machine::Machine;
use py_parser::read_module;
use py_plain::End;
use py_syntax::{Item, Module, Stmt, StmtKind};
use py_tables::Tables;
use pyn_base::{BuiltClass, ClassId, Construct};
use std::alloc::Global;
use std::test::Fail;

/// How a line of a test ends.
#[derive(Clone, Copy)]
pub(crate) enum Ends {
    Normal,
    Raises(BuiltClass),
    Leaves(Construct),
    OutOfSteps,
    /// The machine had ended before.
    Over,
}

/// A module, the lines of a test, and how each line ends with how many steps.
pub(crate) type Row = (&'static str, &'static str, &'static [(Ends, u32)]);

/// The steps of a line that isn't asked for them.
pub(crate) const UNASKED: u32 = u32::MAX;

/// The steps that each line is given.
const GIVEN: u32 = 20000;

/// The most bytes that a module has.
const LONGEST_MODULE: usize = 262144;

pub(crate) fn read(alloc: Global, text: &str) -> Result<Module, Fail> {
    if text.len() > LONGEST_MODULE {
        return Err("a text of a row is too long")?;
    }
    match read_module(alloc, text.as_bytes()) {
        Ok(tree) => Ok(tree),
        Err(_) => Err("a text of a row isn't read")?,
    }
}

fn is_end(end: End, expected: Ends) -> bool {
    match (end, expected) {
        (End::Normal, Ends::Normal) => true,
        (End::Raised(_, ClassId::Built(a)), Ends::Raises(b)) => a == b,
        (End::Left(a), Ends::Leaves(b)) => a == b,
        (End::OutOfSteps, Ends::OutOfSteps) => true,
        (End::Ended(_), Ends::Over) => true,
        _ => false,
    }
}

fn run_line<'s>(machine: &mut Machine<'s, '_, NoProbe>, stmt: &'s Stmt) -> End {
    match &stmt.kind {
        StmtKind::Assert(_, _) => machine.run_assertion(stmt, GIVEN),
        _ => machine.run_statement(stmt, GIVEN),
    }
}

fn statement(item: &Item) -> Result<&Stmt, Fail> {
    match item {
        Item::Other(stmt) => Ok(stmt),
        _ => Err("a line of a test is no statement")?,
    }
}

/// Whether a line ends so, with so many steps.
fn holds<'s>(
    machine: &mut Machine<'s, '_, NoProbe>,
    stmt: &'s Stmt,
    expected: Option<&(Ends, u32)>,
) -> bool {
    let end = run_line(machine, stmt);
    match expected {
        Some((ends, cost)) => {
            is_end(end, *ends) && (*cost == UNASKED || machine.used() == *cost)
        }
        None => false,
    }
}

/// The first line of a test that ends otherwise, or costs something else.
fn first_wrong_line<'m>(
    alloc: Global,
    tree: &'m Module,
    tables: &Tables<'m>,
    lines: &[Item],
    expected: &[(Ends, u32)],
) -> Result<Option<usize>, Fail>
    requires { tables.now ≡ program_of tree.now }
{
    let mut machine = Machine::load(alloc, tree, tables, NoProbe)?;
    for (at, item) in lines.iter().enumerate() {
        if !holds(&mut machine, statement(item)?, expected.get(at)) {
            return Ok(Some(at));
        }
    }
    Ok(None)
}

fn first_wrong_in<'m>(
    alloc: Global,
    tree: &'m Module,
    test: &Module,
    expected: &[(Ends, u32)],
) -> Result<Option<usize>, Fail> {
    let tables: Tables<'m> = Tables::new(alloc, tree)?;
    first_wrong_line(alloc, tree, &tables, test.items.as_slice(), expected)
}

/// The first line of a row's test that doesn't hold.
fn first_wrong_of(alloc: Global, row: &Row) -> Result<Option<usize>, Fail> {
    let tree = read(alloc, row.0)?;
    let test = read(alloc, row.1)?;
    first_wrong_in(alloc, &tree, &test, row.2)
}

/// The first row that doesn't hold, and its line.
pub(crate) fn first_wrong(alloc: Global, rows: &[Row]) -> Result<Option<(usize, usize)>, Fail> {
    for (at, row) in rows.iter().enumerate() {
        if let Some(line) = first_wrong_of(alloc, row)? {
            return Ok(Some((at, line)));
        }
    }
    Ok(None)
}
