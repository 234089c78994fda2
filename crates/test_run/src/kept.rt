// What of a test is kept, and what it gains.
ghost use Rattle.std.specs.Prelude.{◌≡◌, ◌≤◌, ℕ, List, [], IfOk};
ghost use Rattle.goal_graph.specs.Graph.{nodes_of};
ghost use Rattle.goal_model.specs.Goals.{goals_of};
ghost use Rattle.py_plain.specs.Import.{imported};
ghost use Rattle.py_plain.specs.Program.{program_of};
ghost use Rattle.suite_model.specs.Kept.{kept_from, kept_of, gains_of};
ghost use Rattle.line_laws.specs.Laws.{IsReadFrom};
ghost use Rattle.goal_laws.specs.Laws.{HasParents};
ghost use Rattle.test_run.specs.Laws.{LeavesKept};

use crate::gains::gains_of;
use crate::laws::{law_of_gains, law_of_runs};
use crate::ran::Ran;
use crate::steps::{Steps, run_steps};
use goal_graph::Goals;
use goal_laws::laws_of_taken_goals;
use py_frames::{Chains, Marks};
use py_machine::Machine;
use py_syntax::{Module, Stmt};
use py_tables::Tables;
use pyn_base::Memory;
use std::alloc::Global;
use suite_model::Test;
use test_chromosome::to_syntax;
use timed_marks::TimedMarks;

/// A run of statements, and the marks of what is kept of it.
#[derive(Drop)]
struct Marked {
    steps: Steps,
    marks: Marks,
}

/// Runs statements in a module that was just imported, with marks for so many nodes. No clock counts 2^64 events: no run is that long.
fn run_kept<'m>(
    alloc: Global,
    tree: &'m Module,
    tables: &Tables<'m>,
    nodes: u32,
    stmts: &[Stmt],
    limit: u32,
) -> Result<Marked, Memory>
    requires { tables.now ≡ program_of tree.now }
    ensures { IfOk result (λ run. LeavesKept nodes (kept_from tables.now limit stmts.now (imported tables.now [])) run.steps.used.items run.steps.end run.marks) }
{
    law_of_runs();
    let mut machine = Machine::load(alloc, tree, tables, TimedMarks::new(alloc, nodes)?)?;
    let steps = run_steps(alloc, &mut machine, stmts, limit)?;
    if steps.clock == u64::MAX {
        return Err(Memory);
    }
    let marks = machine.into_probe().before(alloc, steps.clock)?;
    Ok(Marked { steps, marks })
}

/// Runs a test of a module, whose tables and goals these are, with so many steps for each statement. Of a module that was read, each goal that is
/// gained has its parent among the gains, unless it has none.
pub fn run_test<'m>(
    alloc: Global,
    tree: &'m Module,
    tables: &Tables<'m>,
    goals: &Goals,
    test: &Test,
    limit: u32,
) -> Result<Ran, Memory>
    requires tables { tables.now ≡ program_of tree.now }
    requires goals { goals.now ≡ goals_of tree.now }
    ensures steps { IfOk result (λ ran. ran.steps.items ≡ (kept_of tree.now limit test.now).used) }
    ensures end { IfOk result (λ ran. ran.end ≡ (kept_of tree.now limit test.now).end) }
    ensures gains { IfOk result (λ ran. ran.gains ≡ gains_of tree.now (kept_of tree.now limit test.now)) }
    ensures parents { (text : List ℕ) → IsReadFrom text tree.now → IfOk result (λ ran. HasParents (goals_of tree.now) ran.gains) }
{
    laws_of_taken_goals();
    law_of_gains();
    let stmts = to_syntax(alloc, tables, test)?;
    let Marked { steps, marks } = run_kept(
        alloc,
        tree,
        tables,
        goals.nodes(),
        stmts.as_slice(),
        limit,
    )?;
    let gains = gains_of(alloc, goals, &marks)?;
    Ok(Ran {
        steps: steps.used,
        end: steps.end,
        gains,
    })
}
