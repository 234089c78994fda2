// What the top of the stack does after an end.
ghost use Rattle.std.specs.Prelude.{◌≡◌, ◌+◌, IfOk};
ghost use Rattle.py_plain.specs.Runs.{watched_by};
ghost use Rattle.py_frames.specs.declared.control.Doing.TheVariants as d;
ghost use Rattle.py_frames.specs.Loads.{weight, weight_of, load, load_of, Sinks};
ghost use Rattle.py_frames.specs.Rest.{Goes, resumes};

use crate::pending::resume_pending;
use py_calls::leave;
use py_effects::{Finding, Outcome};
use py_exec::{after_body, end_clause, end_last, end_turn, end_walk_turn, start_last};
use py_frames::{Control, Doing, Probe};
use py_objects::Objects;
use py_plain::State;
use py_tables::Tables;
use pyn_base::Memory;

/// An entry goes on after the end of the part over it.
pub(crate) fn resume<'s, P: Probe>(
    s: &mut State<Objects, P>,
    stack: &mut Vec<Control<'s>>,
    tables: &'s Tables<'_>,
    entry: Control<'s>,
    end: Outcome<Finding>,
) -> Result<Doing<'s>, Memory>
    ensures meant { let watcher = watched_by P.after_began P.after_judged in IfOk result (λ next. Goes watcher tables.now stack.old.items (resumes watcher tables.now entry.entry end) s.old stack.new.items next s.new) }
    ensures falls { IfOk result (λ next. Sinks s.old.left s.new.left (weight stack.old.items + weight_of entry.entry + load_of (d.Finished end)) (load stack.new.items next)) }
{
    match entry {
        Control::Then(pending) => match end {
            Ok(x) => {
                let next = resume_pending(s, stack, tables, pending, x)?;
                Ok(next)
            }
            Err(why) => Ok(Doing::Finished(Err(why))),
        },
        Control::Leave(caller) => Ok(Doing::Finished(leave(s, caller, end))),
        Control::WhileBody(test, body) => {
            let next = end_turn::<P>(stack, test, body, end)?;
            Ok(next)
        }
        Control::ForBody(node, names, is_tuple, body, walk) => {
            let next = end_walk_turn(s, stack, node, names, is_tuple, body, walk, end)?;
            Ok(next)
        }
        Control::TryBody(clauses, other) => {
            let next = after_body(s, stack, tables, clauses, other, end)?;
            Ok(next)
        }
        Control::ClauseBody(name) => Ok(Doing::Finished(end_clause(s, name, end))),
        Control::TryLast(last) => {
            let next = start_last::<P>(stack, last, end)?;
            Ok(next)
        }
        Control::Keep(before) => Ok(Doing::Finished(end_last::<P>(before, end))),
    }
}
