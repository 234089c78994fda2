// What waited for a value goes on with it, by its kind.
ghost use Rattle.std.specs.Prelude.{◌≡◌, ◌+◌, IfOk};
ghost use Rattle.py_plain.specs.Runs.{watched_by};
ghost use Rattle.py_frames.specs.Loads.{pending_weight, weight, load, Sinks};
ghost use Rattle.py_frames.specs.Rest.{Goes, continues};

use py_effects::Finding;
use py_eval::{resume_decision, resume_operand, resume_store};
use py_eval_calls::resume_argument;
use py_exec::resume_step;
use py_frames::{Control, Doing, Pending, Probe};
use py_objects::Objects;
use py_plain::State;
use py_tables::Tables;
use pyn_base::Memory;

/// What waited for a value goes on with it.
pub(crate) fn resume_pending<'s, P: Probe>(
    s: &mut State<Objects, P>,
    stack: &mut Vec<Control<'s>>,
    tables: &'s Tables<'_>,
    pending: Pending<'s>,
    x: Finding,
) -> Result<Doing<'s>, Memory>
    ensures meant { let watcher = watched_by P.after_began P.after_judged in IfOk result (λ next. Goes watcher tables.now stack.old.items (continues watcher tables.now pending.entry x) s.old stack.new.items next s.new) }
    ensures falls { IfOk result (λ next. Sinks s.old.left s.new.left (weight stack.old.items + pending_weight pending.entry + 5) (load stack.new.items next)) }
{
    match pending {
        Pending::Operand(pending) => {
            let next = resume_operand(s, stack, tables, pending, x)?;
            Ok(next)
        }
        Pending::Decision(pending) => {
            let next = resume_decision(s, stack, pending, x)?;
            Ok(next)
        }
        Pending::Argument(pending) => {
            let next = resume_argument(s, stack, tables, pending, x)?;
            Ok(next)
        }
        Pending::Store(pending) => {
            let next = resume_store(s, stack, tables, pending, x)?;
            Ok(next)
        }
        Pending::Step(pending) => {
            let next = resume_step(s, stack, tables, pending, x)?;
            Ok(next)
        }
    }
}
