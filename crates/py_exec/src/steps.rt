// Statements whose part has its value (Language Reference, chapters 7 and 8).
ghost use Rattle.std.specs.Prelude.{◌≡◌, ◌+◌, IfOk};
ghost use Rattle.py_plain.specs.Runs.{watched_by};
ghost use Rattle.py_frames.specs.declared.pending.Pending.TheVariants as p;
ghost use Rattle.py_frames.specs.Loads.{pending_weight, weight, load, Sinks};
ghost use Rattle.py_frames.specs.Rest.{Goes, after_step};

use crate::blocks::{decided, next_branch, passed};
use crate::raises::{raise_value, start_failure};
use crate::walks::start_walk;
use py_effects::{Finding, fail, raise_object};
use py_frames::{Control, Doing, Probe, Step, Tail, laws_of_frames};
use py_meaning::Sequence;
use py_objects::Objects;
use py_plain::{Abrupt, State};
use py_tables::Tables;
use pyn_base::Memory;

/// A statement goes on with the value of the part that was evaluated.
pub fn resume_step<'s, P: Probe>(
    s: &mut State<Objects, P>,
    stack: &mut Vec<Control<'s>>,
    tables: &'s Tables<'_>,
    pending: Step<'s>,
    x: Finding,
) -> Result<Doing<'s>, Memory>
    ensures meant { let watcher = watched_by P.after_began P.after_judged in IfOk result (λ next. Goes watcher tables.now stack.old.items (after_step watcher tables.now pending.entry x) s.old stack.new.items next s.new) }
    ensures falls { IfOk result (λ next. Sinks s.old.left s.new.left (weight stack.old.items + pending_weight (p.Step pending.entry) + 5) (load stack.new.items next)) }
{
    match pending {
        Step::Bare => Ok(passed()),
        Step::Return => Ok(Doing::Finished(Err(Abrupt::Returned(x.0)))),
        Step::Raise => {
            let next = raise_value(s, stack, tables, &x.0)?;
            Ok(next)
        }
        Step::RaiseMade => {
            let end = raise_object(s, &x.0)?;
            Ok(Doing::Finished(end))
        }
        Step::Block(more) => Ok(Doing::Block(more)),
        Step::If(node, body, more, other) => {
            if decided(s, node, &x) {
                Ok(Doing::Block(Tail::all(body)))
            } else {
                let next = next_branch::<P>(stack, more, other)?;
                Ok(next)
            }
        }
        Step::While(test, body) => {
            if decided(s, test.node, &x) {
                laws_of_frames::<P>();
                stack.push(Control::WhileBody(test, body))?;
                Ok(Doing::Block(Tail::all(body)))
            } else {
                Ok(passed())
            }
        }
        Step::For(node, names, is_tuple, body) => {
            let next = start_walk(s, stack, node, names, is_tuple, body, x.0)?;
            Ok(next)
        }
        Step::Assert(node, message) => {
            if decided(s, node, &x) {
                Ok(passed())
            } else {
                let next = start_failure(s, stack, message)?;
                Ok(next)
            }
        }
        Step::Message => {
            let mut args = Sequence::new(s.objects.alloc());
            args.push(x.0)?;
            let end = fail(s, args)?;
            Ok(Doing::Finished(end))
        }
    }
}
