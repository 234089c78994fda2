// `raise` and `assert` (Language Reference 7.3 and 7.8).
ghost use Rattle.std.specs.Prelude.{◌≡◌, ◌+◌, ◌≤◌, IfOk};
ghost use Rattle.py_meaning.specs.declared.value.Value.{out-Value};
ghost use Rattle.py_meaning.specs.Operations.{kind_of};
ghost use Rattle.py_meaning.specs.Worlds.{object_at};
ghost use Rattle.py_plain.specs.Exceptions.{raise as raise_of, fails_with, raises_class, raises_instance, raises_value};
ghost use Rattle.py_plain.specs.Runs.{Watcher, watched_by};
ghost use Rattle.py_plain.specs.Statements.{value_of, means};
ghost use Rattle.py_frames.specs.Loads.{weight, load, Sinks};
ghost use Rattle.py_frames.specs.Rest.{Goes};
ghost use Rattle.py_eval.specs.Transitions.{Continues};

use py_effects::{Finding, Outcome, fail, raise, reraise};
use py_eval_calls::instantiate;
use py_frames::{Control, Doing, Pending, Probe, Step, laws_of_frames};
use py_meaning::{Sequence, Value};
use py_objects::{ObjKind, Objects};
use py_plain::{Abrupt, State};
use py_syntax::Expr;
use py_tables::Tables;
use pyn_base::{BuiltClass, ClassId, Memory, ObjId};

/// An exception class is called without arguments.
fn raise_class<'s, P: Probe>(
    s: &mut State<Objects, P>,
    stack: &mut Vec<Control<'s>>,
    tables: &'s Tables<'_>,
    class: ClassId,
) -> Result<Doing<'s>, Memory>
    ensures meant { let watcher = watched_by P.after_began P.after_judged in IfOk result (λ next. Goes watcher tables.now stack.old.items (raises_class watcher tables.now (value_of watcher tables.now) (means watcher tables.now) class) s.old stack.new.items next s.new) }
    ensures falls { IfOk result (λ next. Sinks s.old.left s.new.left (weight stack.old.items + 8) (load stack.new.items next)) }
{
    laws_of_frames::<P>();
    if tables.is_exception(class) {
        let none = Sequence::new(s.objects.alloc());
        stack.push(Control::Then(Pending::Step(Step::RaiseMade)))?;
        let next = instantiate(s, stack, tables, class, none, &[])?;
        Ok(next)
    } else {
        let end = raise(s, BuiltClass::TypeError)?;
        Ok(Doing::Finished(end))
    }
}

/// An instance of an exception class is raised.
fn raise_instance<W: Drop>(
    s: &mut State<Objects, W>,
    tables: &Tables,
    id: ObjId,
) -> Result<Outcome<Finding>, Memory>
    ensures meant { IfOk result (λ end. (watcher : Watcher W) → raises_instance watcher tables.now (value_of watcher tables.now) (means watcher tables.now) id (kind_of (object_at s.old.objects id)) s.old ≡ (end, s.new)) }
    ensures spends { s.new.left ≡ s.old.left }
{
    match s.objects.kind(id) {
        ObjKind::Instance(class) => {
            if tables.is_exception(class) {
                Ok(Err(Abrupt::Raised(id)))
            } else {
                raise(s, BuiltClass::TypeError)
            }
        }
        ObjKind::List => raise(s, BuiltClass::TypeError),
        ObjKind::Dict => raise(s, BuiltClass::TypeError),
    }
}

/// A value is raised: an exception class or an instance of one.
#[tactic(auto, using(py_meaning::specs::Folds::views))]
pub(crate) fn raise_value<'s, P: Probe>(
    s: &mut State<Objects, P>,
    stack: &mut Vec<Control<'s>>,
    tables: &'s Tables<'_>,
    x: &Value,
) -> Result<Doing<'s>, Memory>
    ensures meant { let watcher = watched_by P.after_began P.after_judged in IfOk result (λ next. Goes watcher tables.now stack.old.items (raises_value watcher tables.now (value_of watcher tables.now) (means watcher tables.now) (out-Value x.now)) s.old stack.new.items next s.new) }
    ensures falls { IfOk result (λ next. Sinks s.old.left s.new.left (weight stack.old.items + 8) (load stack.new.items next)) }
{
    match x {
        Value::Class(class) => {
            let next = raise_class(s, stack, tables, *class)?;
            Ok(next)
        }
        Value::Ref(id) => {
            let end = raise_instance(s, tables, *id)?;
            Ok(Doing::Finished(end))
        }
        _ => {
            let end = raise(s, BuiltClass::TypeError)?;
            Ok(Doing::Finished(end))
        }
    }
}

/// `raise`, alone or with an expression, which comes first.
pub(crate) fn start_raise<'s, W: Drop>(
    s: &State<Objects, W>,
    stack: &mut Vec<Control<'s>>,
    e: &'s Option<Expr>,
) -> Result<Doing<'s>, Memory>
    ensures { IfOk result (λ next. Continues (λ watcher program. raise_of watcher program (value_of watcher program) (means watcher program) e.now) stack.old.items s.now stack.new.items next s.now) }
{
    laws_of_frames::<W>();
    match e {
        None => Ok(Doing::Finished(reraise(s))),
        Some(e) => {
            stack.push(Control::Then(Pending::Step(Step::Raise)))?;
            Ok(Doing::Eval(e))
        }
    }
}

/// An assertion fails, and its message comes first if it has one.
pub(crate) fn start_failure<'s, W: Drop>(
    s: &mut State<Objects, W>,
    stack: &mut Vec<Control<'s>>,
    message: &'s Option<Expr>,
) -> Result<Doing<'s>, Memory>
    ensures meant { IfOk result (λ next. Continues (λ watcher program. fails_with watcher program (value_of watcher program) (means watcher program) message.now) stack.old.items s.old stack.new.items next s.new) }
    ensures falls { IfOk result (λ next. Sinks s.old.left s.new.left (weight stack.old.items + 6) (load stack.new.items next)) }
{
    laws_of_frames::<W>();
    match message {
        None => {
            let none = Sequence::new(s.objects.alloc());
            let end = fail(s, none)?;
            Ok(Doing::Finished(end))
        }
        Some(e) => {
            stack.push(Control::Then(Pending::Step(Step::Message)))?;
            Ok(Doing::Eval(e))
        }
    }
}
