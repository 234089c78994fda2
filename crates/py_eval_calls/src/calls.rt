// Calls, by what is called (Language Reference 6.3.4).
ghost use Rattle.std.specs.Prelude.{◌≡◌, ◌+◌, IfOk};
ghost use Rattle.py_meaning.specs.declared.value.Value.{out-Value};
ghost use Rattle.py_plain.specs.Calls.{calls, calls_value, calls_class, instantiates};
ghost use Rattle.py_plain.specs.Runs.{watched_by};
ghost use Rattle.py_plain.specs.Statements.{means};
ghost use Rattle.py_frames.specs.Loads.{weight, load, Sinks};
ghost use Rattle.py_frames.specs.Rest.{Goes};

use crate::functions::{call_bound, call_function, initialize};
use py_calls::{call_base, call_builtin, call_method, make_for_init, make_plain};
use py_effects::raise;
use py_frames::{Control, Doing, Probe};
use py_lookups::initializer;
use py_meaning::{Sequence, Value};
use py_objects::Objects;
use py_plain::{Callee, State};
use py_tables::{Tables, builtin_of_class};
use pyn_base::{BuiltClass, ClassId, Memory, Name};

/// A new instance of a class, whose `__init__` is called where there is one.
pub fn instantiate<'s, P: Probe>(
    s: &mut State<Objects, P>,
    stack: &mut Vec<Control<'s>>,
    tables: &'s Tables<'_>,
    class: ClassId,
    plain: Sequence<Value>,
    named: &[(Name, Value)],
) -> Result<Doing<'s>, Memory>
    ensures meant { let watcher = watched_by P.after_began P.after_judged in IfOk result (λ next. Goes watcher tables.now stack.old.items (instantiates watcher tables.now (means watcher tables.now) class plain named.now) s.old stack.new.items next s.new) }
    ensures falls { IfOk result (λ next. Sinks s.old.left s.new.left (weight stack.old.items + 7) (load stack.new.items next)) }
{
    let exception = tables.is_exception(class);
    match initializer(s.objects.alloc(), tables, class)? {
        None => {
            let end = make_plain(s, class, exception, plain, named)?;
            Ok(Doing::Finished(end))
        }
        Some(f) => match make_for_init(s, class, exception, plain.as_slice())? {
            Ok(id) => {
                let next = initialize(s, stack, tables, id, f, plain, named)?;
                Ok(next)
            }
            Err(why) => Ok(Doing::Finished(Err(why))),
        },
    }
}

/// A call of a class makes an instance, but for those of built-in types.
fn call_class<'s, P: Probe>(
    s: &mut State<Objects, P>,
    stack: &mut Vec<Control<'s>>,
    tables: &'s Tables<'_>,
    class: ClassId,
    plain: Sequence<Value>,
    named: &[(Name, Value)],
) -> Result<Doing<'s>, Memory>
    ensures meant { let watcher = watched_by P.after_began P.after_judged in IfOk result (λ next. Goes watcher tables.now stack.old.items (calls_class watcher tables.now (means watcher tables.now) class plain named.now) s.old stack.new.items next s.new) }
    ensures falls { IfOk result (λ next. Sinks s.old.left s.new.left (weight stack.old.items + 7) (load stack.new.items next)) }
{
    match class {
        ClassId::Built(built) => match builtin_of_class(built) {
            Some(id) => {
                let end = call_builtin(s, tables, id, plain.as_slice(), named)?;
                Ok(Doing::Finished(end))
            }
            None => {
                let next = instantiate(s, stack, tables, ClassId::Built(built), plain, named)?;
                Ok(next)
            }
        },
        ClassId::Own(number) => {
            let next = instantiate(s, stack, tables, ClassId::Own(number), plain, named)?;
            Ok(next)
        }
    }
}

/// A call of a value: a function or a class of the module, or a built-in class.
#[tactic(auto, using(py_meaning::specs::Folds::views))]
fn call_value<'s, P: Probe>(
    s: &mut State<Objects, P>,
    stack: &mut Vec<Control<'s>>,
    tables: &'s Tables<'_>,
    f: &Value,
    plain: Sequence<Value>,
    named: &[(Name, Value)],
) -> Result<Doing<'s>, Memory>
    ensures meant { let watcher = watched_by P.after_began P.after_judged in IfOk result (λ next. Goes watcher tables.now stack.old.items (calls_value watcher tables.now (means watcher tables.now) (out-Value f.now) plain named.now) s.old stack.new.items next s.new) }
    ensures falls { IfOk result (λ next. Sinks s.old.left s.new.left (weight stack.old.items + 7) (load stack.new.items next)) }
{
    match f {
        Value::Func(f) => {
            let next = call_function(s, stack, tables, *f, plain.as_slice(), named)?;
            Ok(next)
        }
        Value::Class(class) => {
            let next = call_class(s, stack, tables, *class, plain, named)?;
            Ok(next)
        }
        _ => {
            let end = raise(s, BuiltClass::TypeError)?;
            Ok(Doing::Finished(end))
        }
    }
}

/// A call, once all its arguments are there.
pub(crate) fn call<'s, P: Probe>(
    s: &mut State<Objects, P>,
    stack: &mut Vec<Control<'s>>,
    tables: &'s Tables<'_>,
    f: Callee,
    plain: Sequence<Value>,
    named: &[(Name, Value)],
) -> Result<Doing<'s>, Memory>
    ensures meant { let watcher = watched_by P.after_began P.after_judged in IfOk result (λ next. Goes watcher tables.now stack.old.items (calls watcher tables.now (means watcher tables.now) f plain named.now) s.old stack.new.items next s.new) }
    ensures falls { IfOk result (λ next. Sinks s.old.left s.new.left (weight stack.old.items + 7) (load stack.new.items next)) }
{
    match f {
        Callee::Value(x) => {
            let next = call_value(s, stack, tables, &x, plain, named)?;
            Ok(next)
        }
        Callee::Function(f) => {
            let next = call_function(s, stack, tables, f, plain.as_slice(), named)?;
            Ok(next)
        }
        Callee::Bound(id, f) => {
            let next = call_bound(s, stack, tables, id, f, plain, named)?;
            Ok(next)
        }
        Callee::Method(receiver, name) => {
            let end = call_method(s, &receiver, &name, plain.as_slice(), named)?;
            Ok(Doing::Finished(end))
        }
        Callee::Builtin(id) => {
            let end = call_builtin(s, tables, id, plain.as_slice(), named)?;
            Ok(Doing::Finished(end))
        }
        Callee::BaseInit(id) => {
            let end = call_base(s, tables, id, plain, named)?;
            Ok(Doing::Finished(end))
        }
    }
}
