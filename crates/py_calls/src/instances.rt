// Instances before and without their `__init__` (Language Reference 3.2, "Custom classes").
ghost use Rattle.std.specs.Prelude.{◌≡◌, None, Some, true, IfOk};
ghost use Rattle.pyn_base.specs.declared.ids.FuncId.{FuncId as Number};
ghost use Rattle.py_syntax.specs.declared.stmt.Stmt.{Stmt as Statement};
ghost use Rattle.py_meaning.specs.declared.value.Value.{out-Value};
ghost use Rattle.py_meaning.specs.declared.value.Value.TheVariants.{Ref};
ghost use Rattle.py_meaning.specs.Worlds.{Attributes};
ghost use Rattle.py_plain.specs.Calls.{is_filled, initialized, initializes_base, calls_base, initializes, instantiates_by};
ghost use Rattle.py_plain.specs.Program.{Program};
ghost use Rattle.py_plain.specs.Runs.{Watcher, Run, Finding as Found, gives, go_on};
ghost use Rattle.py_effects.specs.NewExceptions.{new_exception};

use py_effects::{Finding, Outcome, give, make_exception, make_instance, raise};
use py_lookups::class_of_object;
use py_meaning::{PyTuple, Sequence, Value};
use py_objects::{Objects, shared_all};
use py_plain::{Abrupt, Judged, State};
use py_tables::Tables;
use pyn_base::{BuiltClass, ClassId, Construct, Memory, Name, ObjId};

fn is_filled<T>(xs: &[T]) -> bool
    ensures { result ≡ is_filled xs.now }
{
    !xs.is_empty()
}

/// A new exception with these arguments, and a reference to it.
fn refer_to_exception<W: Drop>(
    s: &mut State<Objects, W>,
    class: ClassId,
    args: Sequence<Value>,
) -> Result<Outcome<Finding>, Memory>
    ensures meant { IfOk result (λ end. new_exception class args (λ id. gives (Ref id)) s.old ≡ (end, s.new)) }
    ensures spends { s.new.left ≡ s.old.left }
{
    match make_exception(s, class, args)? {
        Ok(id) => Ok(Ok(give(s, Value::Ref(id)))),
        Err(why) => Ok(Err(why)),
    }
}

/// An instance of a class without `__init__`. An exception takes any plain arguments, and keeps them.
pub fn make_plain<W: Drop>(
    s: &mut State<Objects, W>,
    class: ClassId,
    exception: bool,
    plain: Sequence<Value>,
    named: &[(Name, Value)],
) -> Result<Outcome<Finding>, Memory>
    ensures meant { IfOk result (λ end. (watcher : Watcher W) (program : Program) (does : Statement → Run W Found) → instantiates_by watcher program does class exception None plain named.now s.old ≡ (end, s.new)) }
    ensures spends { s.new.left ≡ s.old.left }
{
    if exception {
        if !named.is_empty() {
            return Ok(Err(Abrupt::Left(Construct::KeywordArgument)));
        }
        let end = refer_to_exception(s, class, plain)?;
        Ok(end)
    } else {
        if is_filled(plain.as_slice()) || is_filled(named) {
            let end = raise(s, BuiltClass::TypeError)?;
            return Ok(end);
        }
        let id = make_instance(s, class)?;
        Ok(Ok(give(s, Value::Ref(id))))
    }
}

/// An instance whose `__init__` is called next, or how the call ends before.
pub fn make_for_init<W: Drop>(
    s: &mut State<Objects, W>,
    class: ClassId,
    exception: bool,
    plain: &[Value],
) -> Result<Outcome<ObjId>, Memory>
    ensures meant { IfOk result (λ end. (watcher : Watcher W) (program : Program) (does : Statement → Run W Found) (f : Number) (named : Attributes) → instantiates_by watcher program does class exception (Some f) plain.now named s.old ≡ go_on end s.new (λ id. initializes watcher program does id f plain.now named)) }
    ensures spends { s.new.left ≡ s.old.left }
{
    if exception {
        let args = Sequence::from_vec(shared_all(s.objects.alloc(), plain)?);
        let end = make_exception(s, class, args)?;
        Ok(end)
    } else {
        let id = make_instance(s, class)?;
        Ok(Ok(id))
    }
}

/// An exception keeps these arguments.
fn keep_args<W: Drop>(
    s: &mut State<Objects, W>,
    id: ObjId,
    plain: Sequence<Value>,
    named: &[(Name, Value)],
) -> Result<Outcome<Finding>, Memory>
    ensures meant { IfOk result (λ end. (watcher : Watcher W) (program : Program) → initializes_base watcher program id true plain named.now s.old ≡ (end, s.new)) }
    ensures spends { s.new.left ≡ s.old.left }
{
    if !named.is_empty() {
        return Ok(Err(Abrupt::Left(Construct::KeywordArgument)));
    }
    match PyTuple::new(s.objects.alloc(), plain.into_vec())? {
        None => Ok(Err(Abrupt::Left(Construct::TupleDepth))),
        Some(args) => {
            s.objects.set_args(id, args)?;
            Ok(Ok((Value::None, Judged::Plain(false))))
        }
    }
}

/// `super().__init__` that reaches a built-in class.
pub fn call_base<W: Drop>(
    s: &mut State<Objects, W>,
    tables: &Tables,
    id: ObjId,
    plain: Sequence<Value>,
    named: &[(Name, Value)],
) -> Result<Outcome<Finding>, Memory>
    ensures meant { IfOk result (λ end. (watcher : Watcher W) → calls_base watcher tables.now id plain named.now s.old ≡ (end, s.new)) }
    ensures spends { s.new.left ≡ s.old.left }
{
    if tables.is_exception(class_of_object(&s.objects, id)) {
        let end = keep_args(s, id, plain, named)?;
        return Ok(end);
    }
    if is_filled(plain.as_slice()) || is_filled(named) {
        let end = raise(s, BuiltClass::TypeError)?;
        return Ok(end);
    }
    Ok(Ok((Value::None, Judged::Plain(false))))
}

/// `__init__` must give None.
#[tactic(auto, using(py_meaning::specs::Folds::views))]
pub fn initialized<W: Drop>(
    s: &mut State<Objects, W>,
    id: ObjId,
    x: &Value,
) -> Result<Outcome<Finding>, Memory>
    ensures meant { IfOk result (λ end. initialized id (out-Value x.now) s.old ≡ (end, s.new)) }
    ensures spends { s.new.left ≡ s.old.left }
{
    match x {
        Value::None => Ok(Ok(give(s, Value::Ref(id)))),
        _ => raise(s, BuiltClass::TypeError),
    }
}
