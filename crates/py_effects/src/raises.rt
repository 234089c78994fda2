// Exceptions (Language Reference 7.3 and 7.8).
ghost use Rattle.std.specs.Prelude.{◌≡◌, None, Ok, IfOk};
ghost use Rattle.pyn_base.specs.declared.class.BuiltClass.TheVariants.{AssertionError};
ghost use Rattle.pyn_base.specs.declared.class.ClassId.TheVariants.{Built};
ghost use Rattle.py_meaning.specs.declared.value.Value.{out-Value};
ghost use Rattle.pyn_base.specs.declared.ids.ObjId.{ObjId};
ghost use Rattle.py_plain.specs.declared.run.Abrupt.TheVariants.{Raised};
ghost use Rattle.py_plain.specs.Calls.{makes_instance};
ghost use Rattle.py_plain.specs.Exceptions.{raises_object, reraises, last_of};
ghost use Rattle.py_plain.specs.Runs.{Run, Finding as Found, raises, go_on, stop};
ghost use Rattle.py_effects.specs.NewExceptions.{new_exception};

use crate::{Finding, Outcome};
use py_meaning::{PyTuple, Sequence, Value};
use py_objects::Objects;
use py_plain::{Abrupt, State};
use pyn_base::{BuiltClass, ClassId, Construct, Memory, ObjId};

/// An exception that the interpreter raises is a new object.
pub fn raise<W: Drop, T: Drop>(
    s: &mut State<Objects, W>,
    class: BuiltClass,
) -> Result<Outcome<T>, Memory>
    ensures meant { IfOk result (λ end. raises class s.old ≡ (end, s.new)) }
    ensures spends { s.new.left ≡ s.old.left }
{
    let id = s.objects.make_instance(ClassId::Built(class), None)?;
    Ok(Err(Abrupt::Raised(id)))
}

/// An object is raised, and anything else is a TypeError.
#[tactic(auto, using(py_meaning::specs::Folds::views))]
pub fn raise_object<W: Drop>(
    s: &mut State<Objects, W>,
    x: &Value,
) -> Result<Outcome<Finding>, Memory>
    ensures meant { IfOk result (λ end. raises_object (out-Value x.now) s.old ≡ (end, s.new)) }
    ensures spends { s.new.left ≡ s.old.left }
{
    match x {
        Value::Ref(id) => Ok(Err(Abrupt::Raised(*id))),
        _ => raise(s, BuiltClass::TypeError),
    }
}

/// The exception that is being handled is raised again.
pub fn reraise<W: Drop>(s: &State<Objects, W>) -> Outcome<Finding>
    ensures { reraises s.now ≡ (result, s.now) }
{
    match last(s.frame.handled.as_slice()) {
        Some(id) => Err(Abrupt::Raised(id)),
        None => Err(Abrupt::Left(Construct::BareRaise)),
    }
}

fn last(ids: &[ObjId]) -> Option<ObjId>
    ensures { result ≡ last_of ids.now }
{
    ids.last().copied()
}

/// An exception with these arguments, which it keeps, or the end of a run whose arguments would be too deep a tuple.
pub fn make_exception<W: Drop>(
    s: &mut State<Objects, W>,
    class: ClassId,
    args: Sequence<Value>,
) -> Result<Outcome<ObjId>, Memory>
    ensures meant { IfOk result (λ end. (next : ObjId → Run W Found) → new_exception class args next s.old ≡ go_on end s.new next) }
    ensures spends { s.new.left ≡ s.old.left }
{
    match PyTuple::new(s.objects.alloc(), args.into_vec())? {
        None => Ok(Err(Abrupt::Left(Construct::TupleDepth))),
        Some(args) => {
            let id = s.objects.make_instance(class, Some(args))?;
            Ok(Ok(id))
        }
    }
}

/// An instance without attributes.
pub fn make_instance<W: Drop>(s: &mut State<Objects, W>, class: ClassId) -> Result<ObjId, Memory>
    ensures meant { IfOk result (λ id. makes_instance class None s.old ≡ (Ok id, s.new)) }
    ensures spends { s.new.left ≡ s.old.left }
{
    let id = s.objects.make_instance(class, None)?;
    Ok(id)
}

/// An assertion fails, with a message or none.
pub fn fail<W: Drop>(
    s: &mut State<Objects, W>,
    args: Sequence<Value>,
) -> Result<Outcome<Finding>, Memory>
    ensures meant { IfOk result (λ end. new_exception (Built AssertionError) args (λ id. stop (Raised id)) s.old ≡ (end, s.new)) }
    ensures spends { s.new.left ≡ s.old.left }
{
    let class = ClassId::Built(BuiltClass::AssertionError);
    match make_exception(s, class, args)? {
        Ok(id) => Ok(Err(Abrupt::Raised(id))),
        Err(why) => Ok(Err(why)),
    }
}
