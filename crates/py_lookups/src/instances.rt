// Attributes of instances (Language Reference 3.2, "Class instances").
ghost use Rattle.std.specs.Prelude.{◌≡◌, IfOk};
ghost use Rattle.py_meaning.specs.Operations.{args_of, attr_get};
ghost use Rattle.py_meaning.specs.Worlds.{object_at};
ghost use Rattle.py_plain.specs.Attributes.{known_args, args_named, missing_member, bound_method, finds_above, finds_in_instance};

use crate::class_member;
use py_effects::{Outcome, raise};
use py_meaning::{PyTuple, Value};
use py_objects::Objects;
use py_plain::{Abrupt, Callee, State};
use py_tables::Tables;
use pyn_base::{BuiltClass, ClassId, Construct, Memory, Name, ObjId};

/// The arguments of an exception, where they are known.
fn known_args<W: Drop>(s: &State<Objects, W>, id: ObjId) -> Result<Outcome<Callee>, Memory>
    ensures { IfOk result (λ end. known_args (args_of (object_at s.now.objects id)) s.now ≡ (end, s.now)) }
{
    match s.objects.args(id) {
        None => Ok(Err(Abrupt::Left(Construct::ExceptionText))),
        Some(args) => {
            let args = args.share()?;
            Ok(Ok(Callee::Value(Value::Tuple(args))))
        }
    }
}

#[tactic(auto, unfolding(std::specs::Prelude::chars))]
fn args_named<W: Drop>(
    s: &State<Objects, W>,
    id: ObjId,
    name: &Name,
) -> Result<Outcome<Callee>, Memory>
    ensures { IfOk result (λ end. args_named name.now (args_of (object_at s.now.objects id)) s.now ≡ (end, s.now)) }
{
    if name.is("args") {
        let end = known_args(s, id)?;
        Ok(end)
    } else {
        Ok(Err(Abrupt::Left(Construct::ExceptionAttribute)))
    }
}

/// What no class of an instance has.
fn missing_member<W: Drop>(
    s: &mut State<Objects, W>,
    exception: bool,
    id: ObjId,
    name: &Name,
) -> Result<Outcome<Callee>, Memory>
    ensures meant { IfOk result (λ end. missing_member exception name.now (args_of (object_at s.old.objects id)) s.old ≡ (end, s.new)) }
    ensures spends { s.new.left ≡ s.old.left }
{
    if exception {
        let end = args_named(s, id, name)?;
        Ok(end)
    } else {
        raise(s, BuiltClass::AttributeError)
    }
}

/// A function found in the class of an instance is a method of the instance.
fn bound_method(id: ObjId, found: Callee) -> Callee
    ensures { result ≡ bound_method id found }
{
    match found {
        Callee::Function(f) => Callee::Bound(id, f),
        other => other,
    }
}

/// What a name means on an instance, from a class on.
pub fn find_above<W: Drop>(
    s: &mut State<Objects, W>,
    tables: &Tables,
    id: ObjId,
    class: ClassId,
    from: ClassId,
    name: &Name,
) -> Result<Outcome<Callee>, Memory>
    ensures meant { IfOk result (λ end. finds_above tables.now id class from name.now s.old ≡ (end, s.new)) }
    ensures spends { s.new.left ≡ s.old.left }
{
    match class_member(tables, &s.space, from, name)? {
        Some(found) => Ok(Ok(bound_method(id, found))),
        None => {
            let end = missing_member(s, tables.is_exception(class), id, name)?;
            Ok(end)
        }
    }
}

/// An attribute of the instance alone, for one more owner.
fn own_attribute(objects: &Objects, id: ObjId, name: &Name) -> Result<Option<Value>, Memory>
    ensures { IfOk result (λ x. x ≡ attr_get id name.now objects.now) }
{
    match objects.attr_get(id, name) {
        None => Ok(None),
        Some(x) => {
            let x = x.share()?;
            Ok(Some(x))
        }
    }
}

/// What a name means on an instance: in itself, then in its class and along its bases.
pub(crate) fn find_in_instance<W: Drop>(
    s: &mut State<Objects, W>,
    tables: &Tables,
    id: ObjId,
    class: ClassId,
    name: &Name,
) -> Result<Outcome<Callee>, Memory>
    ensures meant { IfOk result (λ end. finds_in_instance tables.now id class name.now s.old ≡ (end, s.new)) }
    ensures spends { s.new.left ≡ s.old.left }
{
    match own_attribute(&s.objects, id, name)? {
        Some(x) => Ok(Ok(Callee::Value(x))),
        None => {
            let end = find_above(s, tables, id, class, class, name)?;
            Ok(end)
        }
    }
}
