// Attributes (Language Reference 6.3.1).
ghost use Rattle.std.specs.Prelude.{◌≡◌, if◌then◌else◌, IfOk};
ghost use Rattle.pyn_base.specs.declared.class.BuiltClass.TheVariants.{AttributeError};
ghost use Rattle.pyn_base.specs.declared.construct.Construct.TheVariants as construct;
ghost use Rattle.py_meaning.specs.declared.value.Value.{out-Value};
ghost use Rattle.py_meaning.specs.Operations.{kind_of};
ghost use Rattle.py_meaning.specs.Worlds.{object_at};
ghost use Rattle.py_plain.specs.declared.run.Abrupt.TheVariants.{Left};
ghost use Rattle.py_plain.specs.declared.run.Callee.TheVariants as callee;
ghost use Rattle.py_plain.specs.Attributes.{missing_of_class, finds_in_class, finds_in_object, value_or, finds, read_found};
ghost use Rattle.py_plain.specs.Names.{lookup};
ghost use Rattle.py_plain.specs.Runs.{pure, stop, raises};

use crate::class_member;
use crate::instances::find_in_instance;
use crate::names::bound_value;
use py_effects::{Finding, Outcome, give, raise};
use py_meaning::Value;
use py_objects::{ObjKind, Objects};
use py_plain::{Abrupt, Callee, State};
use py_tables::{
    Tables, is_dict_method, is_left_of_dict, is_left_of_integer, is_left_of_list, is_left_of_text,
    is_left_of_tuple, is_list_method, is_text_method,
};
use pyn_base::{BuiltClass, ClassId, Construct, Memory, Name, ObjId};

/// A method of a built-in type is there under its name; a further name of Python's own leaves.
fn find_method<W: Drop>(
    s: &mut State<Objects, W>,
    is_method: bool,
    is_left: bool,
    receiver: Value,
    name: &Name,
) -> Result<Outcome<Callee>, Memory>
    ensures meant { IfOk result (λ end. (if is_method then pure (callee.Method receiver name.now) else (if is_left then stop (Left construct.Method) else raises AttributeError)) s.old ≡ (end, s.new)) }
    ensures spends { s.new.left ≡ s.old.left }
{
    if is_method {
        let name = name.to_owned(s.objects.alloc())?;
        return Ok(Ok(Callee::Method(receiver, name)));
    }
    let end = find_none(s, is_left)?;
    Ok(end)
}

/// A type without a method in the subset.
fn find_none<W: Drop>(s: &mut State<Objects, W>, is_left: bool) -> Result<Outcome<Callee>, Memory>
    ensures meant { IfOk result (λ end. (if is_left then stop (Left construct.Method) else raises AttributeError) s.old ≡ (end, s.new)) }
    ensures spends { s.new.left ≡ s.old.left }
{
    if is_left {
        Ok(Err(Abrupt::Left(Construct::Method)))
    } else {
        raise(s, BuiltClass::AttributeError)
    }
}

/// What no class has.
#[tactic(auto, unfolding(std::specs::Prelude::chars))]
fn missing_of_class<W: Drop>(
    s: &mut State<Objects, W>,
    exception: bool,
    name: &Name,
) -> Result<Outcome<Callee>, Memory>
    ensures meant { IfOk result (λ end. missing_of_class exception name.now s.old ≡ (end, s.new)) }
    ensures spends { s.new.left ≡ s.old.left }
{
    if name.is("mro") {
        return Ok(Err(Abrupt::Left(Construct::ClassAttribute)));
    }
    if exception {
        Ok(Err(Abrupt::Left(Construct::ExceptionAttribute)))
    } else {
        raise(s, BuiltClass::AttributeError)
    }
}

fn find_in_class<W: Drop>(
    s: &mut State<Objects, W>,
    tables: &Tables,
    class: ClassId,
    name: &Name,
) -> Result<Outcome<Callee>, Memory>
    ensures meant { IfOk result (λ end. finds_in_class tables.now class name.now s.old ≡ (end, s.new)) }
    ensures spends { s.new.left ≡ s.old.left }
{
    let ClassId::Own(_) = class else {
        return Ok(Err(Abrupt::Left(Construct::ClassAttribute)));
    };
    match class_member(tables, &s.space, class, name)? {
        Some(found) => Ok(Ok(found)),
        None => {
            let end = missing_of_class(s, tables.is_exception(class), name)?;
            Ok(end)
        }
    }
}

fn find_in_object<W: Drop>(
    s: &mut State<Objects, W>,
    tables: &Tables,
    id: ObjId,
    name: &Name,
) -> Result<Outcome<Callee>, Memory>
    ensures meant { IfOk result (λ end. finds_in_object tables.now id (kind_of (object_at s.old.objects id)) name.now s.old ≡ (end, s.new)) }
    ensures spends { s.new.left ≡ s.old.left }
{
    match s.objects.kind(id) {
        ObjKind::List => {
            let end = find_method(
                s,
                is_list_method(name),
                is_left_of_list(name),
                Value::Ref(id),
                name,
            )?;
            Ok(end)
        }
        ObjKind::Dict => {
            let end = find_method(
                s,
                is_dict_method(name),
                is_left_of_dict(name),
                Value::Ref(id),
                name,
            )?;
            Ok(end)
        }
        ObjKind::Instance(class) => {
            let end = find_in_instance(s, tables, id, class, name)?;
            Ok(end)
        }
    }
}

/// A name of the module.
fn find_in_module<W: Drop>(s: &State<Objects, W>, name: &Name) -> Result<Outcome<Callee>, Memory>
    ensures { IfOk result (λ end. value_or (stop (Left construct.UnknownName)) (lookup name.now s.now.space.names) s.now ≡ (end, s.now)) }
{
    match bound_value(s.space.names.as_slice(), name)? {
        Some(x) => Ok(Ok(Callee::Value(x))),
        None => Ok(Err(Abrupt::Left(Construct::UnknownName))),
    }
}

/// What a name means on a value.
#[tactic(auto, using(py_meaning::specs::Folds::views))]
pub fn find<W: Drop>(
    s: &mut State<Objects, W>,
    tables: &Tables,
    x: &Value,
    name: &Name,
) -> Result<Outcome<Callee>, Memory>
    ensures meant { IfOk result (λ end. finds tables.now x.now name.now s.old ≡ (end, s.new)) }
    ensures spends { s.new.left ≡ s.old.left }
{
    match x {
        Value::Str(_) => {
            let receiver = x.share()?;
            let end = find_method(
                s,
                is_text_method(name),
                is_left_of_text(name),
                receiver,
                name,
            )?;
            Ok(end)
        }
        Value::Tuple(_) => {
            let end = find_none(s, is_left_of_tuple(name))?;
            Ok(end)
        }
        Value::Bool(_) => {
            let end = find_none(s, is_left_of_integer(name))?;
            Ok(end)
        }
        Value::Int(_) => {
            let end = find_none(s, is_left_of_integer(name))?;
            Ok(end)
        }
        Value::None => raise(s, BuiltClass::AttributeError),
        Value::Ref(id) => {
            let end = find_in_object(s, tables, *id, name)?;
            Ok(end)
        }
        Value::Class(class) => {
            let end = find_in_class(s, tables, *class, name)?;
            Ok(end)
        }
        Value::Func(_) => Ok(Err(Abrupt::Left(Construct::FunctionAttribute))),
        Value::View(_) => Ok(Err(Abrupt::Left(Construct::Method))),
        Value::ModuleRef => {
            let end = find_in_module(s, name)?;
            Ok(end)
        }
    }
}

/// The value that was found. A method that isn't called leaves.
pub fn read_found<W: Drop>(s: &State<Objects, W>, found: Callee) -> Outcome<Finding>
    ensures { read_found found s.now ≡ (result, s.now) }
{
    match found {
        Callee::Value(x) => Ok(give(s, x)),
        _ => Err(Abrupt::Left(Construct::MethodValue)),
    }
}
