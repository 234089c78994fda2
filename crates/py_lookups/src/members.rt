// Classes and what they have (Language Reference 3.2, "Custom classes", and 8.4).
ghost use Rattle.std.specs.Prelude.{◌≡◌, IfOk, slice_get};
ghost use Rattle.std.specs.List.{list_any};
ghost use Rattle.py_meaning.specs.declared.value.Value.{out-Value};
ghost use Rattle.py_plain.specs.Classes.{class_of, class_of_object, or_no_constants, member_of, class_member, initializer};
ghost use Rattle.py_meaning.specs.Worlds.{object_at};
ghost use Rattle.py_plain.specs.Names.{lookup};
ghost use Rattle.py_plain.specs.Exceptions.{class_in_value, class_in, handled_class, handles_class, handles};

use crate::names::bound_value;
use py_bindings::lookup;
use py_meaning::Value;
use py_objects::{ObjKind, Objects};
use py_plain::{Callee, Space};
use py_tables::{Tables, built_class_named};
use pyn_base::{BuiltClass, ClassId, FuncId, Memory, Name, ObjId};
use sqlite_items::Items;
use std::alloc::Global;

/// The class of an object.
pub fn class_of_object(objects: &Objects, id: ObjId) -> ClassId
    ensures { result ≡ class_of_object (object_at objects.now id) }
{
    match objects.kind(id) {
        ObjKind::List => ClassId::Built(BuiltClass::List),
        ObjKind::Dict => ClassId::Built(BuiltClass::Dict),
        ObjKind::Instance(class) => class,
    }
}

/// The class of a value. What has no class of the subset is an object.
#[tactic(auto, using(py_meaning::specs::Folds::views))]
pub fn class_of(objects: &Objects, x: &Value) -> ClassId
    ensures { result ≡ class_of objects.now (out-Value x.now) }
{
    match x {
        Value::Bool(_) => ClassId::Built(BuiltClass::Bool),
        Value::Int(_) => ClassId::Built(BuiltClass::Int),
        Value::Str(_) => ClassId::Built(BuiltClass::Str),
        Value::Tuple(_) => ClassId::Built(BuiltClass::Tuple),
        Value::Ref(id) => class_of_object(objects, *id),
        _ => ClassId::Built(BuiltClass::Object),
    }
}

/// The value of a constant that is written in this very class.
fn constant_of(space: &Space, number: u32, name: &Name) -> Result<Option<Value>, Memory>
    ensures { IfOk result (λ x. x ≡ lookup name.now (or_no_constants (slice_get space.now.constants number))) }
{
    match space.constants.get(number as usize) {
        None => Ok(None),
        Some(constants) => {
            let x = bound_value(constants.as_slice(), name)?;
            Ok(x)
        }
    }
}

/// What is found in this very class under a name: a method, else a constant.
fn member_of(
    tables: &Tables,
    space: &Space,
    class: ClassId,
    name: &Name,
) -> Result<Option<Callee>, Memory>
    ensures { IfOk result (λ found. found ≡ member_of tables.now space.now class name.now) }
{
    let ClassId::Own(number) = class else {
        return Ok(None);
    };
    if let Some(f) = tables.method_of(class, name) {
        return Ok(Some(Callee::Function(f)));
    }
    match constant_of(space, number, name)? {
        None => Ok(None),
        Some(x) => Ok(Some(Callee::Value(x))),
    }
}

/// What a name means in a class or in the nearest above it.
#[tactic(auto, using(crate::proofs::BuiltMembers::built_members))]
pub fn class_member(
    tables: &Tables,
    space: &Space,
    class: ClassId,
    name: &Name,
) -> Result<Option<Callee>, Memory>
    ensures { IfOk result (λ found. found ≡ class_member tables.now space.now class name.now) }
{
    let mut class = class;
    let mut left = tables.classes().len();
    loop {
        match class {
            ClassId::Built(_) => return Ok(None),
            ClassId::Own(_) => {
                if left == 0 {
                    return Ok(None);
                }
                if let Some(found) = member_of(tables, space, class, name)? {
                    return Ok(Some(found));
                }
                left -= 1;
                class = tables.base(class);
            }
        }
    }
}

/// The `__init__` of a class or of the nearest above it.
#[tactic(auto, unfolding(std::specs::Prelude::chars))]
pub fn initializer(alloc: Global, tables: &Tables, class: ClassId) -> Result<Option<FuncId>, Memory>
    ensures { IfOk result (λ f. f ≡ initializer tables.now class) }
{
    let name = Name::from_str(alloc, "__init__")?;
    Ok(tables.method_named(class, &name))
}

/// The class that a value is.
#[tactic(auto, using(py_meaning::specs::Folds::views))]
fn class_in_value(x: &Value) -> Option<ClassId>
    ensures { result ≡ class_in_value (out-Value x.now) }
{
    match x {
        Value::Class(class) => Some(*class),
        _ => None,
    }
}

/// The class of a clause's name: the module's, or a built-in one.
fn handled_class(space: &Space, name: &Name) -> Option<ClassId>
    ensures { result ≡ handled_class space.now name.now }
{
    if let Some(class) = class_bound(space, name) {
        return Some(class);
    }
    match built_class_named(name) {
        Some(class) => Some(ClassId::Built(class)),
        None => None,
    }
}

fn class_bound(space: &Space, name: &Name) -> Option<ClassId>
    ensures { result ≡ class_in (lookup name.now space.now.names) }
{
    match lookup(space.names.as_slice(), name) {
        None => None,
        Some(x) => class_in_value(x),
    }
}

/// Whether a clause's name is that of a class or of one above it.
fn is_handled_by(tables: &Tables, space: &Space, class: ClassId, name: &Name) -> bool
    ensures { result ≡ handles_class tables.now class (handled_class space.now name.now) }
{
    match handled_class(space, name) {
        None => false,
        Some(above) => tables.derives(class, above),
    }
}

fn is_handled_by_any(tables: &Tables, space: &Space, class: ClassId, names: &[Name]) -> bool
    ensures { result ≡ list_any (λ name. handles_class tables.now class (handled_class space.now name)) names.now }
{
    for name in names {
        if is_handled_by(tables, space, class, name) {
            return true;
        }
    }
    false
}

/// Whether a clause handles the exceptions of a class. One without classes handles all, and a subclass matches.
pub fn handles(tables: &Tables, space: &Space, class: ClassId, names: &Option<Items<Name>>) -> bool
    ensures { result ≡ handles tables.now space.now class names.now }
{
    match names {
        None => true,
        Some(names) => is_handled_by_any(tables, space, class, names.as_slice()),
    }
}
