// A method found by the receiver's type and a name.
ghost use Rattle.std.specs.Prelude.{◌≡◌, ◌≤◌, if◌then◌else◌};
ghost use Rattle.py_meaning.specs.Steps.{changes, UnlessMemory, UnlessDone};
ghost use Rattle.py_meaning.specs.Worlds.{object_at};
ghost use Rattle.py_meaning.specs.Operations.{kind_of};
ghost use Rattle.py_meaning.specs.Methods.{call_method, call_on_list, call_on_dict, call_on_object, call_on_text};

use crate::dicts::dict_method;
use crate::lists::list_method;
use crate::names::{
    dict_method_named, is_unsupported_dict_method, is_unsupported_integer_method,
    is_unsupported_list_method, is_unsupported_text_method, is_unsupported_tuple_method,
    list_method_named, text_method_named,
};
use crate::texts::text_method;
use py_meaning::{ObjKind, Op, Value};
use py_objects::Objects;
use pyn_base::{BuiltClass, Construct, Fuel, Name, ObjId};

/// A name that is no method of the subset: one of Python's leaves, and another raises.
fn no_method(is_unsupported: bool) -> Op<Value>
    ensures { result ≡ (if is_unsupported then Op.Leaves Construct.Method else Op.Raises BuiltClass.AttributeError) }
{
    if is_unsupported {
        Op::Leaves(Construct::Method)
    } else {
        Op::Raises(BuiltClass::AttributeError)
    }
}

fn call_on_text(
    s: &[char],
    name: &Name,
    args: &[Value],
    objects: &mut Objects,
    fuel: &mut Fuel,
) -> Op<Value>
    ensures meant { UnlessMemory result (changes (call_on_text s.now name.now args.now) objects.old fuel.old ≡ (result, objects.new, fuel.new)) }
    ensures unchanged { UnlessDone result (objects.new ≡ objects.old) }
    ensures fuel { fuel.new ≤ fuel.old }
{
    match text_method_named(name) {
        Some(method) => text_method(method, s, args, objects, fuel),
        None => no_method(is_unsupported_text_method(name)),
    }
}

fn call_on_list(
    list: ObjId,
    name: &Name,
    args: &[Value],
    objects: &mut Objects,
    fuel: &mut Fuel,
) -> Op<Value>
    ensures meant { UnlessMemory result (changes (call_on_list list name.now args.now) objects.old fuel.old ≡ (result, objects.new, fuel.new)) }
    ensures unchanged { UnlessDone result (objects.new ≡ objects.old) }
    ensures fuel { fuel.new ≤ fuel.old }
{
    match list_method_named(name) {
        Some(method) => list_method(method, list, args, objects, fuel),
        None => no_method(is_unsupported_list_method(name)),
    }
}

fn call_on_dict(
    dict: ObjId,
    name: &Name,
    args: &[Value],
    objects: &mut Objects,
    fuel: &mut Fuel,
) -> Op<Value>
    ensures meant { UnlessMemory result (changes (call_on_dict dict name.now args.now) objects.old fuel.old ≡ (result, objects.new, fuel.new)) }
    ensures unchanged { UnlessDone result (objects.new ≡ objects.old) }
    ensures fuel { fuel.new ≤ fuel.old }
{
    match dict_method_named(name) {
        Some(method) => dict_method(method, dict, args, objects, fuel),
        None => no_method(is_unsupported_dict_method(name)),
    }
}

/// Attributes of instances are the module's own.
fn call_on_object(
    id: ObjId,
    name: &Name,
    args: &[Value],
    objects: &mut Objects,
    fuel: &mut Fuel,
) -> Op<Value>
    ensures meant { UnlessMemory result (changes (call_on_object (kind_of (object_at objects.old id)) id name.now args.now) objects.old fuel.old ≡ (result, objects.new, fuel.new)) }
    ensures unchanged { UnlessDone result (objects.new ≡ objects.old) }
    ensures fuel { fuel.new ≤ fuel.old }
{
    match objects.kind(id) {
        ObjKind::List => call_on_list(id, name, args, objects, fuel),
        ObjKind::Dict => call_on_dict(id, name, args, objects, fuel),
        ObjKind::Instance(_) => Op::Raises(BuiltClass::AttributeError),
    }
}

/// Calls a method of a built-in type (the manual, "Built-in Types"). A name that is no method of the receiver's type
/// raises AttributeError; every name on a view, and a name of Python's that isn't supported, leaves. A number of
/// arguments that a method doesn't take raises TypeError. After any answer but `Done` the objects are as they were.
#[tactic(auto, using(py_meaning::specs::Folds::views))]
pub fn call_method(
    receiver: &Value,
    name: &Name,
    args: &[Value],
    objects: &mut Objects,
    fuel: &mut Fuel,
) -> Op<Value>
    ensures meant { UnlessMemory result (changes (call_method receiver.now name.now args.now) objects.old fuel.old ≡ (result, objects.new, fuel.new)) }
    ensures unchanged { UnlessDone result (objects.new ≡ objects.old) }
    ensures fuel { fuel.new ≤ fuel.old }
{
    match receiver {
        Value::Str(s) => call_on_text(s.as_slice(), name, args, objects, fuel),
        Value::Ref(id) => call_on_object(*id, name, args, objects, fuel),
        Value::Tuple(_) => no_method(is_unsupported_tuple_method(name)),
        Value::Int(_) => no_method(is_unsupported_integer_method(name)),
        Value::Bool(_) => no_method(is_unsupported_integer_method(name)),
        Value::View(_) => Op::Leaves(Construct::Method),
        _ => Op::Raises(BuiltClass::AttributeError),
    }
}
