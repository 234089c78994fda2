// Rows on collections: lengths and truth values, and new lists, tuples and dicts.
ghost use Rattle.std.specs.Prelude.{◌≡◌, ◌≤◌, ℕ, []};
ghost use Rattle.py_meaning.specs.Steps.{changes, UnlessMemory, UnlessDone};
ghost use Rattle.py_meaning.specs.Tuples.{tuple};
ghost use Rattle.py_meaning.specs.Worlds.{object_at};
ghost use Rattle.py_meaning.specs.Operations.{kind_of};
ghost use Rattle.py_meaning.specs.declared.value.Value.{out-Value};
ghost use Rattle.py_meaning.specs.Builtins.{len_row, bool_row, list_row, tuple_row, dict_row, dict_of_value, dict_of_object};

use py_meaning::{done, made};
use py_objects::{ObjKind, Objects, Op, PyTuple, Value};
use pyn_base::{BuiltClass, Construct, Fuel, ObjId, PyInt};
use std::alloc::Global;

/// What is walked has a length.
pub(crate) fn len_row(args: &[Value], objects: &Objects) -> Op<Value>
    ensures { (left : ℕ) → len_row args.now objects.now left ≡ (result, left) }
{
    match args {
        [value] => match objects.length(value) {
            Some(count) => Op::Done(Value::Int(PyInt::from(count))),
            None => Op::Raises(BuiltClass::TypeError),
        },
        _ => Op::Raises(BuiltClass::TypeError),
    }
}

pub(crate) fn bool_row(args: &[Value], objects: &Objects) -> Op<Value>
    ensures { (left : ℕ) → bool_row args.now objects.now left ≡ (result, left) }
{
    match args {
        [] => Op::Done(Value::Bool(false)),
        [value] => Op::Done(Value::Bool(objects.truth(value))),
        _ => Op::Raises(BuiltClass::TypeError),
    }
}

/// A new list, at a step for each item.
pub(crate) fn list_row(args: &[Value], objects: &mut Objects, fuel: &mut Fuel) -> Op<Value>
    ensures meant { UnlessMemory result (changes (list_row args.now) objects.old fuel.old ≡ (result, objects.new, fuel.new)) }
    ensures unchanged { UnlessDone result (objects.new ≡ objects.old) }
    ensures fuel { fuel.new ≤ fuel.old }
{
    match args {
        [] => Op::Done(Value::Ref(made!(objects.new_list(Vec::new(objects.alloc()))))),
        [value] => objects.list_of(value, fuel),
        _ => Op::Raises(BuiltClass::TypeError),
    }
}

/// A tuple, at a step for each part.
pub(crate) fn tuple_row(args: &[Value], objects: &Objects, fuel: &mut Fuel) -> Op<Value>
    ensures meant { UnlessMemory result (tuple_row args.now objects.now fuel.old ≡ (result, fuel.new)) }
    ensures fuel { fuel.new ≤ fuel.old }
{
    match args {
        [] => empty_tuple(objects.alloc()),
        [value] => objects.tuple_of(value, fuel),
        _ => Op::Raises(BuiltClass::TypeError),
    }
}

#[tactic(auto, unfolding(py_meaning::specs::Tuples::tuple))]
fn empty_tuple(alloc: Global) -> Op<Value>
    ensures { UnlessMemory result (result ≡ Op.Done (tuple [])) }
{
    match made!(PyTuple::new(alloc, Vec::new(alloc))) {
        Some(tuple) => Op::Done(Value::Tuple(tuple)),
        None => unreachable!(),
    }
}

/// A new dict without pairs, or a copy of one, at a step for each pair.
pub(crate) fn dict_row(args: &[Value], objects: &mut Objects, fuel: &mut Fuel) -> Op<Value>
    ensures meant { UnlessMemory result (changes (dict_row args.now) objects.old fuel.old ≡ (result, objects.new, fuel.new)) }
    ensures unchanged { UnlessDone result (objects.new ≡ objects.old) }
    ensures fuel { fuel.new ≤ fuel.old }
{
    match args {
        [] => Op::Done(Value::Ref(done!(objects.make_dict(&[], fuel)))),
        [value] => dict_of_value(value, objects, fuel),
        _ => Op::Raises(BuiltClass::TypeError),
    }
}

#[tactic(auto, using(py_meaning::specs::Folds::views))]
fn dict_of_value(value: &Value, objects: &mut Objects, fuel: &mut Fuel) -> Op<Value>
    ensures meant { UnlessMemory result (changes (dict_of_value (out-Value value.now)) objects.old fuel.old ≡ (result, objects.new, fuel.new)) }
    ensures unchanged { UnlessDone result (objects.new ≡ objects.old) }
    ensures fuel { fuel.new ≤ fuel.old }
{
    match value {
        Value::Ref(id) => dict_of_object(*id, objects, fuel),
        _ => Op::Leaves(Construct::Argument),
    }
}

fn dict_of_object(id: ObjId, objects: &mut Objects, fuel: &mut Fuel) -> Op<Value>
    ensures meant { UnlessMemory result (changes (dict_of_object (kind_of (object_at objects.old id)) id) objects.old fuel.old ≡ (result, objects.new, fuel.new)) }
    ensures unchanged { UnlessDone result (objects.new ≡ objects.old) }
    ensures fuel { fuel.new ≤ fuel.old }
{
    match objects.kind(id) {
        ObjKind::Dict => Op::Done(Value::Ref(done!(objects.dict_copy(id, fuel)))),
        ObjKind::List => Op::Leaves(Construct::Argument),
        ObjKind::Instance(_) => Op::Leaves(Construct::Argument),
    }
}
