// `in` (Language Reference 6.10.2).
ghost use Rattle.std.specs.Prelude.{◌≡◌, ◌≤◌, ◌≢◌, ◌^◌, ◌≤ℤ◌, ◌<ℤ◌, pos, negsuc};
ghost use Rattle.std.specs.Ordering.{int_eq};
ghost use Rattle.pyn_base.specs.Int.{floor_rest};
ghost use Rattle.py_meaning.specs.Steps.{UnlessMemory};
ghost use Rattle.py_meaning.specs.Worlds.{object_at};
ghost use Rattle.py_meaning.specs.Operations.{kind_of};
ghost use Rattle.py_meaning.specs.Membership.{any_equal, is_key_of, is_counted, in_object, in_text, in_values, contains};
ghost use Rattle.py_meaning.specs.declared.value.Value.{Value-F, out-Value};

use py_meaning::{done, made};
use py_objects::{ObjKind, Objects, Op, Value, View, is_view, number};
use py_text::first_place;
use pyn_base::{BuiltClass, Construct, Fuel, ObjId, PyInt};
use std::alloc::Global;

/// Whether an item is in a list or tuple, a text in a string, a key in a dict or a view of its keys, or a number in a range.
/// A list or tuple costs a step and a comparison for each element up to the first that is the same or equal, a dict the key,
/// a string both lengths. All else raises TypeError. A view as the item, and other views, leave.
#[tactic(auto, using(py_meaning::specs::Folds::views))]
pub fn contains(item: &Value, whole: &Value, objects: &Objects, fuel: &mut Fuel) -> Op<bool>
    ensures meant { UnlessMemory result (contains item.now whole.now objects.now fuel.old ≡ (result, fuel.new)) }
    ensures fuel { fuel.new ≤ fuel.old }
{
    if is_view(item) {
        return Op::Leaves(Construct::View);
    }
    match whole {
        Value::Str(text) => in_text(objects.alloc(), item, text.as_slice(), fuel),
        Value::Tuple(parts) => any_equal(item, parts.as_slice(), objects, fuel),
        Value::Ref(id) => in_object(item, *id, objects, fuel),
        Value::View(view) => in_view(item, *view, objects, fuel),
        _ => Op::Raises(BuiltClass::TypeError),
    }
}

/// Whether a text is part of another, at the length of both.
#[tactic(auto, using(py_meaning::specs::Folds::views))]
fn in_text(alloc: Global, item: &Value, text: &[char], fuel: &mut Fuel) -> Op<bool>
    ensures meant { UnlessMemory result (in_text (out-Value item.now) text.now fuel.old ≡ (result, fuel.new)) }
    ensures fuel { fuel.new ≤ fuel.old }
{
    match item {
        Value::Str(part) => has_part(alloc, part.as_slice(), text, fuel),
        _ => Op::Raises(BuiltClass::TypeError),
    }
}

fn has_part(alloc: Global, part: &[char], text: &[char], fuel: &mut Fuel) -> Op<bool>
    ensures meant { UnlessMemory result (in_text (Value-F.Str part.now) text.now fuel.old ≡ (result, fuel.new)) }
    ensures fuel { fuel.new ≤ fuel.old }
{
    if !fuel.take(text.len() as u64 + part.len() as u64) {
        return Op::OutOfSteps;
    }
    let place = made!(first_place(alloc, part, text));
    Op::Done(place.is_some())
}

fn any_equal(item: &Value, items: &[Value], objects: &Objects, fuel: &mut Fuel) -> Op<bool>
    ensures meant { any_equal objects.now item.now items.now fuel.old ≡ (result, fuel.new) }
    ensures fuel { fuel.new ≤ fuel.old }
{
    let place = done!(objects.equal_place(1, item, items, fuel));
    Op::Done(place.is_some())
}

fn is_key_of(dict: ObjId, key: &Value, objects: &Objects, fuel: &mut Fuel) -> Op<bool>
    ensures meant { UnlessMemory result (is_key_of dict key.now objects.now fuel.old ≡ (result, fuel.new)) }
    ensures fuel { fuel.new ≤ fuel.old }
{
    match objects.dict_get(dict, key, fuel) {
        Op::Raises(BuiltClass::KeyError) => Op::Done(false),
        answer => {
            drop(done!(answer));
            Op::Done(true)
        }
    }
}

fn in_object(item: &Value, id: ObjId, objects: &Objects, fuel: &mut Fuel) -> Op<bool>
    ensures meant { UnlessMemory result (in_object item.now id (kind_of (object_at objects.now id)) objects.now fuel.old ≡ (result, fuel.new)) }
    ensures fuel { fuel.new ≤ fuel.old }
{
    match objects.kind(id) {
        ObjKind::List => any_equal(item, objects.elements(id), objects, fuel),
        ObjKind::Dict => is_key_of(id, item, objects, fuel),
        ObjKind::Instance(_) => Op::Raises(BuiltClass::TypeError),
    }
}

fn in_view(item: &Value, view: View, objects: &Objects, fuel: &mut Fuel) -> Op<bool>
    ensures meant { UnlessMemory result (in_values item.now (Value-F.View view) objects.now fuel.old ≡ (result, fuel.new)) }
    ensures fuel { fuel.new ≤ fuel.old }
{
    match view {
        View::Range(start, stop, step) => match number(item) {
            Some(n) => Op::Done(is_counted(start, stop, step, n)),
            None => Op::Done(false),
        },
        View::Keys(dict) => is_key_of(dict, item, objects, fuel),
        View::Values(_) => Op::Leaves(Construct::View),
        View::Items(_) => Op::Leaves(Construct::View),
    }
}

/// Whether a number is one of a range's. A step of 0 is in no range.
fn is_counted(start: i64, stop: i64, step: i64, n: PyInt) -> bool
    ensures { result ≡ is_counted start stop step n }
{
    if step > 0 {
        is_counted_up(start, stop, step, n.get())
    } else if step < 0 {
        is_counted_down(start, stop, step, n.get())
    } else {
        false
    }
}

fn is_counted_up(start: i64, stop: i64, step: i64, n: i128) -> bool
    requires { pos 0 <ℤ step }
    ensures { result ≡ is_counted start stop step n }
{
    let start = start as i128;
    if n < start {
        return false;
    }
    if n >= stop as i128 {
        return false;
    }
    is_multiple(n - start, step)
}

fn is_counted_down(start: i64, stop: i64, step: i64, n: i128) -> bool
    requires { step <ℤ pos 0 }
    ensures { result ≡ is_counted start stop step n }
{
    let start = start as i128;
    if n > start {
        return false;
    }
    if n <= stop as i128 {
        return false;
    }
    is_multiple(n - start, step)
}

/// Whether steps of a size lead over a distance.
fn is_multiple(distance: i128, step: i64) -> bool
    requires moves { step ≢ pos 0 }
    requires low { negsuc (2 ^ 65) ≤ℤ distance }
    requires high { distance ≤ℤ pos (2 ^ 65) }
    ensures { result ≡ int_eq (floor_rest distance step) (pos 0) }
{
    match (PyInt::new(distance), PyInt::new(step as i128)) {
        (Some(distance), Some(step)) => distance.modulo(step).is_zero(),
        _ => unreachable!(),
    }
}
