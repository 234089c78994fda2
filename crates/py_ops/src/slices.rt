// Slicings (Language Reference 6.3.3).
ghost use Rattle.std.specs.Prelude.{◌≡◌, ◌≤◌};
ghost use Rattle.py_meaning.specs.Steps.{changes, UnlessMemory, UnlessDone};
ghost use Rattle.py_meaning.specs.Subscripts.{bound, bound_place, cut, cut_text, cut_tuple, cut_ref, slice, slice_of};
ghost use Rattle.py_meaning.specs.declared.value.Value.{out-Value};

use py_meaning::{made, new_tuple};
use py_objects::{Objects, Op, Value, insert_place, is_view, number, shared_all};
use py_text::copied;
use pyn_base::{BuiltClass, Construct, Fuel, ObjId, PyInt};
use std::alloc::Global;

/// `of[low:high]`: a part of a list, tuple or string, at a step for each element of it. A bound is an integer, below 0 from the
/// end, or None where it isn't given, and one beyond an end is that end. All else raises TypeError. A view, and a class, leave.
pub fn slice(
    of: &Value,
    low: &Value,
    high: &Value,
    objects: &mut Objects,
    fuel: &mut Fuel,
) -> Op<Value>
    ensures meant { UnlessMemory result (changes (slice of.now low.now high.now) objects.old fuel.old ≡ (result, objects.new, fuel.new)) }
    ensures unchanged { UnlessDone result (objects.new ≡ objects.old) }
    ensures fuel { fuel.new ≤ fuel.old }
{
    if is_view(of) || (is_view(low) || is_view(high)) {
        return Op::Leaves(Construct::View);
    }
    slice_of(of, bound(low), bound(high), objects, fuel)
}

#[tactic(auto, using(py_meaning::specs::Folds::views))]
fn slice_of(
    of: &Value,
    low: Option<Option<PyInt>>,
    high: Option<Option<PyInt>>,
    objects: &mut Objects,
    fuel: &mut Fuel,
) -> Op<Value>
    ensures meant { UnlessMemory result (changes (slice_of (out-Value of.now) low high) objects.old fuel.old ≡ (result, objects.new, fuel.new)) }
    ensures unchanged { UnlessDone result (objects.new ≡ objects.old) }
    ensures fuel { fuel.new ≤ fuel.old }
{
    match of {
        Value::Class(_) => Op::Leaves(Construct::SubscriptOfAClass),
        Value::Str(s) => match (low, high) {
            (Some(low), Some(high)) => cut_text(
                objects.alloc(),
                cut(low, high, s.as_slice()),
                fuel,
            ),
            _ => Op::Raises(BuiltClass::TypeError),
        },
        Value::Tuple(parts) => match (low, high) {
            (Some(low), Some(high)) => cut_tuple(
                objects.alloc(),
                cut(low, high, parts.as_slice()),
                fuel,
            ),
            _ => Op::Raises(BuiltClass::TypeError),
        },
        Value::Ref(id) => match (low, high) {
            (Some(low), Some(high)) => cut_ref(*id, low, high, objects, fuel),
            _ => Op::Raises(BuiltClass::TypeError),
        },
        _ => Op::Raises(BuiltClass::TypeError),
    }
}

/// A bound: a number, or None where it isn't given. Anything else is none.
#[tactic(auto, using(py_meaning::specs::Folds::views))]
fn bound(value: &Value) -> Option<Option<PyInt>>
    ensures { result ≡ bound (out-Value value.now) }
{
    match value {
        Value::None => Some(None),
        Value::Bool(_) => Some(number(value)),
        Value::Int(_) => Some(number(value)),
        _ => None,
    }
}

/// The place of a bound among so many, or another where it isn't given.
fn bound_place(bound: Option<PyInt>, count: usize, other: usize) -> usize
    requires { other ≤ count }
    ensures place { result ≡ bound_place bound count other }
    ensures within { result ≤ count }
{
    match bound {
        Some(at) => insert_place(at, count),
        None => other,
    }
}

/// The part between two bounds.
fn cut<T>(low: Option<PyInt>, high: Option<PyInt>, items: &[T]) -> &[T]
    ensures { result.now ≡ cut low high items.now }
{
    let count = items.len();
    let from = bound_place(low, count, 0);
    let to = bound_place(high, count, count);
    if from < to { &items[from..to] } else { &[] }
}

fn cut_text(alloc: Global, s: &[char], fuel: &mut Fuel) -> Op<Value>
    ensures meant { UnlessMemory result (cut_text s.now fuel.old ≡ (result, fuel.new)) }
    ensures fuel { fuel.new ≤ fuel.old }
{
    if !fuel.take(s.len() as u64) {
        return Op::OutOfSteps;
    }
    Op::Done(Value::Str(made!(copied(alloc, s))))
}

fn cut_tuple(alloc: Global, parts: &[Value], fuel: &mut Fuel) -> Op<Value>
    ensures meant { UnlessMemory result (cut_tuple parts.now fuel.old ≡ (result, fuel.new)) }
    ensures fuel { fuel.new ≤ fuel.old }
{
    if !fuel.take(parts.len() as u64) {
        return Op::OutOfSteps;
    }
    new_tuple(alloc, made!(shared_all(alloc, parts)))
}

/// A new list, where the reference names one.
fn cut_ref(
    id: ObjId,
    low: Option<PyInt>,
    high: Option<PyInt>,
    objects: &mut Objects,
    fuel: &mut Fuel,
) -> Op<Value>
    ensures meant { UnlessMemory result (changes (cut_ref id low high) objects.old fuel.old ≡ (result, objects.new, fuel.new)) }
    ensures unchanged { UnlessDone result (objects.new ≡ objects.old) }
    ensures fuel { fuel.new ≤ fuel.old }
{
    if !objects.is_list(id) {
        return Op::Raises(BuiltClass::TypeError);
    }
    let part = cut(low, high, objects.elements(id));
    if !fuel.take(part.len() as u64) {
        return Op::OutOfSteps;
    }
    let items = made!(shared_all(objects.alloc(), part));
    Op::Done(Value::Ref(made!(objects.new_list(items))))
}
