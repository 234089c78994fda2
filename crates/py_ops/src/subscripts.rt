// Subscriptions (Language Reference 6.3.2).
ghost use Rattle.std.specs.Prelude.{◌≡◌, ◌≤◌, ℕ, ◌∷◌, []};
ghost use Rattle.py_meaning.specs.Steps.{changes, done, go_on, UnlessMemory, UnlessDone};
ghost use Rattle.py_meaning.specs.Worlds.{object_at};
ghost use Rattle.py_meaning.specs.Operations.{kind_of};
ghost use Rattle.py_meaning.specs.Subscripts.{indexed, item_of_object, get_item, put_item, put_in_object, delete_item, delete_in_object, delete_in_list};

use py_meaning::{done, made};
use py_objects::{ObjKind, Objects, Op, Value, index_place, is_view, number};
use py_text::copied;
use pyn_base::{BuiltClass, Construct, Fuel, ObjId, PyInt};
use std::alloc::Global;

/// `of[at]`: an element of a list, tuple or string by an integer, below 0 from the end, or a dict's value at the key's cost.
/// An index out of range raises IndexError, a missing key KeyError, all else TypeError. A view, and a class, leave.
#[tactic(auto, using(py_meaning::specs::Folds::views))]
pub fn get_item(of: &Value, at: &Value, objects: &Objects, fuel: &mut Fuel) -> Op<Value>
    ensures meant { UnlessMemory result (get_item of.now at.now objects.now fuel.old ≡ (result, fuel.new)) }
    ensures fuel { fuel.new ≤ fuel.old }
{
    if is_view(of) || is_view(at) {
        return Op::Leaves(Construct::View);
    }
    match of {
        Value::Str(s) => letter_at(objects.alloc(), s.as_slice(), number(at)),
        Value::Tuple(parts) => part_at(parts.as_slice(), number(at)),
        Value::Ref(id) => item_of_object(*id, at, objects, fuel),
        Value::Class(_) => Op::Leaves(Construct::SubscriptOfAClass),
        _ => Op::Raises(BuiltClass::TypeError),
    }
}

fn item_of_object(id: ObjId, at: &Value, objects: &Objects, fuel: &mut Fuel) -> Op<Value>
    ensures meant { UnlessMemory result (item_of_object id (kind_of (object_at objects.now id)) at.now objects.now fuel.old ≡ (result, fuel.new)) }
    ensures fuel { fuel.new ≤ fuel.old }
{
    match objects.kind(id) {
        ObjKind::List => part_at(objects.elements(id), number(at)),
        ObjKind::Dict => objects.dict_get(id, at, fuel),
        ObjKind::Instance(_) => Op::Raises(BuiltClass::TypeError),
    }
}

fn part_at(parts: &[Value], at: Option<PyInt>) -> Op<Value>
    ensures { UnlessMemory result ((left : ℕ) → indexed parts.now at left ≡ (result, left)) }
{
    let Some(at) = at else {
        return Op::Raises(BuiltClass::TypeError);
    };
    let Some(place) = index_place(at, parts.len()) else {
        return Op::Raises(BuiltClass::IndexError);
    };
    match parts.get(place) {
        Some(part) => Op::Done(made!(part.share())),
        None => Op::Raises(BuiltClass::IndexError),
    }
}

/// A character as a string of its own.
fn letter_at(alloc: Global, s: &[char], at: Option<PyInt>) -> Op<Value>
    ensures { UnlessMemory result ((left : ℕ) → (let found = indexed s.now at left in go_on found.0 found.1 (λ c. done (Value.Str (c ∷ [])))) ≡ (result, left)) }
{
    let Some(at) = at else {
        return Op::Raises(BuiltClass::TypeError);
    };
    let Some(place) = index_place(at, s.len()) else {
        return Op::Raises(BuiltClass::IndexError);
    };
    match s.get(place) {
        Some(c) => Op::Done(Value::Str(made!(copied(alloc, &[*c])))),
        None => Op::Raises(BuiltClass::IndexError),
    }
}

/// `of[at] = value`: a list's element by an integer, at no cost, or a dict's value at the key's cost.
#[tactic(auto, using(py_meaning::specs::Folds::views))]
pub fn set_item(
    of: &Value,
    at: &Value,
    value: Value,
    objects: &mut Objects,
    fuel: &mut Fuel,
) -> Op<()>
    ensures meant { UnlessMemory result (changes (put_item of.now at.now value) objects.old fuel.old ≡ (result, objects.new, fuel.new)) }
    ensures unchanged { UnlessDone result (objects.new ≡ objects.old) }
    ensures fuel { fuel.new ≤ fuel.old }
{
    if is_view(of) || is_view(at) {
        return Op::Leaves(Construct::View);
    }
    match of {
        Value::Ref(id) => set_in_object(*id, at, value, objects, fuel),
        _ => Op::Raises(BuiltClass::TypeError),
    }
}

fn set_in_object(
    id: ObjId,
    at: &Value,
    value: Value,
    objects: &mut Objects,
    fuel: &mut Fuel,
) -> Op<()>
    ensures meant { UnlessMemory result (changes (put_in_object id (kind_of (object_at objects.old id)) at.now value) objects.old fuel.old ≡ (result, objects.new, fuel.new)) }
    ensures unchanged { UnlessDone result (objects.new ≡ objects.old) }
    ensures fuel { fuel.new ≤ fuel.old }
{
    match objects.kind(id) {
        ObjKind::List => match number(at) {
            Some(n) => objects.list_set(id, n, value),
            None => Op::Raises(BuiltClass::TypeError),
        },
        ObjKind::Dict => objects.dict_put(id, made!(at.share()), value, fuel),
        ObjKind::Instance(_) => Op::Raises(BuiltClass::TypeError),
    }
}

/// `del of[at]`: of a list at a step for each element, also where the index is no number, of a dict at the key's cost and a step for each pair.
#[tactic(auto, using(py_meaning::specs::Folds::views))]
pub fn delete_item(of: &Value, at: &Value, objects: &mut Objects, fuel: &mut Fuel) -> Op<()>
    ensures meant { UnlessMemory result (changes (delete_item of.now at.now) objects.old fuel.old ≡ (result, objects.new, fuel.new)) }
    ensures unchanged { UnlessDone result (objects.new ≡ objects.old) }
    ensures fuel { fuel.new ≤ fuel.old }
{
    if is_view(of) || is_view(at) {
        return Op::Leaves(Construct::View);
    }
    match of {
        Value::Ref(id) => delete_in_object(*id, at, objects, fuel),
        _ => Op::Raises(BuiltClass::TypeError),
    }
}

fn delete_in_object(id: ObjId, at: &Value, objects: &mut Objects, fuel: &mut Fuel) -> Op<()>
    ensures meant { UnlessMemory result (changes (delete_in_object id (kind_of (object_at objects.old id)) at.now) objects.old fuel.old ≡ (result, objects.new, fuel.new)) }
    ensures unchanged { UnlessDone result (objects.new ≡ objects.old) }
    ensures fuel { fuel.new ≤ fuel.old }
{
    match objects.kind(id) {
        ObjKind::List => delete_in_list(id, at, objects, fuel),
        ObjKind::Dict => {
            drop(done!(objects.dict_delete(id, at, fuel)));
            Op::Done(())
        }
        ObjKind::Instance(_) => Op::Raises(BuiltClass::TypeError),
    }
}

/// The cost comes first, also where the index is no number.
fn delete_in_list(list: ObjId, at: &Value, objects: &mut Objects, fuel: &mut Fuel) -> Op<()>
    ensures meant { UnlessMemory result (changes (delete_in_list list at.now) objects.old fuel.old ≡ (result, objects.new, fuel.new)) }
    ensures unchanged { UnlessDone result (objects.new ≡ objects.old) }
    ensures fuel { fuel.new ≤ fuel.old }
{
    if !fuel.take(objects.elements(list).len() as u64) {
        return Op::OutOfSteps;
    }
    match number(at) {
        Some(n) => {
            drop(done!(objects.list_remove_free(list, n)));
            Op::Done(())
        }
        None => Op::Raises(BuiltClass::TypeError),
    }
}
