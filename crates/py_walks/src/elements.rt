// What a `for` walks: one element at a time, of what is there at that turn (Language Reference 8.3).
ghost use Rattle.std.specs.Prelude.{◌≡◌, ◌∷◌, [], length, slice_get, pos, ◌+ℤ◌, ◌*ℤ◌, nat_lt, if◌then◌else◌, Some, None, IfOk};
ghost use Rattle.py_meaning.specs.Walk.{walked_view};
ghost use Rattle.std.specs.Option.{option_copied, option_map};
ghost use Rattle.py_meaning.specs.declared.value.Value.{out-Value};
ghost use Rattle.py_meaning.specs.declared.value.Value.TheVariants as v;
ghost use Rattle.py_meaning.specs.Operations.{kind_of};
ghost use Rattle.py_meaning.specs.Worlds.{object_at};
ghost use Rattle.py_plain.specs.Loops.{pair_item, element_of_object, element_of_view, element_at};

use py_meaning::{Measured, PyStr, Shared, Value, View, deepest};
use py_objects::{ObjKind, Objects};
use pyn_base::{Memory, ObjId, PyInt};
use std::alloc::Global;

/// A value that may be there, for one more owner.
fn shared(x: Option<&Value>) -> Result<Option<Value>, Memory>
    ensures { IfOk result (λ found. found ≡ option_copied x.entry) }
{
    match x {
        None => Ok(None),
        Some(x) => {
            let x = x.share()?;
            Ok(Some(x))
        }
    }
}

/// An element of a list or a tuple, for one more owner.
fn element_of(elements: &[Value], at: u64) -> Result<Option<Value>, Memory>
    ensures { IfOk result (λ found. found ≡ slice_get elements.now at) }
{
    shared(elements.get(at as usize))
}

/// A character of a string, as a string of its own.
fn character(alloc: Global, letters: &[char], at: u64) -> Result<Option<Value>, Memory>
    ensures { IfOk result (λ found. found ≡ option_map (λ c. v.Str (c ∷ [])) (slice_get letters.now at)) }
{
    match letters.get(at as usize) {
        None => Ok(None),
        Some(c) => {
            let mut one = Vec::new(alloc);
            one.push(*c)?;
            Ok(Some(Value::Str(PyStr::from_vec(alloc, one)?)))
        }
    }
}

/// A pair of a dict as a tuple, which may be too deep.
#[tactic(auto, unfolding(py_meaning::specs::Tuples::tuple))]
fn pair_item(alloc: Global, key: &Value, x: &Value) -> Result<Value, Memory>
    ensures { IfOk result (λ made. made ≡ pair_item (key.now, x.now)) }
{
    let mut parts = Vec::new(alloc);
    parts.push(key.share()?)?;
    parts.push(x.share()?)?;
    let Some(depth) = deepest(parts.as_slice()).checked_add(1) else {
        return Err(Memory);
    };
    let parts = Shared::from_vec(alloc, parts)?;
    Ok(Value::Tuple(Measured { parts, depth }))
}

fn element_of_object(objects: &Objects, id: ObjId, at: u64) -> Result<Option<Value>, Memory>
    ensures { IfOk result (λ found. found ≡ element_of_object objects.now id (kind_of (object_at objects.now id)) at) }
{
    match objects.kind(id) {
        ObjKind::List => element_of(objects.elements(id), at),
        ObjKind::Dict => match objects.pair_at(id, at) {
            None => Ok(None),
            Some(pair) => shared(Some(pair.0)),
        },
        ObjKind::Instance(_) => Ok(None),
    }
}

/// How many elements a view has.
#[tactic(auto, using(py_meaning::specs::Folds::views))]
fn view_length(objects: &Objects, view: View) -> u64
    ensures { result ≡ length (walked_view objects.now view) }
{
    match objects.length(&Value::View(view)) {
        None => unreachable!(),
        Some(count) => count,
    }
}

fn integer(n: i64) -> PyInt
    ensures { result ≡ n }
{
    match PyInt::new(n as i128) {
        Some(n) => n,
        None => unreachable!(),
    }
}

fn product(a: PyInt, b: PyInt) -> Result<PyInt, Memory>
    ensures { IfOk result (λ n. n ≡ a *ℤ b) }
{
    match a.mul(b) {
        None => Err(Memory),
        Some(n) => Ok(n),
    }
}

fn sum(a: PyInt, b: PyInt) -> Result<PyInt, Memory>
    ensures { IfOk result (λ n. n ≡ a +ℤ b) }
{
    match a.add(b) {
        None => Err(Memory),
        Some(n) => Ok(n),
    }
}

/// The integer that many steps after the start of a range.
fn integer_at(start: i64, step: i64, at: u64) -> Result<PyInt, Memory>
    ensures { IfOk result (λ n. n ≡ start +ℤ (pos at *ℤ step)) }
{
    let distance = product(PyInt::from(at), integer(step))?;
    let n = sum(integer(start), distance)?;
    Ok(n)
}

/// The integer of a range at a place, if the range has so many.
fn element_of_range(start: i64, step: i64, count: u64, at: u64) -> Result<Option<Value>, Memory>
    ensures { IfOk result (λ found. found ≡ (if nat_lt at count then Some (v.Int (start +ℤ (pos at *ℤ step))) else None)) }
{
    if at < count {
        let n = integer_at(start, step, at)?;
        Ok(Some(Value::Int(n)))
    } else {
        Ok(None)
    }
}

#[tactic(auto, using(crate::proofs::Ranges::ranges))]
fn element_of_view(objects: &Objects, view: View, at: u64) -> Result<Option<Value>, Memory>
    ensures { IfOk result (λ found. found ≡ element_of_view objects.now view at) }
{
    match view {
        View::Range(start, _, step) => {
            let found = element_of_range(start, step, view_length(objects, view), at)?;
            Ok(found)
        }
        View::Keys(dict) => match objects.pair_at(dict, at) {
            None => Ok(None),
            Some(pair) => shared(Some(pair.0)),
        },
        View::Values(dict) => match objects.pair_at(dict, at) {
            None => Ok(None),
            Some(pair) => shared(Some(pair.1)),
        },
        View::Items(dict) => match objects.pair_at(dict, at) {
            None => Ok(None),
            Some(pair) => {
                let pair = pair_item(objects.alloc(), pair.0, pair.1)?;
                Ok(Some(pair))
            }
        },
    }
}

/// The element at a place of what is walked, if there is one now.
#[tactic(auto, using(py_meaning::specs::Folds::views))]
pub fn element_at(objects: &Objects, x: &Value, at: u64) -> Result<Option<Value>, Memory>
    ensures { IfOk result (λ found. found ≡ element_at objects.now (out-Value x.now) at) }
{
    match x {
        Value::Str(s) => character(objects.alloc(), s.as_slice(), at),
        Value::Tuple(tuple) => element_of(tuple.as_slice(), at),
        Value::Ref(id) => element_of_object(objects, *id, at),
        Value::View(view) => element_of_view(objects, *view, at),
        _ => Ok(None),
    }
}
