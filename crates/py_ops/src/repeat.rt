// Repetition of strings, tuples and lists (the manual, "Common Sequence Operations").
ghost use Rattle.std.specs.Prelude.{◌≡◌, ◌≤◌, ◌*◌, ◌-◌, nat_le, if◌then◌else◌, IfOk};
ghost use Rattle.std.specs.List.{repeat};
ghost use Rattle.py_meaning.specs.Steps.{changes, UnlessMemory, UnlessDone};
ghost use Rattle.py_meaning.specs.Arithmetic.{in_machine, count_or_zero, repeated_text, repeated_tuple, repeat_ref};

use py_meaning::{made, new_tuple};
use py_objects::{Objects, Op, PyStr, Value, is_within_machine, shared_all};
use pyn_base::{BuiltClass, Construct, Fuel, Memory, ObjId, PyInt};
use std::alloc::Global;

/// A count below 0 counts as 0.
pub(crate) fn count_or_zero(n: PyInt) -> u128
    ensures { result ≡ count_or_zero n }
{
    if n.get() > 0 { n.get() as u128 } else { 0 }
}

/// Takes a step for each element of what is repeated, or nothing where fewer are left. The product may be above every number
/// of steps.
pub(crate) fn pay_repeated(count: u128, size: usize, fuel: &mut Fuel) -> bool
    ensures enough { result ≡ nat_le (count * size) fuel.old }
    ensures left { fuel.new ≡ (if nat_le (count * size) fuel.old then fuel.old - count * size else fuel.old) }
    ensures fuel { fuel.new ≤ fuel.old }
{
    let left = fuel.left() as u128;
    let cost = count.saturating_mul(size as u128);
    if cost <= left {
        fuel.take(cost as u64)
    } else {
        false
    }
}

pub(crate) fn repeat_text(
    alloc: Global,
    s: &[char],
    count: Option<PyInt>,
    fuel: &mut Fuel,
) -> Op<Value>
    ensures meant { UnlessMemory result (in_machine count (repeated_text s.now) fuel.old ≡ (result, fuel.new)) }
    ensures fuel { fuel.new ≤ fuel.old }
{
    let Some(count) = count else {
        return Op::Raises(BuiltClass::TypeError);
    };
    if !is_within_machine(count) {
        return Op::Leaves(Construct::MachineSize);
    }
    let count = count_or_zero(count);
    if !pay_repeated(count, s.len(), fuel) {
        return Op::OutOfSteps;
    }
    Op::Done(Value::Str(made!(repeated_text(alloc, s, count))))
}

pub(crate) fn repeat_tuple(
    alloc: Global,
    parts: &[Value],
    count: Option<PyInt>,
    fuel: &mut Fuel,
) -> Op<Value>
    ensures meant { UnlessMemory result (in_machine count (repeated_tuple parts.now) fuel.old ≡ (result, fuel.new)) }
    ensures fuel { fuel.new ≤ fuel.old }
{
    let Some(count) = count else {
        return Op::Raises(BuiltClass::TypeError);
    };
    if !is_within_machine(count) {
        return Op::Leaves(Construct::MachineSize);
    }
    let count = count_or_zero(count);
    if !pay_repeated(count, parts.len(), fuel) {
        return Op::OutOfSteps;
    }
    new_tuple(alloc, made!(repeated_values(alloc, parts, count)))
}

/// A new list, where the reference names one.
pub(crate) fn repeat_ref(
    id: ObjId,
    count: Option<PyInt>,
    objects: &mut Objects,
    fuel: &mut Fuel,
) -> Op<Value>
    ensures meant { UnlessMemory result (changes (repeat_ref id count) objects.old fuel.old ≡ (result, objects.new, fuel.new)) }
    ensures unchanged { UnlessDone result (objects.new ≡ objects.old) }
    ensures fuel { fuel.new ≤ fuel.old }
{
    if !objects.is_list(id) {
        return Op::Raises(BuiltClass::TypeError);
    }
    let Some(count) = count else {
        return Op::Raises(BuiltClass::TypeError);
    };
    if !is_within_machine(count) {
        return Op::Leaves(Construct::MachineSize);
    }
    let count = count_or_zero(count);
    if !pay_repeated(count, objects.elements(id).len(), fuel) {
        return Op::OutOfSteps;
    }
    let items = made!(repeated_values(objects.alloc(), objects.elements(id), count));
    Op::Done(Value::Ref(made!(objects.new_list(items))))
}

fn repeated_text(alloc: Global, s: &[char], count: u128) -> Result<PyStr, Memory>
    ensures { IfOk result (λ text. text ≡ repeat count s.now) }
{
    PyStr::from_vec(alloc, repeated_letters(alloc, s, count)?)
}

/// Takes no turn where there is nothing to repeat, however great the count.
#[tactic(auto, using(crate::proofs::Repeats::turns))]
fn repeated_letters(alloc: Global, s: &[char], count: u128) -> Result<Vec<char>, Memory>
    ensures { IfOk result (λ letters. letters.items ≡ repeat count s.now) }
{
    let mut letters = Vec::new(alloc);
    if s.is_empty() {
        return Ok(letters);
    }
    for at in 0..count {
        letters.extend_from_slice(s)?;
    }
    Ok(letters)
}

/// The same of values, for one more owner each.
#[tactic(auto, using(crate::proofs::Repeats::turns))]
pub(crate) fn repeated_values(
    alloc: Global,
    items: &[Value],
    count: u128,
) -> Result<Vec<Value>, Memory>
    ensures { IfOk result (λ values. values.items ≡ repeat count items.now) }
{
    let mut values = Vec::new(alloc);
    if items.is_empty() {
        return Ok(values);
    }
    for at in 0..count {
        let mut more = shared_all(alloc, items)?;
        values.append(&mut more)?;
    }
    Ok(values)
}
