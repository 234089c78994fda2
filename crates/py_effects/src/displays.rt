// Displays whose parts are known (Language Reference 6.2.5, 6.2.7 and 6.15).
ghost use Rattle.std.specs.Prelude.{◌≡◌, ◌≤◌, IfOk};
ghost use Rattle.py_meaning.specs.Builtins.{tuple_of_parts};
ghost use Rattle.py_meaning.specs.Steps.{UnlessMemory};
ghost use Rattle.py_plain.specs.Displays.{makes_list, makes_tuple, makes_dict};

use crate::answers::{given, referred, settle};
use crate::{Finding, Outcome};
use py_meaning::{Op, PyTuple, Sequence, Value};
use py_objects::Objects;
use py_plain::State;
use pyn_base::{Construct, Fuel, Memory};
use std::alloc::Global;

/// A new list.
pub fn make_list<W: Drop>(
    s: &mut State<Objects, W>,
    items: Sequence<Value>,
) -> Result<Outcome<Finding>, Memory>
    ensures meant { IfOk result (λ end. makes_list items s.old ≡ (end, s.new)) }
    ensures spends { s.new.left ≤ s.old.left }
{
    let mut fuel = Fuel::new(s.left);
    let answer = s.objects.make_list(items.as_slice(), &mut fuel);
    s.left = fuel.left();
    let end = settle(s, answer)?;
    Ok(referred(s, end))
}

/// A tuple, at a step for each part. One that would be too deep leaves before anything is paid.
#[tactic(auto, unfolding(py_meaning::specs::Tuples::tuple))]
fn tuple_of(alloc: Global, parts: Sequence<Value>, fuel: &mut Fuel) -> Op<Value>
    ensures meant { UnlessMemory result (tuple_of_parts parts fuel.old ≡ (result, fuel.new)) }
    ensures fuel { fuel.new ≤ fuel.old }
{
    let cost = parts.len() as u64;
    match PyTuple::new(alloc, parts.into_vec()) {
        Ok(Some(tuple)) => {
            if fuel.take(cost) {
                Op::Done(Value::Tuple(tuple))
            } else {
                Op::OutOfSteps
            }
        }
        Ok(None) => Op::Leaves(Construct::TupleDepth),
        Err(Memory) => Op::Memory,
    }
}

/// A tuple.
pub fn make_tuple<W: Drop>(
    s: &mut State<Objects, W>,
    parts: Sequence<Value>,
) -> Result<Outcome<Finding>, Memory>
    ensures meant { IfOk result (λ end. makes_tuple parts s.old ≡ (end, s.new)) }
    ensures spends { s.new.left ≤ s.old.left }
{
    let mut fuel = Fuel::new(s.left);
    let answer = tuple_of(s.objects.alloc(), parts, &mut fuel);
    s.left = fuel.left();
    let end = settle(s, answer)?;
    Ok(given(s, end))
}

/// A new dict.
pub fn make_dict<W: Drop>(
    s: &mut State<Objects, W>,
    pairs: Sequence<(Value, Value)>,
) -> Result<Outcome<Finding>, Memory>
    ensures meant { IfOk result (λ end. makes_dict pairs s.old ≡ (end, s.new)) }
    ensures spends { s.new.left ≤ s.old.left }
{
    let mut fuel = Fuel::new(s.left);
    let answer = s.objects.make_dict(pairs.as_slice(), &mut fuel);
    s.left = fuel.left();
    let end = settle(s, answer)?;
    Ok(referred(s, end))
}
