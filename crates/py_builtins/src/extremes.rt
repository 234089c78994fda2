// `min` and `max`: the first of the least or the greatest.
ghost use Rattle.std.specs.Prelude.{◌≡◌, ◌≤◌, ◌∷◌, []};
ghost use Rattle.py_meaning.specs.Steps.{UnlessMemory};
ghost use Rattle.py_meaning.specs.Builtins.{best_row, best, best_from};
ghost use Rattle.py_builtins.specs.Extremes.{better};

use py_meaning::{done, made};
use py_objects::{Objects, Op, Order, Value};
use pyn_base::{BuiltClass, Fuel};

/// Which of many values is wanted.
#[derive(Clone, Copy)]
pub(crate) enum Extreme {
    Least,
    Greatest,
}

/// The best of what is walked, or of two arguments or more, at a step for each and the comparisons' cost.
pub(crate) fn best_row(
    which: Extreme,
    args: &[Value],
    objects: &Objects,
    fuel: &mut Fuel,
) -> Op<Value>
    ensures meant { UnlessMemory result (best_row (better which objects.now) args.now objects.now fuel.old ≡ (result, fuel.new)) }
    ensures fuel { fuel.new ≤ fuel.old }
{
    match args {
        [] => Op::Raises(BuiltClass::TypeError),
        [value] => best_item(which, value, objects, fuel),
        _ => {
            if fuel.take(args.len() as u64) {
                best(which, args, objects, fuel)
            } else {
                Op::OutOfSteps
            }
        }
    }
}

fn best_item(which: Extreme, value: &Value, objects: &Objects, fuel: &mut Fuel) -> Op<Value>
    ensures meant { UnlessMemory result (best_row (better which objects.now) (value.now ∷ []) objects.now fuel.old ≡ (result, fuel.new)) }
    ensures fuel { fuel.new ≤ fuel.old }
{
    let items = done!(objects.walk(value, fuel));
    best(which, items.as_slice(), objects, fuel)
}

/// The best of all items; of none ValueError is raised.
fn best(which: Extreme, items: &[Value], objects: &Objects, fuel: &mut Fuel) -> Op<Value>
    ensures meant { UnlessMemory result (best (better which objects.now) items.now fuel.old ≡ (result, fuel.new)) }
    ensures fuel { fuel.new ≤ fuel.old }
{
    match items {
        [] => Op::Raises(BuiltClass::ValueError),
        [first, rest @ ..] => best_from(which, first, rest, objects, fuel),
    }
}

/// An item that is better takes the place of the best one so far; one that is equal to it doesn't.
fn best_from(
    which: Extreme,
    first: &Value,
    rest: &[Value],
    objects: &Objects,
    fuel: &mut Fuel,
) -> Op<Value>
    ensures meant { UnlessMemory result (best_from (better which objects.now) first.now rest.now fuel.old ≡ (result, fuel.new)) }
    ensures fuel { fuel.new ≤ fuel.old }
{
    let mut best = first;
    for item in rest {
        if done!(better(which, item, best, objects, fuel)) {
            best = item;
        }
    }
    Op::Done(made!(best.share()))
}

/// Whether an item is put in another's place.
fn better(
    which: Extreme,
    item: &Value,
    best: &Value,
    objects: &Objects,
    fuel: &mut Fuel,
) -> Op<bool>
    ensures meant { better which objects.now item.now best.now fuel.old ≡ (result, fuel.new) }
    ensures fuel { fuel.new ≤ fuel.old }
{
    match which {
        Extreme::Least => objects.order(Order::Less, item, best, fuel),
        Extreme::Greatest => objects.order(Order::Less, best, item, fuel),
    }
}
