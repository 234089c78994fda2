// `sum`: a start and all that is walked, added one after another.
ghost use Rattle.std.specs.Prelude.{◌≡◌, ◌≤◌, length, take};
ghost use Rattle.py_meaning.specs.Steps.{changes, UnlessMemory, UnlessDone};
ghost use Rattle.py_meaning.specs.declared.value.Value.{out-Value};
ghost use Rattle.py_meaning.specs.Builtins.{sum_row, sum_of, add_all_to, add_all};
ghost use Rattle.py_builtins.specs.Held.{beside};

use py_meaning::{done, made};
use py_objects::{Objects, Op, Value};
use pyn_base::{BuiltClass, Fuel, PyInt};

/// The sum of what is walked, from 0 or from a start: a step for each item and each addition's cost.
pub(crate) fn sum_row(args: &[Value], objects: &mut Objects, fuel: &mut Fuel) -> Op<Value>
    ensures meant { UnlessMemory result (changes (sum_row args.now) objects.old fuel.old ≡ (result, objects.new, fuel.new)) }
    ensures unchanged { UnlessDone result (objects.new ≡ objects.old) }
    ensures fuel { fuel.new ≤ fuel.old }
{
    match args {
        [value] => sum_of(value, &Value::Int(PyInt::from(0)), objects, fuel),
        [value, start] => sum_of(value, start, objects, fuel),
        _ => Op::Raises(BuiltClass::TypeError),
    }
}

fn sum_of(value: &Value, start: &Value, objects: &mut Objects, fuel: &mut Fuel) -> Op<Value>
    ensures meant { UnlessMemory result (changes (sum_of value.now start.now) objects.old fuel.old ≡ (result, objects.new, fuel.new)) }
    ensures unchanged { UnlessDone result (objects.new ≡ objects.old) }
    ensures fuel { fuel.new ≤ fuel.old }
{
    let items = done!(objects.walk(value, fuel));
    add_all_to(start, items.as_slice(), objects, fuel)
}

/// A start that is a text is refused.
#[tactic(auto, using(py_meaning::specs::Folds::views))]
fn add_all_to(start: &Value, items: &[Value], objects: &mut Objects, fuel: &mut Fuel) -> Op<Value>
    ensures meant { UnlessMemory result (changes (add_all_to (out-Value start.now) start.now items.now) objects.old fuel.old ≡ (result, objects.new, fuel.new)) }
    ensures unchanged { UnlessDone result (objects.new ≡ objects.old) }
    ensures fuel { fuel.new ≤ fuel.old }
{
    match start {
        Value::Str(_) => Op::Raises(BuiltClass::TypeError),
        _ => add_all(start, items, objects, fuel),
    }
}

/// Each sum of two lists is a new list. Where an addition fails, the lists made before it are removed.
fn add_all(start: &Value, items: &[Value], objects: &mut Objects, fuel: &mut Fuel) -> Op<Value>
    ensures meant { UnlessMemory result (changes (add_all start.now items.now) objects.old fuel.old ≡ (result, objects.new, fuel.new)) }
    ensures unchanged { UnlessDone result (objects.new ≡ objects.old) }
    ensures fuel { fuel.new ≤ fuel.old }
{
    let count = objects.count();
    match add_each(start, items, objects, fuel) {
        Op::Done(total) => Op::Done(total),
        fault => {
            objects.cut(count);
            fault
        }
    }
}

/// The same, with the lists made on the way still there after a fault.
fn add_each(start: &Value, items: &[Value], objects: &mut Objects, fuel: &mut Fuel) -> Op<Value>
    ensures meant { UnlessMemory result (add_all start.now items.now objects.old fuel.old ≡ (beside result objects.new, fuel.new)) }
    ensures kept { take (length objects.old) objects.new ≡ objects.old }
    ensures fuel { fuel.new ≤ fuel.old }
{
    let mut total = made!(start.share());
    for item in items {
        match objects.add(&total, item, fuel) {
            Op::Done(sum) => total = sum,
            fault => return fault,
        }
    }
    Op::Done(total)
}
