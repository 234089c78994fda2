// Augmented assignments' operators (Language Reference 7.2.1).
ghost use Rattle.std.specs.Prelude.{◌≡◌, ◌≤◌, Some};
ghost use Rattle.py_meaning.specs.Steps.{changes, UnlessMemory, UnlessDone};
ghost use Rattle.py_meaning.specs.Operators.{augment, augment_at, list_named, extend_list, repeat_list};
ghost use Rattle.py_meaning.specs.declared.value.Value.{out-Value};

use crate::arithmetic::binary;
use crate::repeat::{count_or_zero, pay_repeated, repeated_values};
use py_meaning::{done, made};
use py_objects::{Objects, Op, Value, is_view, is_within_machine, number};
use py_syntax::BinOp;
use pyn_base::{BuiltClass, Construct, Fuel, ObjId};

/// An augmented assignment's operator. `+=` puts all that is walked at a list's end, and `*=` repeats a list in place, at a
/// step for each element that is walked or that the list then has: the answer is the same list. All else is as the operator.
pub fn augment(op: BinOp, a: &Value, b: &Value, objects: &mut Objects, fuel: &mut Fuel) -> Op<Value>
    ensures meant { UnlessMemory result (changes (augment op a.now b.now) objects.old fuel.old ≡ (result, objects.new, fuel.new)) }
    ensures unchanged { UnlessDone result (objects.new ≡ objects.old) }
    ensures fuel { fuel.new ≤ fuel.old }
{
    match list_named(a, objects) {
        Some(list) => augment_list(list, op, a, b, objects, fuel),
        None => binary(op, a, b, objects, fuel),
    }
}

/// The list that a value names.
#[tactic(auto, using(py_meaning::specs::Folds::views))]
fn list_named(value: &Value, objects: &Objects) -> Option<ObjId>
    ensures { result ≡ list_named objects.now (out-Value value.now) }
{
    match value {
        Value::Ref(id) if objects.is_list(*id) => Some(*id),
        _ => None,
    }
}

fn augment_list(
    list: ObjId,
    op: BinOp,
    a: &Value,
    b: &Value,
    objects: &mut Objects,
    fuel: &mut Fuel,
) -> Op<Value>
    ensures meant { UnlessMemory result (changes (augment_at (Some list) op a.now b.now) objects.old fuel.old ≡ (result, objects.new, fuel.new)) }
    ensures unchanged { UnlessDone result (objects.new ≡ objects.old) }
    ensures fuel { fuel.new ≤ fuel.old }
{
    match op {
        BinOp::Add => extend_list(list, b, objects, fuel),
        BinOp::Mul => repeat_list(list, b, objects, fuel),
        _ => binary(op, a, b, objects, fuel),
    }
}

/// What is walked is taken first, so that a list can grow by itself.
fn extend_list(list: ObjId, b: &Value, objects: &mut Objects, fuel: &mut Fuel) -> Op<Value>
    ensures meant { UnlessMemory result (changes (extend_list list b.now) objects.old fuel.old ≡ (result, objects.new, fuel.new)) }
    ensures unchanged { UnlessDone result (objects.new ≡ objects.old) }
    ensures fuel { fuel.new ≤ fuel.old }
{
    let items = done!(objects.walk(b, fuel));
    made!(objects.list_extend_free(list, items.into_vec()));
    Op::Done(Value::Ref(list))
}

fn repeat_list(list: ObjId, b: &Value, objects: &mut Objects, fuel: &mut Fuel) -> Op<Value>
    ensures meant { UnlessMemory result (changes (repeat_list list b.now) objects.old fuel.old ≡ (result, objects.new, fuel.new)) }
    ensures unchanged { UnlessDone result (objects.new ≡ objects.old) }
    ensures fuel { fuel.new ≤ fuel.old }
{
    if is_view(b) {
        return Op::Leaves(Construct::View);
    }
    let Some(count) = number(b) else {
        return Op::Raises(BuiltClass::TypeError);
    };
    if !is_within_machine(count) {
        return Op::Leaves(Construct::MachineSize);
    }
    let count = count_or_zero(count);
    if !pay_repeated(count, objects.elements(list).len(), fuel) {
        return Op::OutOfSteps;
    }
    let items = made!(repeated_values(objects.alloc(), objects.elements(list), count));
    made!(objects.set_elements(list, items));
    Op::Done(Value::Ref(list))
}
