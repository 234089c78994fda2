// `abs` and `int`.
ghost use Rattle.std.specs.Prelude.{◌≡◌, ◌≤◌, ℕ, Some, pos, nat_abs};
ghost use Rattle.py_meaning.specs.declared.value.Value.{out-Value};
ghost use Rattle.py_meaning.specs.Builtins.{abs_row, int_row, integer_of, integer_of_text, integer_or_type_error};

use py_objects::{Op, Value, number};
use py_text::{is_ascii, spelled};
use pyn_base::{BuiltClass, Construct, Fuel, PyInt};

pub(crate) fn abs_row(args: &[Value]) -> Op<Value>
    ensures { (left : ℕ) → abs_row args.now left ≡ (result, left) }
{
    match args {
        [value] => match number(value) {
            Some(n) => Op::Done(Value::Int(absolute(n))),
            None => Op::Raises(BuiltClass::TypeError),
        },
        _ => Op::Raises(BuiltClass::TypeError),
    }
}

/// A number without its sign. The range is as wide below 0 as above.
fn absolute(n: PyInt) -> PyInt
    ensures { result ≡ pos (nat_abs n) }
{
    let zero = PyInt::from(0);
    if !n.is_less(zero) {
        return n;
    }
    match zero.sub(n) {
        Some(size) => size,
        None => unreachable!(),
    }
}

/// The integer of a text, at a step for each character, or of a number.
pub(crate) fn int_row(args: &[Value], fuel: &mut Fuel) -> Op<Value>
    ensures meant { int_row args.now fuel.old ≡ (result, fuel.new) }
    ensures fuel { fuel.new ≤ fuel.old }
{
    match args {
        [] => Op::Done(Value::Int(PyInt::from(0))),
        [value] => integer_of(value, fuel),
        [_, _] => Op::Leaves(Construct::Argument),
        _ => Op::Raises(BuiltClass::TypeError),
    }
}

#[tactic(auto, using(py_meaning::specs::Folds::views))]
fn integer_of(value: &Value, fuel: &mut Fuel) -> Op<Value>
    ensures meant { integer_of (out-Value value.now) fuel.old ≡ (result, fuel.new) }
    ensures fuel { fuel.new ≤ fuel.old }
{
    match value {
        Value::Str(text) => integer_of_text(text.as_slice(), fuel),
        Value::Bool(_) => integer_or_type_error(number(value)),
        Value::Int(_) => integer_or_type_error(number(value)),
        _ => Op::Raises(BuiltClass::TypeError),
    }
}

fn integer_or_type_error(n: Option<PyInt>) -> Op<Value>
    ensures { (left : ℕ) → integer_or_type_error n left ≡ (result, left) }
{
    match n {
        Some(n) => Op::Done(Value::Int(n)),
        None => Op::Raises(BuiltClass::TypeError),
    }
}

fn integer_of_text(text: &[char], fuel: &mut Fuel) -> Op<Value>
    ensures meant { integer_of_text text.now fuel.old ≡ (result, fuel.new) }
    ensures fuel { fuel.new ≤ fuel.old }
{
    if !fuel.take(text.len() as u64) {
        Op::OutOfSteps
    } else if is_ascii(text) {
        spelled(text)
    } else {
        Op::Leaves(Construct::NonAsciiText)
    }
}
