// `range`: what walks integers without a list of them.
ghost use Rattle.std.specs.Prelude.{◌≡◌, ℕ, pos, Some, None, if◌then◌else◌};
ghost use Rattle.py_meaning.specs.declared.value.Value.{out-Value};
ghost use Rattle.py_meaning.specs.Values.{number_of};
ghost use Rattle.py_meaning.specs.Worlds.{within_machine};
ghost use Rattle.py_meaning.specs.Builtins.{range_row, range_of};

use py_objects::{Op, Value, View, number};
use pyn_base::{BuiltClass, Construct, PyInt};

/// The greatest number that a machine counts, and the least below 0.
const MACHINE_SIZE: i128 = 1 << 61;

/// A range by its stop, by start and stop, or by all three. A step of 0 raises ValueError, and a number beyond what a machine
/// counts leaves.
pub(crate) fn range_row(args: &[Value]) -> Op<Value>
    ensures { (left : ℕ) → range_row args.now left ≡ (result, left) }
{
    match args {
        [stop] => range_to(stop),
        [start, stop] => range_between(start, stop),
        [start, stop, step] => range_of(number(start), number(stop), number(step)),
        _ => Op::Raises(BuiltClass::TypeError),
    }
}

fn range_to(stop: &Value) -> Op<Value>
    ensures { (left : ℕ) → range_of (Some (pos 0)) (number_of (out-Value stop.now)) (Some (pos 1)) left ≡ (result, left) }
{
    range_of(Some(PyInt::from(0)), number(stop), Some(PyInt::from(1)))
}

fn range_between(start: &Value, stop: &Value) -> Op<Value>
    ensures { (left : ℕ) → range_of (number_of (out-Value start.now)) (number_of (out-Value stop.now)) (Some (pos 1)) left ≡ (result, left) }
{
    range_of(number(start), number(stop), Some(PyInt::from(1)))
}

fn range_of(start: Option<PyInt>, stop: Option<PyInt>, step: Option<PyInt>) -> Op<Value>
    ensures { (left : ℕ) → range_of start stop step left ≡ (result, left) }
{
    match (start, stop, step) {
        (Some(start), Some(stop), Some(step)) => {
            match (machine(start), machine(stop), machine(step)) {
                (Some(start), Some(stop), Some(step)) => if step == 0 {
                    Op::Raises(BuiltClass::ValueError)
                } else {
                    Op::Done(Value::View(View::Range(start, stop, step)))
                },
                _ => Op::Leaves(Construct::MachineSize),
            }
        }
        _ => Op::Raises(BuiltClass::TypeError),
    }
}

/// A number as what a machine counts.
fn machine(n: PyInt) -> Option<i64>
    ensures { result ≡ (if within_machine n then Some n else None) }
{
    let n = n.get();
    if -MACHINE_SIZE <= n && n <= MACHINE_SIZE {
        Some(n as i64)
    } else {
        None
    }
}
