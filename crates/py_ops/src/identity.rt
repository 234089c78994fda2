// `is` (Language Reference 6.10.3).
ghost use Rattle.std.specs.Prelude.{◌≡◌, ℕ};
ghost use Rattle.py_meaning.specs.Membership.{same_truth, identical};
ghost use Rattle.py_meaning.specs.declared.value.Value.{out-Value};

use py_objects::{Op, Value, is_same_single};
use pyn_base::Construct;

/// Whether two values are one object. Of two integers, strings, tuples or views the language doesn't say it, so these leave.
#[tactic(auto, using(py_meaning::specs::Folds::views))]
pub(crate) fn identical(a: &Value, b: &Value) -> Op<bool>
    ensures { (left : ℕ) → identical (out-Value a.now) (out-Value b.now) left ≡ (result, left) }
{
    match a {
        Value::Bool(x) => match b {
            Value::Bool(y) => Op::Done(is_same_truth(*x, *y)),
            _ => Op::Done(false),
        },
        Value::Int(_) => match b {
            Value::Int(_) => Op::Leaves(Construct::Identity),
            _ => Op::Done(false),
        },
        Value::Str(_) => match b {
            Value::Str(_) => Op::Leaves(Construct::Identity),
            _ => Op::Done(false),
        },
        Value::Tuple(_) => match b {
            Value::Tuple(_) => Op::Leaves(Construct::Identity),
            _ => Op::Done(false),
        },
        Value::View(_) => match b {
            Value::View(_) => Op::Leaves(Construct::Identity),
            _ => Op::Done(false),
        },
        _ => Op::Done(is_same_single(a, b)),
    }
}

fn is_same_truth(a: bool, b: bool) -> bool
    ensures { result ≡ same_truth a b }
{
    a == b
}
