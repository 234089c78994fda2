// Comparisons (Language Reference 6.10).
ghost use Rattle.std.specs.Prelude.{◌≡◌, ◌≤◌};
ghost use Rattle.py_meaning.specs.Steps.{done, UnlessMemory};
ghost use Rattle.py_meaning.specs.Operators.{compare};

use crate::identity::identical;
use crate::membership::contains;
use py_meaning::done;
use py_objects::{Objects, Op, Order, Value};
use py_syntax::CmpOp;
use pyn_base::Fuel;

/// A comparison's answer, at the cost of what is compared. `is` costs nothing.
pub fn compare(op: CmpOp, a: &Value, b: &Value, objects: &Objects, fuel: &mut Fuel) -> Op<bool>
    ensures meant { UnlessMemory result (compare op a.now b.now objects.now fuel.old ≡ (result, fuel.new)) }
    ensures fuel { fuel.new ≤ fuel.old }
{
    match op {
        CmpOp::Eq => objects.equal(a, b, fuel),
        CmpOp::Ne => Op::Done(!done!(objects.equal(a, b, fuel))),
        CmpOp::Lt => objects.order(Order::Less, a, b, fuel),
        CmpOp::Gt => objects.order(Order::Greater, a, b, fuel),
        CmpOp::Le => objects.order(Order::AtMost, a, b, fuel),
        CmpOp::Ge => objects.order(Order::AtLeast, a, b, fuel),
        CmpOp::Contained => contains(a, b, objects, fuel),
        CmpOp::NotContained => Op::Done(!done!(contains(a, b, objects, fuel))),
        CmpOp::Same => identical(a, b),
        CmpOp::NotSame => Op::Done(!done!(identical(a, b))),
    }
}
