// A call of a built-in function or type.
ghost use Rattle.std.specs.Prelude.{◌≡◌, ◌≤◌};
ghost use Rattle.py_meaning.specs.Steps.{changes, UnlessMemory, UnlessDone};
ghost use Rattle.py_meaning.specs.Builtins.{call_builtin};

use crate::collections::{bool_row, dict_row, len_row, list_row, tuple_row};
use crate::extremes::{Extreme, best_row};
use crate::numbers::{abs_row, int_row};
use crate::ranges::range_row;
use crate::sums::sum_row;
use crate::texts::str_row;
use py_meaning::Builtin;
use py_objects::{Objects, Op, Value};
use pyn_base::{Construct, Fuel};

/// Calls a built-in function or type (the manual, "Built-in Functions"). A number of arguments that it hasn't raises
/// TypeError, and arguments of Python's own beyond the supported subset leave. `isinstance` and `object` leave here: the
/// one asks for the module's classes, and the other makes an object of a class.
pub fn call_builtin(
    id: Builtin,
    args: &[Value],
    objects: &mut Objects,
    fuel: &mut Fuel,
) -> Op<Value>
    ensures meant { UnlessMemory result (changes (call_builtin id args.now) objects.old fuel.old ≡ (result, objects.new, fuel.new)) }
    ensures unchanged { UnlessDone result (objects.new ≡ objects.old) }
    ensures fuel { fuel.new ≤ fuel.old }
{
    match id {
        Builtin::Len => len_row(args, objects),
        Builtin::Abs => abs_row(args),
        Builtin::Min => best_row(Extreme::Least, args, objects, fuel),
        Builtin::Max => best_row(Extreme::Greatest, args, objects, fuel),
        Builtin::Sum => sum_row(args, objects, fuel),
        Builtin::Str => str_row(args, objects, fuel),
        Builtin::Int => int_row(args, fuel),
        Builtin::Bool => bool_row(args, objects),
        Builtin::List => list_row(args, objects, fuel),
        Builtin::Tuple => tuple_row(args, objects, fuel),
        Builtin::Dict => dict_row(args, objects, fuel),
        Builtin::Range => range_row(args),
        Builtin::Isinstance => Op::Leaves(Construct::Argument),
        Builtin::Print => Op::Done(Value::None),
        Builtin::Object => Op::Leaves(Construct::Argument),
    }
}
