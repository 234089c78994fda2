// `isinstance` (the manual, "Built-in Functions").
ghost use Rattle.std.specs.Prelude.{◌≡◌, ◌≤◌};
ghost use Rattle.py_meaning.specs.declared.value.Value.{out-Value};
ghost use Rattle.py_meaning.specs.Steps.{UnlessMemory};
ghost use Rattle.py_plain.specs.Builtins.{is_instance_of, is_instance, isinstance_row};

use py_lookups::class_of;
use py_meaning::{Op, Value, made};
use py_objects::Objects;
use py_tables::Tables;
use pyn_base::{BuiltClass, ClassId, Construct, Fuel};

/// Whether a class is one of these or derives from one, at a step for each that is tried.
#[tactic(auto, using(py_meaning::specs::Folds::views))]
fn is_instance_of(tables: &Tables, class: ClassId, classes: &[Value], fuel: &mut Fuel) -> Op<bool>
    ensures meant { is_instance_of tables.now class classes.now fuel.old ≡ (result, fuel.new) }
    ensures fuel { fuel.new ≤ fuel.old }
{
    for x in classes {
        match x {
            Value::Class(above) => {
                if !fuel.take(1) {
                    return Op::OutOfSteps;
                }
                if tables.derives(class, *above) {
                    return Op::Done(true);
                }
            }
            Value::Tuple(_) => return Op::Leaves(Construct::Argument),
            _ => return Op::Raises(BuiltClass::TypeError),
        }
    }
    Op::Done(false)
}

/// One class, or a flat tuple of classes.
#[tactic(auto, using(py_meaning::specs::Folds::views))]
fn is_instance(tables: &Tables, class: ClassId, of: &Value, fuel: &mut Fuel) -> Op<bool>
    ensures meant { UnlessMemory result (is_instance tables.now class of.now (out-Value of.now) fuel.old ≡ (result, fuel.new)) }
    ensures fuel { fuel.new ≤ fuel.old }
{
    match of {
        Value::Tuple(classes) => is_instance_of(tables, class, classes.as_slice(), fuel),
        _ => {
            let one = [made!(of.share())];
            is_instance_of(tables, class, &one, fuel)
        }
    }
}

/// `isinstance`, of a value and what it may be an instance of.
pub(crate) fn isinstance_row(
    tables: &Tables,
    objects: &Objects,
    args: &[Value],
    fuel: &mut Fuel,
) -> Op<bool>
    ensures meant { UnlessMemory result (isinstance_row tables.now args.now objects.now fuel.old ≡ (result, fuel.new)) }
    ensures fuel { fuel.new ≤ fuel.old }
{
    match args {
        [x, of] => is_instance(tables, class_of(objects, x), of, fuel),
        _ => Op::Raises(BuiltClass::TypeError),
    }
}
