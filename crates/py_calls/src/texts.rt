// `str` (the manual, "Built-in Functions").
ghost use Rattle.std.specs.Prelude.{◌≡◌, ◌≤◌, Some, IfOk};
ghost use Rattle.std.specs.Option.{option_map};
ghost use Rattle.py_meaning.specs.Builtins.{text_of_args};
ghost use Rattle.py_meaning.specs.Operations.{args_of};
ghost use Rattle.py_meaning.specs.Worlds.{object_at};
ghost use Rattle.py_plain.specs.Builtins.{text_of_instance, text_of_object, text_row};
ghost use Rattle.py_calls.specs.Texts.{AsksText};

use py_builtins::call_builtin;
use py_meaning::{Builtin, Op, PyTuple, Value, made};
use py_objects::{ObjKind, Objects};
use py_tables::Tables;
use pyn_base::{BuiltClass, ClassId, Construct, Fuel, Memory, ObjId};

/// The text of an exception with these arguments.
#[tactic(auto, using(py_meaning::specs::Folds::views))]
fn text_of_parts(parts: &[Value], objects: &mut Objects, fuel: &mut Fuel) -> Op<Value>
    ensures meant { AsksText (λ world. text_of_args (Some parts.now)) objects.old fuel.old result objects.new fuel.new }
    ensures fuel { fuel.new ≤ fuel.old }
{
    match parts {
        [] => call_builtin(Builtin::Str, parts, objects, fuel),
        [x] => match x {
            Value::Ref(_) => Op::Leaves(Construct::StrOf),
            _ => call_builtin(Builtin::Str, parts, objects, fuel),
        },
        _ => Op::Leaves(Construct::StrOf),
    }
}

/// What the interpreter gave as arguments isn't known.
fn text_of_args(args: Option<PyTuple>, objects: &mut Objects, fuel: &mut Fuel) -> Op<Value>
    ensures meant { AsksText (λ world. text_of_args (option_map (λ args. args.parts) args)) objects.old fuel.old result objects.new fuel.new }
    ensures fuel { fuel.new ≤ fuel.old }
{
    match args {
        None => Op::Leaves(Construct::ExceptionText),
        Some(args) => text_of_parts(args.as_slice(), objects, fuel),
    }
}

/// An exception's text is its argument's, but a KeyError's leaves.
fn text_of_instance(
    tables: &Tables,
    class: ClassId,
    args: Option<PyTuple>,
    objects: &mut Objects,
    fuel: &mut Fuel,
) -> Op<Value>
    ensures meant { AsksText (λ world. text_of_instance tables.now class (option_map (λ args. args.parts) args)) objects.old fuel.old result objects.new fuel.new }
    ensures fuel { fuel.new ≤ fuel.old }
{
    if tables.derives(class, ClassId::Built(BuiltClass::KeyError)) {
        return Op::Leaves(Construct::StrOf);
    }
    if tables.is_exception(class) {
        text_of_args(args, objects, fuel)
    } else {
        Op::Leaves(Construct::StrOf)
    }
}

/// The arguments of an exception, for one more owner.
fn args_of(objects: &Objects, id: ObjId) -> Result<Option<PyTuple>, Memory>
    ensures { IfOk result (λ args. args ≡ args_of (object_at objects.now id)) }
{
    match objects.args(id) {
        None => Ok(None),
        Some(args) => {
            let args = args.share()?;
            Ok(Some(args))
        }
    }
}

/// The text of the only argument, which is this object.
fn text_of_object(
    tables: &Tables,
    id: ObjId,
    args: &[Value],
    objects: &mut Objects,
    fuel: &mut Fuel,
) -> Op<Value>
    ensures meant { AsksText (λ world. text_of_object tables.now (object_at world id) args.now world) objects.old fuel.old result objects.new fuel.new }
    ensures fuel { fuel.new ≤ fuel.old }
{
    match objects.kind(id) {
        ObjKind::Instance(class) => {
            let args = made!(args_of(objects, id));
            text_of_instance(tables, class, args, objects, fuel)
        }
        ObjKind::List => call_builtin(Builtin::Str, args, objects, fuel),
        ObjKind::Dict => call_builtin(Builtin::Str, args, objects, fuel),
    }
}

/// `str`, of what may be an instance of a class of the module.
#[tactic(auto, using(py_meaning::specs::Folds::views))]
pub(crate) fn text_row(
    tables: &Tables,
    args: &[Value],
    objects: &mut Objects,
    fuel: &mut Fuel,
) -> Op<Value>
    ensures meant { AsksText (text_row tables.now args.now) objects.old fuel.old result objects.new fuel.new }
    ensures fuel { fuel.new ≤ fuel.old }
{
    match args {
        [x] => match x {
            Value::Ref(id) => text_of_object(tables, *id, args, objects, fuel),
            _ => call_builtin(Builtin::Str, args, objects, fuel),
        },
        _ => call_builtin(Builtin::Str, args, objects, fuel),
    }
}
