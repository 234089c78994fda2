// `str`: the texts of values and of exceptions.
ghost use Rattle.std.specs.Prelude.{◌≡◌, ◌≤◌, [], Some, codes, IfOk};
ghost use Rattle.std.specs.Option.{option_copied, option_map};
ghost use Rattle.py_meaning.specs.Steps.{UnlessMemory};
ghost use Rattle.py_meaning.specs.declared.value.Value.{out-Value};
ghost use Rattle.py_meaning.specs.Worlds.{object_at};
ghost use Rattle.py_meaning.specs.Operations.{kind_of, args_of};
ghost use Rattle.py_meaning.specs.Builtins.{str_row, text_of_value, text_of_object, text_of_args, text_or_leaves, plain_text};

use py_meaning::made;
use py_objects::{ObjKind, Objects, Op, PyStr, PyTuple, Value, is_same_class};
use py_text::{integer_text, truth_text};
use pyn_base::{BuiltClass, ClassId, Construct, Fuel, Memory, ObjId};
use std::alloc::Global;

/// The text of a value, at a step for each of its characters.
pub(crate) fn str_row(args: &[Value], objects: &Objects, fuel: &mut Fuel) -> Op<Value>
    ensures meant { UnlessMemory result (str_row args.now objects.now fuel.old ≡ (result, fuel.new)) }
    ensures fuel { fuel.new ≤ fuel.old }
{
    match args {
        [] => empty_text(objects.alloc()),
        [value] => text_of_value(value, objects, fuel),
        [_, _] => Op::Leaves(Construct::Argument),
        [_, _, _] => Op::Leaves(Construct::Argument),
        _ => Op::Raises(BuiltClass::TypeError),
    }
}

fn empty_text(alloc: Global) -> Op<Value>
    ensures { UnlessMemory result (result ≡ Op.Done (Value.Str [])) }
{
    Op::Done(Value::Str(made!(PyStr::from_vec(alloc, Vec::new(alloc)))))
}

#[tactic(auto, using(py_meaning::specs::Folds::views))]
fn text_of_value(value: &Value, objects: &Objects, fuel: &mut Fuel) -> Op<Value>
    ensures meant { UnlessMemory result (text_of_value (out-Value value.now) objects.now fuel.old ≡ (result, fuel.new)) }
    ensures fuel { fuel.new ≤ fuel.old }
{
    match value {
        Value::Ref(id) => text_of_exception(*id, objects, fuel),
        _ => plain_text_or_leaves(objects.alloc(), value, fuel),
    }
}

/// The text of an exception; other objects have none here.
fn text_of_exception(id: ObjId, objects: &Objects, fuel: &mut Fuel) -> Op<Value>
    ensures meant { UnlessMemory result (text_of_object (kind_of (object_at objects.now id)) (option_map (λ args. args.parts) (args_of (object_at objects.now id))) fuel.old ≡ (result, fuel.new)) }
    ensures fuel { fuel.new ≤ fuel.old }
{
    match objects.kind(id) {
        ObjKind::Instance(ClassId::Built(class)) => {
            if is_same_class(ClassId::Built(class), ClassId::Built(BuiltClass::KeyError)) {
                Op::Leaves(Construct::StrOf)
            } else {
                text_of_args(objects.alloc(), objects.args(id), fuel)
            }
        }
        ObjKind::Instance(ClassId::Own(_)) => Op::Leaves(Construct::StrOf),
        ObjKind::List => Op::Leaves(Construct::StrOf),
        ObjKind::Dict => Op::Leaves(Construct::StrOf),
    }
}

/// What the interpreter gave as arguments isn't known.
fn text_of_args(alloc: Global, args: Option<&PyTuple>, fuel: &mut Fuel) -> Op<Value>
    ensures meant { UnlessMemory result (text_of_args (option_map (λ args. args.parts) (option_copied args.entry)) fuel.old ≡ (result, fuel.new)) }
    ensures fuel { fuel.new ≤ fuel.old }
{
    match args {
        None => Op::Leaves(Construct::ExceptionText),
        Some(args) => text_of_parts(alloc, args.as_slice(), fuel),
    }
}

fn text_of_parts(alloc: Global, args: &[Value], fuel: &mut Fuel) -> Op<Value>
    ensures meant { UnlessMemory result (text_of_args (Some args.now) fuel.old ≡ (result, fuel.new)) }
    ensures fuel { fuel.new ≤ fuel.old }
{
    match args {
        [] => empty_text(alloc),
        [value] => plain_text_or_leaves(alloc, value, fuel),
        _ => Op::Leaves(Construct::StrOf),
    }
}

/// The text of None, a bool, an integer or a string. It is short, or the string's own.
#[tactic(auto, using(py_meaning::specs::Folds::views))]
fn plain_text(alloc: Global, value: &Value) -> Result<Option<PyStr>, Memory>
    ensures { IfOk result (λ text. text ≡ plain_text (out-Value value.now)) }
{
    Ok(match value {
        Value::None => Some(none_text(alloc)?),
        Value::Bool(b) => Some(truth_text(alloc, *b)?),
        Value::Int(n) => Some(integer_text(alloc, *n)?),
        Value::Str(text) => Some(text.share()?),
        _ => None,
    })
}

fn none_text(alloc: Global) -> Result<PyStr, Memory>
    ensures { IfOk result (λ text. text ≡ codes "None") }
{
    let letters = "None".chars().collect(alloc)?;
    PyStr::from_vec(alloc, letters)
}

/// The text of a value, unless it has none here.
fn plain_text_or_leaves(alloc: Global, value: &Value, fuel: &mut Fuel) -> Op<Value>
    ensures meant { UnlessMemory result (text_or_leaves (plain_text (out-Value value.now)) fuel.old ≡ (result, fuel.new)) }
    ensures fuel { fuel.new ≤ fuel.old }
{
    text_or_leaves(made!(plain_text(alloc, value)), fuel)
}

fn text_or_leaves(text: Option<PyStr>, fuel: &mut Fuel) -> Op<Value>
    ensures meant { text_or_leaves text fuel.old ≡ (result, fuel.new) }
    ensures fuel { fuel.new ≤ fuel.old }
{
    match text {
        Some(text) => {
            if fuel.take(text.as_slice().len() as u64) {
                Op::Done(Value::Str(text))
            } else {
                drop(text);
                Op::OutOfSteps
            }
        }
        None => Op::Leaves(Construct::StrOf),
    }
}
