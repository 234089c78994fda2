// The methods of dicts (the manual, "Mapping Types"), one function a row.
ghost use Rattle.std.specs.Prelude.{◌≡◌, ◌≤◌, [], ◌∷◌, length};
ghost use Rattle.py_meaning.specs.Caught.{where_missing};
ghost use Rattle.py_meaning.specs.Steps.{changes, UnlessMemory, UnlessDone};
ghost use Rattle.py_meaning.specs.Worlds.{pairs};
ghost use Rattle.py_meaning.specs.DictMethods.{get_or, pop_key, pop_or, clear_dict, copy_dict, dict_method};

use py_meaning::{DictMethod, ObjKind, Op, Value, View, done, made};
use py_objects::Objects;
use pyn_base::{BuiltClass, Construct, Fuel, ObjId};

/// The number of a dict's pairs.
fn pair_count(dict: ObjId, objects: &Objects) -> u64
    ensures { result ≡ length (pairs objects.now dict) }
{
    match objects.kind(dict) {
        ObjKind::Dict => objects.size(dict),
        _ => 0,
    }
}

/// What a raised class answers, with something else for a missing key.
fn or_other(class: BuiltClass, other: &Value) -> Op<Value>
    ensures { UnlessMemory result (result ≡ where_missing other.now (Op.Raises class)) }
{
    match class {
        BuiltClass::KeyError => Op::Done(made!(other.share())),
        class => Op::Raises(class),
    }
}

/// The value of a key, or another, at the key's cost.
fn get_or(dict: ObjId, key: &Value, other: &Value, objects: &Objects, fuel: &mut Fuel) -> Op<Value>
    ensures meant { UnlessMemory result (get_or dict key.now other.now objects.now fuel.old ≡ (result, fuel.new)) }
    ensures fuel { fuel.new ≤ fuel.old }
{
    match objects.dict_get(dict, key, fuel) {
        Op::Raises(BuiltClass::KeyError) => Op::Done(made!(other.share())),
        answer => answer,
    }
}

/// Takes a key's pair out and gives its value. What isn't hashable is a missing key to an empty dict of Python's.
fn pop_key(dict: ObjId, key: &Value, objects: &mut Objects, fuel: &mut Fuel) -> Op<Value>
    ensures meant { UnlessMemory result (changes (pop_key dict key.now) objects.old fuel.old ≡ (result, objects.new, fuel.new)) }
    ensures unchanged { UnlessDone result (objects.new ≡ objects.old) }
    ensures fuel { fuel.new ≤ fuel.old }
{
    let count = pair_count(dict, objects);
    match objects.dict_delete(dict, key, fuel) {
        Op::Raises(BuiltClass::TypeError) if count == 0 => Op::Leaves(Construct::UnhashableKey),
        answer => answer,
    }
}

/// The same, or another value where the key is missing.
#[tactic(auto, using(crate::proofs::Settled::caught))]
fn pop_or(
    dict: ObjId,
    key: &Value,
    other: &Value,
    objects: &mut Objects,
    fuel: &mut Fuel,
) -> Op<Value>
    ensures meant { UnlessMemory result (changes (pop_or dict key.now other.now) objects.old fuel.old ≡ (result, objects.new, fuel.new)) }
    ensures unchanged { UnlessDone result (objects.new ≡ objects.old) }
    ensures fuel { fuel.new ≤ fuel.old }
{
    match pop_key(dict, key, objects, fuel) {
        Op::Raises(class) => or_other(class, other),
        answer => answer,
    }
}

fn clear_dict(dict: ObjId, objects: &mut Objects, fuel: &mut Fuel) -> Op<Value>
    ensures meant { UnlessMemory result (changes (clear_dict dict) objects.old fuel.old ≡ (result, objects.new, fuel.new)) }
    ensures unchanged { UnlessDone result (objects.new ≡ objects.old) }
    ensures fuel { fuel.new ≤ fuel.old }
{
    if !fuel.take(pair_count(dict, objects)) {
        return Op::OutOfSteps;
    }
    made!(objects.clear(dict));
    Op::Done(Value::None)
}

/// A new dict of the pairs.
fn copy_dict(dict: ObjId, objects: &mut Objects, fuel: &mut Fuel) -> Op<Value>
    ensures meant { UnlessMemory result (changes (copy_dict dict) objects.old fuel.old ≡ (result, objects.new, fuel.new)) }
    ensures unchanged { UnlessDone result (objects.new ≡ objects.old) }
    ensures fuel { fuel.new ≤ fuel.old }
{
    Op::Done(Value::Ref(done!(objects.dict_copy(dict, fuel))))
}

/// What takes no argument.
fn dict_method_alone(
    method: DictMethod,
    dict: ObjId,
    objects: &mut Objects,
    fuel: &mut Fuel,
) -> Op<Value>
    ensures meant { UnlessMemory result (changes (dict_method method dict []) objects.old fuel.old ≡ (result, objects.new, fuel.new)) }
    ensures unchanged { UnlessDone result (objects.new ≡ objects.old) }
    ensures fuel { fuel.new ≤ fuel.old }
{
    match method {
        DictMethod::Keys => Op::Done(Value::View(View::Keys(dict))),
        DictMethod::Values => Op::Done(Value::View(View::Values(dict))),
        DictMethod::Items => Op::Done(Value::View(View::Items(dict))),
        DictMethod::Clear => clear_dict(dict, objects, fuel),
        DictMethod::Copy => copy_dict(dict, objects, fuel),
        _ => Op::Raises(BuiltClass::TypeError),
    }
}

/// What takes one argument.
fn dict_method_of(
    method: DictMethod,
    dict: ObjId,
    key: &Value,
    objects: &mut Objects,
    fuel: &mut Fuel,
) -> Op<Value>
    ensures meant { UnlessMemory result (changes (dict_method method dict (key.now ∷ [])) objects.old fuel.old ≡ (result, objects.new, fuel.new)) }
    ensures unchanged { UnlessDone result (objects.new ≡ objects.old) }
    ensures fuel { fuel.new ≤ fuel.old }
{
    match method {
        DictMethod::Get => get_or(dict, key, &Value::None, objects, fuel),
        DictMethod::SetDefault => objects.dict_set_default(dict, key, &Value::None, fuel),
        DictMethod::Pop => pop_key(dict, key, objects, fuel),
        _ => Op::Raises(BuiltClass::TypeError),
    }
}

/// What takes two arguments.
fn dict_method_of_two(
    method: DictMethod,
    dict: ObjId,
    key: &Value,
    other: &Value,
    objects: &mut Objects,
    fuel: &mut Fuel,
) -> Op<Value>
    ensures meant { UnlessMemory result (changes (dict_method method dict (key.now ∷ other.now ∷ [])) objects.old fuel.old ≡ (result, objects.new, fuel.new)) }
    ensures unchanged { UnlessDone result (objects.new ≡ objects.old) }
    ensures fuel { fuel.new ≤ fuel.old }
{
    match method {
        DictMethod::Get => get_or(dict, key, other, objects, fuel),
        DictMethod::SetDefault => objects.dict_set_default(dict, key, other, fuel),
        DictMethod::Pop => pop_or(dict, key, other, objects, fuel),
        _ => Op::Raises(BuiltClass::TypeError),
    }
}

/// A method of dicts.
pub(crate) fn dict_method(
    method: DictMethod,
    dict: ObjId,
    args: &[Value],
    objects: &mut Objects,
    fuel: &mut Fuel,
) -> Op<Value>
    ensures meant { UnlessMemory result (changes (dict_method method dict args.now) objects.old fuel.old ≡ (result, objects.new, fuel.new)) }
    ensures unchanged { UnlessDone result (objects.new ≡ objects.old) }
    ensures fuel { fuel.new ≤ fuel.old }
{
    match args {
        [] => dict_method_alone(method, dict, objects, fuel),
        [key] => dict_method_of(method, dict, key, objects, fuel),
        [key, other] => dict_method_of_two(method, dict, key, other, objects, fuel),
        _ => Op::Raises(BuiltClass::TypeError),
    }
}
