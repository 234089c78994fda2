// The methods of lists (the manual, "Mutable Sequence Types" and "Lists"), one function a row.
ghost use Rattle.std.specs.Prelude.{◌≡◌, ◌≤◌, ℕ, [], ◌∷◌};
ghost use Rattle.py_meaning.specs.Steps.{changes, UnlessMemory, UnlessDone};
ghost use Rattle.py_meaning.specs.Worlds.{World};
ghost use Rattle.py_meaning.specs.Operations.{list_extend, list_remove_free, list_reverse};
ghost use Rattle.py_meaning.specs.ListMethods.{giving_none, pop_at, insert_at, extend_by, removed, remove_equal, index_equal, equals_from, count_equal, clear_list, copy_list, list_method};

use py_meaning::{ListMethod, Op, Value, done, made};
use py_objects::{Objects, is_within_machine, number, shared_all};
use pyn_base::{BuiltClass, Construct, Fuel, ObjId, PyInt};

/// Puts an item at a list's end.
fn append(list: ObjId, x: &Value, objects: &mut Objects, fuel: &mut Fuel) -> Op<Value>
    ensures meant { UnlessMemory result (changes (giving_none (list_extend list (x.now ∷ []))) objects.old fuel.old ≡ (result, objects.new, fuel.new)) }
    ensures unchanged { UnlessDone result (objects.new ≡ objects.old) }
    ensures fuel { fuel.new ≤ fuel.old }
{
    let item = made!(x.share());
    done!(objects.list_extend(list, &[item], fuel));
    Op::Done(Value::None)
}

/// Takes the item of an index out, at a step for each item.
fn pop_at(list: ObjId, at: &Value, objects: &mut Objects, fuel: &mut Fuel) -> Op<Value>
    ensures meant { UnlessMemory result (changes (pop_at list at.now) objects.old fuel.old ≡ (result, objects.new, fuel.new)) }
    ensures unchanged { UnlessDone result (objects.new ≡ objects.old) }
    ensures fuel { fuel.new ≤ fuel.old }
{
    if !fuel.take(objects.elements(list).len() as u64) {
        return Op::OutOfSteps;
    }
    match number(at) {
        None => Op::Raises(BuiltClass::TypeError),
        Some(n) if is_within_machine(n) => objects.list_remove_free(list, n),
        Some(_) => Op::Leaves(Construct::MachineSize),
    }
}

/// Puts an item before the one at an index, which is clamped, at a step for each item of the result.
fn insert_at(
    list: ObjId,
    at: &Value,
    item: &Value,
    objects: &mut Objects,
    fuel: &mut Fuel,
) -> Op<Value>
    ensures meant { UnlessMemory result (changes (insert_at list at.now item.now) objects.old fuel.old ≡ (result, objects.new, fuel.new)) }
    ensures unchanged { UnlessDone result (objects.new ≡ objects.old) }
    ensures fuel { fuel.new ≤ fuel.old }
{
    if !fuel.take(objects.elements(list).len() as u64 + 1) {
        return Op::OutOfSteps;
    }
    match number(at) {
        None => Op::Raises(BuiltClass::TypeError),
        Some(n) if is_within_machine(n) => {
            made!(objects.list_insert_free(list, n, made!(item.share())));
            Op::Done(Value::None)
        }
        Some(_) => Op::Leaves(Construct::MachineSize),
    }
}

/// Grows a list by what is walked, which is taken before the list grows.
fn extend_by(list: ObjId, x: &Value, objects: &mut Objects, fuel: &mut Fuel) -> Op<Value>
    ensures meant { UnlessMemory result (changes (extend_by list x.now) objects.old fuel.old ≡ (result, objects.new, fuel.new)) }
    ensures unchanged { UnlessDone result (objects.new ≡ objects.old) }
    ensures fuel { fuel.new ≤ fuel.old }
{
    let items = done!(objects.walk(x, fuel));
    made!(objects.list_extend_free(list, items.into_vec()));
    Op::Done(Value::None)
}

/// Takes out what was found, at no cost of its own.
fn removed(list: ObjId, place: Option<usize>, objects: &mut Objects) -> Op<Value>
    ensures meant { UnlessMemory result ((left : ℕ) → changes (removed list place) objects.old left ≡ (result, objects.new, left)) }
    ensures unchanged { UnlessDone result (objects.new ≡ objects.old) }
{
    let Some(at) = place else {
        return Op::Raises(BuiltClass::ValueError);
    };
    drop(done!(objects.list_remove_free(list, PyInt::from(at as u64))));
    Op::Done(Value::None)
}

/// Takes the first equal item out, at two steps for each item and what the comparisons cost.
fn remove_equal(list: ObjId, x: &Value, objects: &mut Objects, fuel: &mut Fuel) -> Op<Value>
    ensures meant { UnlessMemory result (changes (remove_equal list x.now) objects.old fuel.old ≡ (result, objects.new, fuel.new)) }
    ensures unchanged { UnlessDone result (objects.new ≡ objects.old) }
    ensures fuel { fuel.new ≤ fuel.old }
{
    if !fuel.take(2 * objects.elements(list).len() as u64) {
        return Op::OutOfSteps;
    }
    let place = done!(objects.equal_place(0, x, objects.elements(list), fuel));
    removed(list, place, objects)
}

/// The place of the first equal item, at a step for each that is looked at.
fn index_equal(list: ObjId, x: &Value, objects: &Objects, fuel: &mut Fuel) -> Op<Value>
    ensures meant { index_equal list x.now objects.now fuel.old ≡ (result, fuel.new) }
    ensures fuel { fuel.new ≤ fuel.old }
{
    match done!(objects.equal_place(1, x, objects.elements(list), fuel)) {
        Some(at) => Op::Done(Value::Int(PyInt::from(at as u64))),
        None => Op::Raises(BuiltClass::ValueError),
    }
}

/// How many of the items are equal.
fn count_of(x: &Value, items: &[Value], objects: &Objects, fuel: &mut Fuel) -> Op<Value>
    ensures meant { equals_from objects.now x.now 0 items.now fuel.old ≡ (result, fuel.new) }
    ensures fuel { fuel.new ≤ fuel.old }
{
    let mut count = 0;
    for item in items {
        if done!(objects.equal(item, x, fuel)) {
            count += 1;
        }
    }
    Op::Done(Value::Int(PyInt::from(count)))
}

/// The same of a list, at a step for each item.
fn count_equal(list: ObjId, x: &Value, objects: &Objects, fuel: &mut Fuel) -> Op<Value>
    ensures meant { count_equal list x.now objects.now fuel.old ≡ (result, fuel.new) }
    ensures fuel { fuel.new ≤ fuel.old }
{
    let items = objects.elements(list);
    if !fuel.take(items.len() as u64) {
        return Op::OutOfSteps;
    }
    count_of(x, items, objects, fuel)
}

fn clear_list(list: ObjId, objects: &mut Objects, fuel: &mut Fuel) -> Op<Value>
    ensures meant { UnlessMemory result (changes (clear_list list) objects.old fuel.old ≡ (result, objects.new, fuel.new)) }
    ensures unchanged { UnlessDone result (objects.new ≡ objects.old) }
    ensures fuel { fuel.new ≤ fuel.old }
{
    if !fuel.take(objects.elements(list).len() as u64) {
        return Op::OutOfSteps;
    }
    made!(objects.clear(list));
    Op::Done(Value::None)
}

/// A new list of the items.
fn copy_list(list: ObjId, objects: &mut Objects, fuel: &mut Fuel) -> Op<Value>
    ensures meant { UnlessMemory result (changes (copy_list list) objects.old fuel.old ≡ (result, objects.new, fuel.new)) }
    ensures unchanged { UnlessDone result (objects.new ≡ objects.old) }
    ensures fuel { fuel.new ≤ fuel.old }
{
    if !fuel.take(objects.elements(list).len() as u64) {
        return Op::OutOfSteps;
    }
    let items = made!(shared_all(objects.alloc(), objects.elements(list)));
    Op::Done(Value::Ref(made!(objects.new_list(items))))
}

fn reverse(list: ObjId, objects: &mut Objects, fuel: &mut Fuel) -> Op<Value>
    ensures meant { UnlessMemory result (changes (giving_none (list_reverse list)) objects.old fuel.old ≡ (result, objects.new, fuel.new)) }
    ensures unchanged { UnlessDone result (objects.new ≡ objects.old) }
    ensures fuel { fuel.new ≤ fuel.old }
{
    done!(objects.list_reverse(list, fuel));
    Op::Done(Value::None)
}

/// What takes no argument.
fn list_method_alone(
    method: ListMethod,
    list: ObjId,
    objects: &mut Objects,
    fuel: &mut Fuel,
) -> Op<Value>
    ensures meant { UnlessMemory result (changes (list_method method list []) objects.old fuel.old ≡ (result, objects.new, fuel.new)) }
    ensures unchanged { UnlessDone result (objects.new ≡ objects.old) }
    ensures fuel { fuel.new ≤ fuel.old }
{
    match method {
        ListMethod::Pop => objects.list_pop(list, fuel),
        ListMethod::Clear => clear_list(list, objects, fuel),
        ListMethod::Copy => copy_list(list, objects, fuel),
        ListMethod::Reverse => reverse(list, objects, fuel),
        _ => Op::Raises(BuiltClass::TypeError),
    }
}

/// What takes one argument.
fn list_method_of(
    method: ListMethod,
    list: ObjId,
    x: &Value,
    objects: &mut Objects,
    fuel: &mut Fuel,
) -> Op<Value>
    ensures meant { UnlessMemory result (changes (list_method method list (x.now ∷ [])) objects.old fuel.old ≡ (result, objects.new, fuel.new)) }
    ensures unchanged { UnlessDone result (objects.new ≡ objects.old) }
    ensures fuel { fuel.new ≤ fuel.old }
{
    match method {
        ListMethod::Append => append(list, x, objects, fuel),
        ListMethod::Pop => pop_at(list, x, objects, fuel),
        ListMethod::Extend => extend_by(list, x, objects, fuel),
        ListMethod::Remove => remove_equal(list, x, objects, fuel),
        ListMethod::Index => index_equal(list, x, objects, fuel),
        ListMethod::Count => count_equal(list, x, objects, fuel),
        _ => Op::Raises(BuiltClass::TypeError),
    }
}

/// What takes two arguments.
fn list_method_of_two(
    method: ListMethod,
    list: ObjId,
    at: &Value,
    item: &Value,
    objects: &mut Objects,
    fuel: &mut Fuel,
) -> Op<Value>
    ensures meant { UnlessMemory result (changes (list_method method list (at.now ∷ item.now ∷ [])) objects.old fuel.old ≡ (result, objects.new, fuel.new)) }
    ensures unchanged { UnlessDone result (objects.new ≡ objects.old) }
    ensures fuel { fuel.new ≤ fuel.old }
{
    match method {
        ListMethod::Insert => insert_at(list, at, item, objects, fuel),
        ListMethod::Index => Op::Leaves(Construct::Argument),
        _ => Op::Raises(BuiltClass::TypeError),
    }
}

/// What takes three arguments: of those of `index` two are bounds.
fn list_method_of_three(method: ListMethod) -> Op<Value>
    ensures { (list : ObjId) (x start stop : Value) (world : World) (left : ℕ) → changes (list_method method list (x ∷ start ∷ stop ∷ [])) world left ≡ (result, world, left) }
{
    match method {
        ListMethod::Index => Op::Leaves(Construct::Argument),
        _ => Op::Raises(BuiltClass::TypeError),
    }
}

/// A method of lists.
pub(crate) fn list_method(
    method: ListMethod,
    list: ObjId,
    args: &[Value],
    objects: &mut Objects,
    fuel: &mut Fuel,
) -> Op<Value>
    ensures meant { UnlessMemory result (changes (list_method method list args.now) objects.old fuel.old ≡ (result, objects.new, fuel.new)) }
    ensures unchanged { UnlessDone result (objects.new ≡ objects.old) }
    ensures fuel { fuel.new ≤ fuel.old }
{
    match args {
        [] => list_method_alone(method, list, objects, fuel),
        [x] => list_method_of(method, list, x, objects, fuel),
        [at, item] => list_method_of_two(method, list, at, item, objects, fuel),
        [_x, _start, _stop] => list_method_of_three(method),
        _ => Op::Raises(BuiltClass::TypeError),
    }
}
