// What rows do, one after another over one table of objects.
use crate::values::{Answer, Plain, agrees, int, is, tuple, value, values};
use py_builtins::{Builtin, call_builtin};
use py_methods::call_method;
use py_objects::{Objects, Op, Value};
use py_ops::{
    BinOp, CmpOp, Sign, augment, binary, compare, delete_item, get_item, set_item, slice, unary,
};
use pyn_base::{BuiltClass, ClassId, Fuel, Name};
use std::alloc::Global;
use std::test::Fail;

/// What a row does. Its operands are written in the row, or are what earlier rows of its table answered.
#[derive(Clone, Copy)]
pub(crate) enum Act {
    /// The value itself.
    Value(Plain),
    Call(Builtin, &'static [Plain]),
    Method(Plain, &'static str, &'static [Plain]),
    /// A method of a new list `[5, 6]`, and what the list is after it.
    OfList(&'static str, &'static [Plain], &'static [i128]),
    Binary(BinOp, Plain, Plain),
    Augment(BinOp, Plain, Plain),
    Signed(Sign, Plain),
    Compare(CmpOp, Plain, Plain),
    Item(Plain, Plain),
    PutItem(Plain, Plain, Plain),
    DeleteItem(Plain, Plain),
    Slice(Plain, Plain, Plain),
    Dict(&'static [(Plain, Plain)]),
    ListOf(&'static [Plain]),
    TupleOf(&'static [Plain]),
    /// A new exception of this class, with the arguments that the program gave, if it did.
    Exception(BuiltClass, Option<&'static [Plain]>),
    /// A list in a list, and so on, so many deep.
    Nested(u32),
    NestedTuple(u32),
    /// `t = (t, t)`, so many times.
    Doubled(u32),
    /// The key at this place of a dict.
    Key(Plain, u64),
    /// How often a dict's keys changed.
    Changes(Plain),
    /// How many objects there are.
    Count,
}

/// What is done, what is answered, and how many steps of a hundred are taken.
pub(crate) type Row = (Act, Answer, u32);

/// The steps of a row that isn't asked for them.
pub(crate) const UNASKED: u32 = u32::MAX;

/// The steps that each row is given.
const GIVEN: u32 = 100;

fn call_named(
    receiver: &Value,
    name: &str,
    args: &[Value],
    objects: &mut Objects,
    fuel: &mut Fuel,
) -> Result<Op<Value>, Fail> {
    let name = Name::from_str(objects.alloc(), name)?;
    Ok(call_method(receiver, &name, args, objects, fuel))
}

fn call_of_list(
    name: &str,
    args: &[Value],
    after: &'static [i128],
    objects: &mut Objects,
    fuel: &mut Fuel,
) -> Result<Op<Value>, Fail> {
    let list = value(Plain::List(&[5, 6]), &[], objects)?;
    let answer = call_named(&list, name, args, objects, fuel)?;
    if is(&list, Plain::List(after), objects) {
        Ok(answer)
    } else {
        Err("the list is another after it")?
    }
}

/// An answer of truth, as a value.
fn truth(answer: Op<bool>) -> Op<Value> {
    Op::Done(Value::Bool(py_meaning::done!(answer)))
}

/// An answer without a value, as None.
fn nothing(answer: Op<()>) -> Op<Value> {
    py_meaning::done!(answer);
    Op::Done(Value::None)
}

fn make_dict(
    pairs: &[(Plain, Plain)],
    made: &[Value],
    objects: &mut Objects,
    fuel: &mut Fuel,
) -> Result<Op<Value>, Fail> {
    let mut both = Vec::new(objects.alloc());
    for (key, x) in pairs {
        both.push((value(*key, made, objects)?, value(*x, made, objects)?))?;
    }
    Ok(match objects.make_dict(both.as_slice(), fuel) {
        Op::Done(id) => Op::Done(Value::Ref(id)),
        _ => Op::OutOfSteps,
    })
}

fn make_exception(
    class: BuiltClass,
    args: Option<&'static [Plain]>,
    objects: &mut Objects,
) -> Result<Value, Fail> {
    let args = match args {
        Some(args) => Some(tuple(objects.alloc(), values(args, &[], objects)?)?),
        None => None,
    };
    Ok(Value::Ref(objects.make_instance(ClassId::Built(class), args)?))
}

fn nested(depth: u32, objects: &mut Objects) -> Result<Value, Fail> {
    let alloc = objects.alloc();
    let mut inner = Value::Ref(objects.new_list(Vec::new(alloc))?);
    for _ in 1..depth {
        inner = Value::Ref(objects.new_list(Vec::from_array(alloc, [inner])?)?);
    }
    Ok(inner)
}

fn nested_tuple(alloc: Global, depth: u32) -> Result<Value, Fail> {
    let mut inner = Value::Tuple(tuple(alloc, Vec::new(alloc))?);
    for _ in 1..depth {
        inner = Value::Tuple(tuple(alloc, Vec::from_array(alloc, [inner])?)?);
    }
    Ok(inner)
}

fn doubled(alloc: Global, times: u32) -> Result<Value, Fail> {
    let mut inner = Value::Tuple(tuple(alloc, Vec::new(alloc))?);
    for _ in 0..times {
        let same = inner.share()?;
        inner = Value::Tuple(tuple(alloc, Vec::from_array(alloc, [inner, same])?)?);
    }
    Ok(inner)
}

fn key_at(dict: &Value, at: u64, objects: &Objects) -> Result<Value, Fail> {
    let Value::Ref(id) = dict else {
        return Err("no dict")?;
    };
    match objects.pair_at(*id, at) {
        Some((key, _)) => Ok(key.share()?),
        None => Err("no such place")?,
    }
}

fn changes(dict: &Value, objects: &Objects) -> Result<Value, Fail> {
    match dict {
        Value::Ref(id) => Ok(int(objects.key_changes(*id) as i128)),
        _ => Err("no dict")?,
    }
}

/// Does what no step is paid for.
fn make(act: Act, made: &[Value], objects: &mut Objects) -> Result<Value, Fail> {
    let alloc = objects.alloc();
    match act {
        Act::Value(x) => value(x, made, objects),
        Act::ListOf(items) => {
            let items = values(items, made, objects)?;
            Ok(Value::Ref(objects.new_list(items)?))
        }
        Act::TupleOf(parts) => Ok(Value::Tuple(tuple(alloc, values(parts, made, objects)?)?)),
        Act::Exception(class, args) => make_exception(class, args, objects),
        Act::Nested(depth) => nested(depth, objects),
        Act::NestedTuple(depth) => nested_tuple(alloc, depth),
        Act::Doubled(times) => doubled(alloc, times),
        Act::Key(dict, at) => key_at(&value(dict, made, objects)?, at, objects),
        Act::Changes(dict) => changes(&value(dict, made, objects)?, objects),
        Act::Count => Ok(int(objects.count() as i128)),
        _ => Err("another does it")?,
    }
}

/// Does an operator's work.
fn operate(
    act: Act,
    made: &[Value],
    objects: &mut Objects,
    fuel: &mut Fuel,
) -> Result<Op<Value>, Fail> {
    match act {
        Act::Binary(op, a, b) => {
            let (a, b) = (value(a, made, objects)?, value(b, made, objects)?);
            Ok(binary(op, &a, &b, objects, fuel))
        }
        Act::Augment(op, a, b) => {
            let (a, b) = (value(a, made, objects)?, value(b, made, objects)?);
            Ok(augment(op, &a, &b, objects, fuel))
        }
        Act::Signed(sign, x) => Ok(unary(sign, &value(x, made, objects)?)),
        Act::Compare(op, a, b) => {
            let (a, b) = (value(a, made, objects)?, value(b, made, objects)?);
            Ok(truth(compare(op, &a, &b, objects, fuel)))
        }
        _ => Ok(Op::Done(make(act, made, objects)?)),
    }
}

/// Does the work of a subscription.
fn subscribe(
    act: Act,
    made: &[Value],
    objects: &mut Objects,
    fuel: &mut Fuel,
) -> Result<Op<Value>, Fail> {
    match act {
        Act::Item(of, at) => {
            let (of, at) = (value(of, made, objects)?, value(at, made, objects)?);
            Ok(get_item(&of, &at, objects, fuel))
        }
        Act::PutItem(of, at, x) => {
            let (of, at) = (value(of, made, objects)?, value(at, made, objects)?);
            let x = value(x, made, objects)?;
            Ok(nothing(set_item(&of, &at, x, objects, fuel)))
        }
        Act::DeleteItem(of, at) => {
            let (of, at) = (value(of, made, objects)?, value(at, made, objects)?);
            Ok(nothing(delete_item(&of, &at, objects, fuel)))
        }
        Act::Slice(of, low, high) => {
            let (low, high) = (value(low, made, objects)?, value(high, made, objects)?);
            let of = value(of, made, objects)?;
            Ok(slice(&of, &low, &high, objects, fuel))
        }
        _ => operate(act, made, objects, fuel),
    }
}

/// Does what a row says.
fn perform(
    act: Act,
    made: &[Value],
    objects: &mut Objects,
    fuel: &mut Fuel,
) -> Result<Op<Value>, Fail> {
    match act {
        Act::Call(id, args) => {
            let args = values(args, made, objects)?;
            Ok(call_builtin(id, args.as_slice(), objects, fuel))
        }
        Act::Method(receiver, name, args) => {
            let receiver = value(receiver, made, objects)?;
            let args = values(args, made, objects)?;
            call_named(&receiver, name, args.as_slice(), objects, fuel)
        }
        Act::OfList(name, args, after) => {
            let args = values(args, made, objects)?;
            call_of_list(name, args.as_slice(), after, objects, fuel)
        }
        Act::Dict(pairs) => make_dict(pairs, made, objects, fuel),
        _ => subscribe(act, made, objects, fuel),
    }
}

/// Whether so many steps were taken.
fn costs(fuel: &Fuel, cost: u32) -> bool {
    cost == UNASKED || fuel.left() as u64 + cost as u64 == GIVEN as u64
}

/// What a later row finds where a row has answered.
fn kept(answer: Op<Value>) -> Value {
    match answer {
        Op::Done(x) => x,
        _ => Value::None,
    }
}

/// The first row of a table that doesn't hold.
fn first_wrong_row(alloc: Global, rows: &[Row]) -> Result<Option<usize>, Fail> {
    let mut objects = Objects::new(alloc)?;
    let mut made = Vec::new(alloc);
    for (at, (act, expected, cost)) in rows.iter().enumerate() {
        let mut fuel = Fuel::new(GIVEN);
        let answer = perform(*act, made.as_slice(), &mut objects, &mut fuel)?;
        if !agrees(&answer, *expected, &objects) || !costs(&fuel, *cost) {
            return Ok(Some(at));
        }
        made.push(kept(answer))?;
    }
    Ok(None)
}

/// The first table with a row that doesn't hold, and the row.
pub(crate) fn first_wrong(
    alloc: Global,
    tables: &[(&'static str, &'static [Row])],
) -> Result<Option<(&'static str, usize)>, Fail> {
    for (name, rows) in tables {
        if let Some(row) = first_wrong_row(alloc, rows)? {
            return Ok(Some((*name, row)));
        }
    }
    Ok(None)
}
