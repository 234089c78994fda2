// Values and answers as rows write them, and whether an answer is what its row says.
use py_objects::{Objects, Op, PyStr, PyTuple, Value, View};
use pyn_base::{BuiltClass, ClassId, Construct, Memory, PyInt};
use std::alloc::Global;
use std::test::Fail;

/// A value as a row writes it.
#[derive(Clone, Copy)]
pub(crate) enum Plain {
    Nothing,
    Truth(bool),
    Int(i128),
    Text(&'static str),
    Range(i64, i64, i64),
    /// A tuple of integers.
    Tuple(&'static [i128]),
    /// A list of integers.
    List(&'static [i128]),
    /// A list of the texts between the bars.
    Texts(&'static str),
    Class(BuiltClass),
    /// What the row of this number in the same table answered.
    At(usize),
}

/// An answer as a row writes it.
#[derive(Clone, Copy)]
pub(crate) enum Answer {
    Is(Plain),
    /// Some value.
    Made,
    Raises(BuiltClass),
    Leaves(Construct),
    OutOfSteps,
}

pub(crate) fn int(n: i128) -> Value {
    match PyInt::new(n) {
        Some(n) => Value::Int(n),
        None => Value::None,
    }
}

pub(crate) fn text(alloc: Global, s: &str) -> Result<Value, Memory> {
    let letters = s.chars().collect(alloc)?;
    Ok(Value::Str(PyStr::from_vec(alloc, letters)?))
}

pub(crate) fn tuple(alloc: Global, parts: Vec<Value>) -> Result<PyTuple, Fail> {
    Ok(PyTuple::new(alloc, parts)?.ok_or("too deep")?)
}

fn integers(alloc: Global, numbers: &[i128]) -> Result<Vec<Value>, Memory> {
    let mut items = Vec::new(alloc);
    for n in numbers {
        items.push(int(*n))?;
    }
    Ok(items)
}

fn texts(alloc: Global, joined: &str) -> Result<Vec<Value>, Memory> {
    let mut items = Vec::new(alloc);
    for part in joined.split('|') {
        items.push(text(alloc, part)?)?;
    }
    Ok(items)
}

/// What an earlier row answered, for one more owner.
fn answered(made: &[Value], row: usize) -> Result<Value, Fail> {
    match made.get(row) {
        Some(value) => Ok(value.share()?),
        None => Err("no such row")?,
    }
}

/// The value that a row writes, after what the rows before it answered; a list is a new object.
pub(crate) fn value(plain: Plain, made: &[Value], objects: &mut Objects) -> Result<Value, Fail> {
    let alloc = objects.alloc();
    Ok(match plain {
        Plain::Nothing => Value::None,
        Plain::Truth(b) => Value::Bool(b),
        Plain::Int(n) => int(n),
        Plain::Text(s) => text(alloc, s)?,
        Plain::Range(start, stop, step) => Value::View(View::Range(start, stop, step)),
        Plain::Tuple(numbers) => Value::Tuple(tuple(alloc, integers(alloc, numbers)?)?),
        Plain::List(numbers) => Value::Ref(objects.new_list(integers(alloc, numbers)?)?),
        Plain::Texts(joined) => Value::Ref(objects.new_list(texts(alloc, joined)?)?),
        Plain::Class(class) => Value::Class(ClassId::Built(class)),
        Plain::At(row) => answered(made, row)?,
    })
}

pub(crate) fn values(
    plains: &[Plain],
    made: &[Value],
    objects: &mut Objects,
) -> Result<Vec<Value>, Fail> {
    let mut values = Vec::new(objects.alloc());
    for plain in plains {
        values.push(value(*plain, made, objects)?)?;
    }
    Ok(values)
}

fn is_spelled(s: &[char], expected: &str) -> bool {
    expected.chars().eq(s.iter().copied())
}

fn are_integers(items: &[Value], numbers: &[i128]) -> bool {
    items.len() == numbers.len() && items.iter().zip(numbers).all(|(item, n)| is_int(item, *n))
}

fn are_texts(items: &[Value], joined: &str) -> bool {
    let mut parts = joined.split('|');
    for item in items {
        match (item, parts.next()) {
            (Value::Str(s), Some(part)) if is_spelled(s.as_slice(), part) => {}
            _ => return false,
        }
    }
    parts.next().is_none()
}

pub(crate) fn is_int(value: &Value, n: i128) -> bool {
    match value {
        Value::Int(k) => k.get() == n,
        _ => false,
    }
}

/// Whether a value is what a row writes, a list by its items.
pub(crate) fn is(value: &Value, plain: Plain, objects: &Objects) -> bool {
    match (value, plain) {
        (Value::None, Plain::Nothing) => true,
        (Value::Bool(a), Plain::Truth(b)) => *a == b,
        (Value::Int(a), Plain::Int(b)) => a.get() == b,
        (Value::Str(a), Plain::Text(b)) => is_spelled(a.as_slice(), b),
        (Value::View(a), Plain::Range(start, stop, step)) => *a == View::Range(start, stop, step),
        (Value::Tuple(parts), Plain::Tuple(numbers)) => are_integers(parts.as_slice(), numbers),
        (Value::Ref(id), Plain::List(numbers)) => are_integers(objects.elements(*id), numbers),
        (Value::Ref(id), Plain::Texts(joined)) => are_texts(objects.elements(*id), joined),
        _ => false,
    }
}

pub(crate) fn agrees(answer: &Op<Value>, expected: Answer, objects: &Objects) -> bool {
    match (answer, expected) {
        (Op::Done(value), Answer::Is(plain)) => is(value, plain, objects),
        (Op::Done(_), Answer::Made) => true,
        (Op::Raises(a), Answer::Raises(b)) => *a == b,
        (Op::Leaves(a), Answer::Leaves(b)) => *a == b,
        (Op::OutOfSteps, Answer::OutOfSteps) => true,
        _ => false,
    }
}

pub(crate) fn done<T: Drop>(answer: Op<T>) -> Result<T, &'static str> {
    match answer {
        Op::Done(x) => Ok(x),
        Op::Raises(_) => Err("raises"),
        Op::Leaves(_) => Err("leaves"),
        Op::OutOfSteps => Err("out of steps"),
        Op::Memory => Err("no memory"),
    }
}
