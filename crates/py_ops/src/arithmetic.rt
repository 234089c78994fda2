// The arithmetic operators (Language Reference 6.6 and 6.7).
ghost use Rattle.std.specs.Prelude.{◌≡◌, ◌≤◌, ℕ};
ghost use Rattle.py_meaning.specs.Steps.{changes, UnlessMemory, UnlessDone};
ghost use Rattle.py_meaning.specs.Arithmetic.{by_numbers, difference, product, quotient, rest, rest_of_values, multiply_values, multiply_number, signed, unary};
ghost use Rattle.py_meaning.specs.Operators.{binary};
ghost use Rattle.py_meaning.specs.declared.value.Value.{out-Value};

use crate::repeat::{repeat_ref, repeat_text, repeat_tuple};
use py_objects::{Objects, Op, Value, is_view, number};
use py_syntax::{BinOp, Sign};
use pyn_base::{BuiltClass, Construct, Fuel, PyInt};

/// A binary operator's answer. `+` joins and `*` repeats strings, tuples and lists, at a step for each element of
/// the result; all else is of integers, and costs nothing. A divisor of 0 raises ZeroDivisionError, operands that an
/// operator isn't for raise TypeError. A result past the range, a view as an operand, and a string before `%` leave.
pub fn binary(op: BinOp, a: &Value, b: &Value, objects: &mut Objects, fuel: &mut Fuel) -> Op<Value>
    ensures meant { UnlessMemory result (changes (binary op a.now b.now) objects.old fuel.old ≡ (result, objects.new, fuel.new)) }
    ensures unchanged { UnlessDone result (objects.new ≡ objects.old) }
    ensures fuel { fuel.new ≤ fuel.old }
{
    if is_view(a) || is_view(b) {
        return Op::Leaves(Construct::View);
    }
    match op {
        BinOp::Add => objects.add(a, b, fuel),
        BinOp::Sub => difference(number(a), number(b)),
        BinOp::Mul => multiply(a, b, objects, fuel),
        BinOp::FloorDiv => quotient(number(a), number(b)),
        BinOp::Mod => rest_of_values(a, b),
    }
}

/// A sign before an integer, at no cost.
pub fn unary(sign: Sign, a: &Value) -> Op<Value>
    ensures { (left : ℕ) → unary sign a.now left ≡ (result, left) }
{
    if is_view(a) {
        return Op::Leaves(Construct::View);
    }
    match number(a) {
        Some(n) => Op::Done(Value::Int(signed(sign, n))),
        None => Op::Raises(BuiltClass::TypeError),
    }
}

fn signed(sign: Sign, n: PyInt) -> PyInt
    ensures { result ≡ signed sign n }
{
    match sign {
        Sign::Plus => n,
        Sign::Minus => match PyInt::from(0).sub(n) {
            Some(negated) => negated,
            None => unreachable!(),
        },
    }
}

/// A sequence and a count in either order, or two numbers.
#[tactic(auto, using(py_meaning::specs::Folds::views))]
fn multiply(a: &Value, b: &Value, objects: &mut Objects, fuel: &mut Fuel) -> Op<Value>
    ensures meant { UnlessMemory result (changes (multiply_values (out-Value a.now) (out-Value b.now)) objects.old fuel.old ≡ (result, objects.new, fuel.new)) }
    ensures unchanged { UnlessDone result (objects.new ≡ objects.old) }
    ensures fuel { fuel.new ≤ fuel.old }
{
    match a {
        Value::Str(s) => repeat_text(objects.alloc(), s.as_slice(), number(b), fuel),
        Value::Tuple(parts) => repeat_tuple(objects.alloc(), parts.as_slice(), number(b), fuel),
        Value::Ref(id) => repeat_ref(*id, number(b), objects, fuel),
        _ => multiply_number(number(a), b, objects, fuel),
    }
}

/// A count before a sequence, or two numbers.
#[tactic(auto, using(py_meaning::specs::Folds::views))]
fn multiply_number(n: Option<PyInt>, b: &Value, objects: &mut Objects, fuel: &mut Fuel) -> Op<Value>
    ensures meant { UnlessMemory result (changes (multiply_number n (out-Value b.now)) objects.old fuel.old ≡ (result, objects.new, fuel.new)) }
    ensures unchanged { UnlessDone result (objects.new ≡ objects.old) }
    ensures fuel { fuel.new ≤ fuel.old }
{
    match b {
        Value::Str(s) => repeat_text(objects.alloc(), s.as_slice(), n, fuel),
        Value::Tuple(parts) => repeat_tuple(objects.alloc(), parts.as_slice(), n, fuel),
        Value::Ref(id) => repeat_ref(*id, n, objects, fuel),
        _ => product(n, number(b)),
    }
}

fn difference(a: Option<PyInt>, b: Option<PyInt>) -> Op<Value>
    ensures { (left : ℕ) → by_numbers difference a b left ≡ (result, left) }
{
    match (a, b) {
        (Some(a), Some(b)) => match a.sub(b) {
            Some(n) => Op::Done(Value::Int(n)),
            None => Op::Leaves(Construct::IntegerRange),
        },
        _ => Op::Raises(BuiltClass::TypeError),
    }
}

fn product(a: Option<PyInt>, b: Option<PyInt>) -> Op<Value>
    ensures { (left : ℕ) → by_numbers product a b left ≡ (result, left) }
{
    match (a, b) {
        (Some(a), Some(b)) => match a.mul(b) {
            Some(n) => Op::Done(Value::Int(n)),
            None => Op::Leaves(Construct::IntegerRange),
        },
        _ => Op::Raises(BuiltClass::TypeError),
    }
}

/// The quotient, rounded down.
fn quotient(a: Option<PyInt>, b: Option<PyInt>) -> Op<Value>
    ensures { (left : ℕ) → by_numbers quotient a b left ≡ (result, left) }
{
    match (a, b) {
        (Some(a), Some(b)) => {
            if b.is_zero() {
                Op::Raises(BuiltClass::ZeroDivisionError)
            } else {
                Op::Done(Value::Int(a.floor_div(b)))
            }
        }
        _ => Op::Raises(BuiltClass::TypeError),
    }
}

/// What the rounded quotient leaves, with the divisor's sign.
fn rest(a: Option<PyInt>, b: Option<PyInt>) -> Op<Value>
    ensures { (left : ℕ) → by_numbers rest a b left ≡ (result, left) }
{
    match (a, b) {
        (Some(a), Some(b)) => {
            if b.is_zero() {
                Op::Raises(BuiltClass::ZeroDivisionError)
            } else {
                Op::Done(Value::Int(a.modulo(b)))
            }
        }
        _ => Op::Raises(BuiltClass::TypeError),
    }
}

/// `%`: of a string a format, else of numbers.
#[tactic(auto, using(py_meaning::specs::Folds::views))]
fn rest_of_values(a: &Value, b: &Value) -> Op<Value>
    ensures { (left : ℕ) → rest_of_values (out-Value a.now) (out-Value b.now) left ≡ (result, left) }
{
    match a {
        Value::Str(_) => Op::Leaves(Construct::StringFormat),
        _ => rest(number(a), number(b)),
    }
}
