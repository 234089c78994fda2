// When two values that aren't both tuples are the same.
ghost use Rattle.std.specs.Prelude.{◌≡◌, Some, bytes_eq};
ghost use Rattle.py_meaning.specs.Values.{number_of, number_of_truth, place_of_class, same_class, same_number, same_single, is_view};
ghost use Rattle.py_meaning.specs.declared.value.Value.{out-Value};

use crate::Value;
use pyn_base::{BuiltClass, ClassId, PyInt};

pub(crate) fn place_of_class(class: BuiltClass) -> u32
    ensures { result ≡ place_of_class class }
{
    class as u32
}

/// Whether two classes are one.
pub fn is_same_class(a: ClassId, b: ClassId) -> bool
    ensures { result ≡ same_class a b }
{
    match (a, b) {
        (ClassId::Built(a), ClassId::Built(b)) => place_of_class(a) == place_of_class(b),
        (ClassId::Own(a), ClassId::Own(b)) => a == b,
        _ => false,
    }
}

/// A truth value counts as 0 or 1.
pub(crate) fn number_of_truth(truth: bool) -> Option<PyInt>
    ensures { result ≡ Some (number_of_truth truth) }
{
    PyInt::new(i128::from(truth))
}

/// The number of an integer or a truth value.
#[tactic(auto, using(py_meaning::specs::Folds::views))]
pub fn number(value: &Value) -> Option<PyInt>
    ensures { result ≡ number_of (out-Value value.now) }
{
    match value {
        Value::Bool(truth) => number_of_truth(*truth),
        Value::Int(n) => Some(*n),
        _ => None,
    }
}

fn is_same_number(a: Option<PyInt>, b: Option<PyInt>) -> bool
    ensures { result ≡ same_number a b }
{
    match (a, b) {
        (Some(a), Some(b)) => a.get() == b.get(),
        _ => false,
    }
}

pub(crate) fn is_same_text(a: &[char], b: &[char]) -> bool
    ensures { result ≡ bytes_eq a.now b.now }
{
    a == b
}

/// Whether two values of which not both are tuples are the same: by number, by characters, or by what they name.
#[tactic(auto, using(py_meaning::specs::Folds::views))]
pub fn is_same_single(a: &Value, b: &Value) -> bool
    ensures { result ≡ same_single (out-Value a.now) (out-Value b.now) }
{
    match a {
        Value::None => matches!(b, Value::None),
        Value::Bool(_) => is_same_number(number(a), number(b)),
        Value::Int(_) => is_same_number(number(a), number(b)),
        Value::Str(s) => match b {
            Value::Str(t) => is_same_text(s.as_slice(), t.as_slice()),
            _ => false,
        },
        Value::Tuple(_) => false,
        Value::Ref(i) => match b {
            Value::Ref(j) => i.0 == j.0,
            _ => false,
        },
        Value::Class(c) => match b {
            Value::Class(d) => is_same_class(*c, *d),
            _ => false,
        },
        Value::Func(f) => match b {
            Value::Func(g) => f.0 == g.0,
            _ => false,
        },
        Value::View(_) => false,
        Value::ModuleRef => matches!(b, Value::ModuleRef),
    }
}

/// Whether a value walks a range or a dict.
#[tactic(auto, using(py_meaning::specs::Folds::views))]
pub fn is_view(value: &Value) -> bool
    ensures { result ≡ is_view (out-Value value.now) }
{
    matches!(value, Value::View(_))
}
