// Constants: literals, `-` before an integer, tuples of constants, and names of earlier ones.
ghost use Rattle.std.specs.Prelude.{◌≡◌, map, IfOk};
ghost use Rattle.py_meaning.specs.declared.value.Value.{out-Value};
ghost use Rattle.py_meaning.specs.Arithmetic.{signed};
ghost use Rattle.py_meaning.specs.Tuples.{tuple};
ghost use Rattle.py_plain.specs.Import.{constant, or_none, signed_value};
ghost use Rattle.py_plain.specs.Names.{lookup};
ghost use Rattle.py_import.specs.Kinds.{constant_kind};

use py_bindings::lookup;
use py_meaning::{Measured, PyStr, Shared, Value, deepest};
use py_syntax::{Expr, ExprKind, Sign};
use pyn_base::{Memory, Name, PyInt};
use std::alloc::Global;

/// The value of a constant, where names are bound.
#[cycle(constant)]
#[tactic(auto, using(crate::proofs::ByKind::constants))]
pub(crate) fn constant(alloc: Global, e: &Expr, names: &[(Name, Value)]) -> Result<Value, Memory>
    ensures { IfOk result (λ x. x ≡ constant e.now names.now) }
{
    let x = constant_of_kind(alloc, &e.kind, names)?;
    Ok(x)
}

#[cycle(constant)]
#[tactic(auto, using(crate::proofs::ByKind::constants))]
fn constant_of_kind(
    alloc: Global,
    kind: &ExprKind,
    names: &[(Name, Value)],
) -> Result<Value, Memory>
    ensures { IfOk result (λ x. x ≡ constant_kind kind.now names.now) }
{
    match kind {
        ExprKind::BoolLit(b) => Ok(Value::Bool(*b)),
        ExprKind::IntLit(n) => Ok(Value::Int(*n)),
        ExprKind::StrLit(text) => {
            let text = PyStr::from_vec(alloc, text.letters(alloc)?)?;
            Ok(Value::Str(text))
        }
        ExprKind::Name(name) => {
            let x = value_or_none(names, name)?;
            Ok(x)
        }
        ExprKind::TupleLit(parts) => {
            let values = constants(alloc, parts.as_slice(), names)?;
            let x = tuple_of(alloc, values)?;
            Ok(x)
        }
        ExprKind::Unary(sign, part) => {
            let x = constant(alloc, part.get(), names)?;
            Ok(signed_value(*sign, x))
        }
        ExprKind::NoneLit => Ok(Value::None),
        ExprKind::ListLit(_) => Ok(Value::None),
        ExprKind::DictLit(_) => Ok(Value::None),
        ExprKind::Attr(_, _) => Ok(Value::None),
        ExprKind::Index(_, _) => Ok(Value::None),
        ExprKind::Slice(_, _, _) => Ok(Value::None),
        ExprKind::Call(_, _) => Ok(Value::None),
        ExprKind::Method(_, _, _) => Ok(Value::None),
        ExprKind::Super(_, _) => Ok(Value::None),
        ExprKind::Not(_) => Ok(Value::None),
        ExprKind::Binary(_, _, _) => Ok(Value::None),
        ExprKind::And(_) => Ok(Value::None),
        ExprKind::Or(_) => Ok(Value::None),
        ExprKind::Compare(_, _) => Ok(Value::None),
        ExprKind::Cond(_, _, _) => Ok(Value::None),
    }
}

#[cycle(constant)]
fn constants(alloc: Global, parts: &[Expr], names: &[(Name, Value)]) -> Result<Vec<Value>, Memory>
    ensures { IfOk result (λ values. values.items ≡ map (λ part. constant part names.now) parts.now) }
{
    let mut values = Vec::new(alloc);
    for part in parts {
        values.push(constant(alloc, part, names)?)?;
    }
    Ok(values)
}

/// The value of a name, and None of one that isn't bound.
fn value_or_none(names: &[(Name, Value)], name: &Name) -> Result<Value, Memory>
    ensures { IfOk result (λ x. x ≡ or_none (lookup name.now names.now)) }
{
    match lookup(names, name) {
        None => Ok(Value::None),
        Some(x) => {
            let x = x.share()?;
            Ok(x)
        }
    }
}

/// A tuple of these parts, however deep.
#[tactic(auto, unfolding(py_meaning::specs::Tuples::tuple))]
fn tuple_of(alloc: Global, parts: Vec<Value>) -> Result<Value, Memory>
    ensures { IfOk result (λ x. x ≡ tuple parts.items) }
{
    let Some(depth) = deepest(parts.as_slice()).checked_add(1) else {
        return Err(Memory);
    };
    let parts = Shared::from_vec(alloc, parts)?;
    Ok(Value::Tuple(Measured { parts, depth }))
}

/// An integer with its sign, and None of anything else.
#[tactic(auto, using(py_meaning::specs::Folds::views))]
fn signed_value(sign: Sign, x: Value) -> Value
    ensures { result ≡ signed_value sign (out-Value x) }
{
    match x {
        Value::Int(n) => Value::Int(signed(sign, n)),
        _ => Value::None,
    }
}

fn signed(sign: Sign, n: PyInt) -> PyInt
    ensures { result ≡ signed sign n }
{
    match sign {
        Sign::Plus => n,
        Sign::Minus => match PyInt::from(0).sub(n) {
            Some(negated) => negated,
            None => unreachable!(),
        },
    }
}
