// Which type serves where another is wanted.
ghost use Rattle.std.specs.Prelude.{◌≡◌};
ghost use Rattle.py_meaning.specs.Values.{place_of_class, same_class};
ghost use Rattle.suite_model.specs.Types.{is_int, is_bool, is_str, is_none, is_any, is_or_none_of, same_type, fits};
ghost use Rattle.suite_model.specs.declared.ty.Ty.{out-Ty};

use py_tables::Tables;
use pyn_base::{BuiltClass, ClassId};
use suite_model::Ty;

#[tactic(auto, using(crate::proofs::TypeLevels::outs))]
fn is_int(t: &Ty) -> bool
    ensures { result ≡ is_int (out-Ty t.now) }
{
    match t {
        Ty::Int => true,
        _ => false,
    }
}

#[tactic(auto, using(crate::proofs::TypeLevels::outs))]
fn is_bool(t: &Ty) -> bool
    ensures { result ≡ is_bool (out-Ty t.now) }
{
    match t {
        Ty::Bool => true,
        _ => false,
    }
}

#[tactic(auto, using(crate::proofs::TypeLevels::outs))]
fn is_str(t: &Ty) -> bool
    ensures { result ≡ is_str (out-Ty t.now) }
{
    match t {
        Ty::Str => true,
        _ => false,
    }
}

#[tactic(auto, using(crate::proofs::TypeLevels::outs))]
fn is_none(t: &Ty) -> bool
    ensures { result ≡ is_none (out-Ty t.now) }
{
    match t {
        Ty::NoneType => true,
        _ => false,
    }
}

#[tactic(auto, using(crate::proofs::TypeLevels::outs))]
fn is_any(t: &Ty) -> bool
    ensures { result ≡ is_any (out-Ty t.now) }
{
    match t {
        Ty::Any => true,
        _ => false,
    }
}

fn place_of_class(class: BuiltClass) -> u32
    ensures { result ≡ place_of_class class }
{
    class as u32
}

fn is_same_class(a: ClassId, b: ClassId) -> bool
    ensures { result ≡ same_class a b }
{
    match (a, b) {
        (ClassId::Built(a), ClassId::Built(b)) => place_of_class(a) == place_of_class(b),
        (ClassId::Own(a), ClassId::Own(b)) => a == b,
        _ => false,
    }
}

/// Whether two types are one.
#[tactic(auto, using(crate::proofs::TypeLevels::levels))]
pub fn is_same_type(tables: &Tables, t: &Ty, given: &Ty) -> bool
    ensures { result ≡ same_type tables.now t.now given.now }
{
    match t {
        Ty::Int => is_int(given),
        Ty::Bool => is_bool(given),
        Ty::Str => is_str(given),
        Ty::NoneType => is_none(given),
        Ty::Any => is_any(given),
        Ty::List(element) => match given {
            Ty::List(other) => is_same_type(tables, element.get(), other.get()),
            _ => false,
        },
        Ty::Dict(key, value) => match given {
            Ty::Dict(k, v) => {
                is_same_type(tables, key.get(), k.get())
                    && is_same_type(tables, value.get(), v.get())
            }
            _ => false,
        },
        Ty::Class(class) => match given {
            Ty::Class(other) => is_same_class(*class, *other),
            _ => false,
        },
        Ty::OrNone(value) => match given {
            Ty::OrNone(other) => is_same_type(tables, value.get(), other.get()),
            _ => false,
        },
    }
}

/// Whether a value of a type serves where another is wanted.
#[tactic(auto, using(crate::proofs::TypeLevels::levels))]
pub fn fits(tables: &Tables, given: &Ty, wanted: &Ty) -> bool
    ensures { result ≡ fits tables.now given.now wanted.now }
{
    match wanted {
        Ty::Int => is_int(given) || is_bool(given),
        Ty::Bool => is_bool(given),
        Ty::Str => is_str(given),
        Ty::NoneType => is_none(given),
        Ty::Any => true,
        Ty::List(_) => match given {
            Ty::List(_) => true,
            _ => false,
        },
        Ty::Dict(_, _) => match given {
            Ty::Dict(_, _) => true,
            _ => false,
        },
        Ty::Class(above) => match given {
            Ty::Class(class) => tables.derives(*class, *above),
            _ => false,
        },
        Ty::OrNone(value) => {
            is_none(given)
                || is_or_none_of(tables, value.get(), given)
                || fits(tables, given, value.get())
        }
    }
}

/// Whether a type is another, or None.
#[tactic(auto, using(crate::proofs::TypeLevels::levels))]
fn is_or_none_of(tables: &Tables, value: &Ty, given: &Ty) -> bool
    ensures { result ≡ is_or_none_of (same_type tables.now value.now) (out-Ty given.now) }
{
    match given {
        Ty::OrNone(other) => is_same_type(tables, value, other.get()),
        _ => false,
    }
}
