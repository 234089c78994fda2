// The names that are bound before any module is read (the manual, "Built-in Functions" and "Exception hierarchy").
ghost use Rattle.std.specs.Prelude.{◌≡◌, bytes_eq, chars, map};
ghost use Rattle.py_meaning.specs.Methods.{named};
ghost use Rattle.py_plain.specs.BuiltNames.{built_classes, built_functions, called_type, built_bases};

use py_meaning::Builtin;
use pyn_base::{BuiltClass, Name};

/// What a table has under a name.
pub(crate) fn row_named<M: Copy>(rows: &[(&str, M)], name: &Name) -> Option<M>
    ensures { result ≡ named (map (λ row. (chars row.0.now, row.1)) rows.now) name.now }
{
    for row in rows {
        if name.is(row.0) {
            return Some(row.1);
        }
    }
    None
}

/// The built-in class of a name.
#[tactic(auto, unfolding(std::specs::Prelude::chars))]
pub fn built_class_named(name: &Name) -> Option<BuiltClass>
    ensures { result ≡ named built_classes name.now }
{
    row_named(
        &[
            ("object", BuiltClass::Object),
            ("int", BuiltClass::Int),
            ("bool", BuiltClass::Bool),
            ("str", BuiltClass::Str),
            ("list", BuiltClass::List),
            ("dict", BuiltClass::Dict),
            ("tuple", BuiltClass::Tuple),
            ("Exception", BuiltClass::Exception),
            ("ArithmeticError", BuiltClass::ArithmeticError),
            ("ZeroDivisionError", BuiltClass::ZeroDivisionError),
            ("LookupError", BuiltClass::LookupError),
            ("IndexError", BuiltClass::IndexError),
            ("KeyError", BuiltClass::KeyError),
            ("ValueError", BuiltClass::ValueError),
            ("TypeError", BuiltClass::TypeError),
            ("AttributeError", BuiltClass::AttributeError),
            ("NameError", BuiltClass::NameError),
            ("UnboundLocalError", BuiltClass::UnboundLocalError),
            ("AssertionError", BuiltClass::AssertionError),
            ("RuntimeError", BuiltClass::RuntimeError),
            ("NotImplementedError", BuiltClass::NotImplementedError),
        ],
        name,
    )
}

/// The built-in function of a name. `range` counts as one.
#[tactic(auto, unfolding(std::specs::Prelude::chars))]
pub fn builtin_named(name: &Name) -> Option<Builtin>
    ensures { result ≡ named built_functions name.now }
{
    row_named(
        &[
            ("len", Builtin::Len),
            ("abs", Builtin::Abs),
            ("min", Builtin::Min),
            ("max", Builtin::Max),
            ("sum", Builtin::Sum),
            ("range", Builtin::Range),
            ("isinstance", Builtin::Isinstance),
            ("print", Builtin::Print),
        ],
        name,
    )
}

/// What a call of a built-in class does, where it makes no exception.
pub fn builtin_of_class(class: BuiltClass) -> Option<Builtin>
    ensures { result ≡ called_type class }
{
    match class {
        BuiltClass::Object => Some(Builtin::Object),
        BuiltClass::Int => Some(Builtin::Int),
        BuiltClass::Bool => Some(Builtin::Bool),
        BuiltClass::Str => Some(Builtin::Str),
        BuiltClass::List => Some(Builtin::List),
        BuiltClass::Dict => Some(Builtin::Dict),
        BuiltClass::Tuple => Some(Builtin::Tuple),
        _ => None,
    }
}

/// The built-in classes above one, the nearest first.
pub(crate) fn built_bases(class: BuiltClass) -> &'static [BuiltClass]
    ensures { result.now ≡ built_bases class }
{
    match class {
        BuiltClass::Object => &[],
        BuiltClass::Bool => &[BuiltClass::Int, BuiltClass::Object],
        BuiltClass::ZeroDivisionError => &[
            BuiltClass::ArithmeticError,
            BuiltClass::Exception,
            BuiltClass::Object,
        ],
        BuiltClass::IndexError | BuiltClass::KeyError => &[
            BuiltClass::LookupError,
            BuiltClass::Exception,
            BuiltClass::Object,
        ],
        BuiltClass::UnboundLocalError => &[
            BuiltClass::NameError,
            BuiltClass::Exception,
            BuiltClass::Object,
        ],
        BuiltClass::NotImplementedError => &[
            BuiltClass::RuntimeError,
            BuiltClass::Exception,
            BuiltClass::Object,
        ],
        BuiltClass::Int
        | BuiltClass::Str
        | BuiltClass::List
        | BuiltClass::Dict
        | BuiltClass::Tuple
        | BuiltClass::Exception => &[BuiltClass::Object],
        _ => &[BuiltClass::Exception, BuiltClass::Object],
    }
}
