// Classes by their names.
ghost use Rattle.std.specs.Prelude.{◌≡◌, chars, slice_get, IfOk};
ghost use Rattle.py_plain.specs.BuiltNames.{built_classes};
ghost use Rattle.suite_model.specs.Assertions.{bare_name, class_read, name_in};
ghost use Rattle.suite_model.specs.Statements.{class_name};

use crate::literals::{expression, module_read};
use py_syntax::{Expr, ExprKind};
use py_tables::Tables;
use pyn_base::{BuiltClass, ClassId, Memory, Name, Text};
use sqlite_items::Boxed;
use std::alloc::Global;

/// The name of a built-in class (the manual, "Built-in Types" and "Exception hierarchy").
#[tactic(auto, unfolding(std::specs::Prelude::chars))]
fn built_name(class: BuiltClass) -> &'static str
    ensures { chars result.now ≡ name_in built_classes class }
{
    match class {
        BuiltClass::Object => "object",
        BuiltClass::Int => "int",
        BuiltClass::Bool => "bool",
        BuiltClass::Str => "str",
        BuiltClass::List => "list",
        BuiltClass::Dict => "dict",
        BuiltClass::Tuple => "tuple",
        BuiltClass::Exception => "Exception",
        BuiltClass::ArithmeticError => "ArithmeticError",
        BuiltClass::ZeroDivisionError => "ZeroDivisionError",
        BuiltClass::LookupError => "LookupError",
        BuiltClass::IndexError => "IndexError",
        BuiltClass::KeyError => "KeyError",
        BuiltClass::ValueError => "ValueError",
        BuiltClass::TypeError => "TypeError",
        BuiltClass::AttributeError => "AttributeError",
        BuiltClass::NameError => "NameError",
        BuiltClass::UnboundLocalError => "UnboundLocalError",
        BuiltClass::AssertionError => "AssertionError",
        BuiltClass::RuntimeError => "RuntimeError",
        BuiltClass::NotImplementedError => "NotImplementedError",
    }
}

/// The name of a class of the module; a number that no class has gives an empty name.
fn class_name(alloc: Global, tables: &Tables, class: u32) -> Result<Name, Memory>
    ensures { IfOk result (λ name. name ≡ class_name (slice_get tables.now.classes class)) }
{
    match tables.class(class) {
        Some(row) => row.name().to_owned(alloc),
        None => Ok(Name::from_text(Text::new(alloc))),
    }
}

/// The bare name of a class.
pub fn bare_name(alloc: Global, tables: &Tables, class: ClassId) -> Result<Name, Memory>
    ensures { IfOk result (λ name. name ≡ bare_name tables.now class) }
{
    match class {
        ClassId::Built(class) => Name::from_str(alloc, built_name(class)),
        ClassId::Own(number) => class_name(alloc, tables, number),
    }
}

/// A class as a test names it: a built-in one by its name, one of the module through the module.
pub fn class_read(alloc: Global, tables: &Tables, class: ClassId) -> Result<Expr, Memory>
    ensures { IfOk result (λ e. e ≡ class_read tables.now class) }
{
    let name = bare_name(alloc, tables, class)?;
    match class {
        ClassId::Built(_) => Ok(expression(ExprKind::Name(name))),
        ClassId::Own(_) => {
            let of = Boxed::new(alloc, module_read(alloc)?)?;
            Ok(expression(ExprKind::Attr(of, name)))
        }
    }
}
