// The classes of exceptions, by their names.
ghost use Rattle.std.specs.Prelude.{◌≡◌};
ghost use Rattle.py_scopes.specs.NameRows.{class_named, is_exception_by};

use py_tables::{Tables, built_class_named};
use pyn_base::{ClassId, Name};

/// Whether a name is that of an exception class, of the module or a built-in one.
pub(crate) fn is_exception_name(tables: &Tables, name: &Name) -> bool
    ensures { result ≡ is_exception_by tables.now (class_named tables.now name.now) }
{
    match tables.class_named(name) {
        Some(class) => tables.is_exception(class),
        None => match built_class_named(name) {
            Some(class) => tables.is_exception(ClassId::Built(class)),
            None => false,
        },
    }
}
