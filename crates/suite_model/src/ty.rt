// Types of values, as annotations name them.

use pyn_base::ClassId;
use sqlite_items::Boxed;

/// A type, as the annotation of a parameter or a result names it.
#[derive(Drop)]
pub enum Ty {
    Int,
    Bool,
    Str,
    NoneType,
    /// A list, with the type of its elements.
    List(Boxed<Ty>),
    /// A dict, with the types of its keys and of its values.
    Dict(Boxed<Ty>, Boxed<Ty>),
    /// An instance of a class of the module, or an exception.
    Class(ClassId),
    /// The type, or None.
    OrNone(Boxed<Ty>),
    /// A type of which nothing is known.
    Any,
}
