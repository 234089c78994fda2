// Objects (Language Reference 3.1): what a reference names, and what may change.
use crate::{PyTuple, Sequence, Value};
use pyn_base::{ClassId, Name};

/// An object of a table.
#[derive(Drop)]
pub enum Object {
    List(Sequence<Value>),
    /// The pairs in the order in which their keys were put, and the number of changes of the keys, which stays at
    /// the greatest `u64` once it is there.
    Dict(Sequence<(Value, Value)>, u64),
    /// The class, the attributes in the order in which they were first set, and an exception's arguments where
    /// they are known.
    Instance(ClassId, Sequence<(Name, Value)>, Option<PyTuple>),
}

/// What kind of object a reference names.
#[derive(Clone, Copy, Debug, PartialEq, Eq)]
pub enum ObjKind {
    List,
    Dict,
    Instance(ClassId),
}
