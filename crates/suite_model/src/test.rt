// Tests.

use pyn_base::{ClassId, Construct, FuncId, Ids, Name, PyInt, Text};
use sqlite_items::Items;

/// A literal that a test writes.
#[derive(Drop)]
pub enum Primitive {
    None,
    Bool(bool),
    Int(PyInt),
    Str(Text),
}

/// A step of a test. Step `k` defines variable `k`, from 0, and names earlier variables alone.
#[derive(Drop)]
pub enum Step {
    Prim(Primitive),
    /// A list of these variables.
    ListOf(Ids),
    /// A dict of these variables, key and value.
    DictOf(Items<(u32, u32)>),
    /// An instance of a class of the module, with the arguments.
    Construct(u32, Ids),
    /// A call of a method: the receiver, the method's name and the arguments.
    Method(u32, Name, Ids),
    /// A call of a function of the module, with the arguments.
    Function(FuncId, Ids),
}

#[derive(Drop)]
pub struct Test {
    pub steps: Items<Step>,
}

/// How a test ends: with its last step, or with the first that doesn't end normally.
#[derive(Clone, Copy, Debug, PartialEq, Eq)]
pub enum TestEnd {
    Ok,
    /// An exception of this class.
    Raised(ClassId),
    OutOfSteps,
    /// The run leaves the supported subset.
    Left(Construct),
}
