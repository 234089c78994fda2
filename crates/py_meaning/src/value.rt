// Values (Language Reference 3.1 and 3.2).
ghost use Rattle.std.specs.Prelude.{◌≡◌, IfOk};

use crate::{Measured, Shared};
use pyn_base::{ClassId, FuncId, Memory, ObjId, PyInt};
use sqlite_items::Items;

/// A string, which a contract sees as the list of its characters.
pub type PyStr = Shared<Items<char>>;

/// A tuple, which a contract sees as its parts and its depth.
pub type PyTuple = Measured<Value>;

/// What walks a range or a dict without a copy. It names a dict by its place in the table.
#[derive(Clone, Copy, Debug, PartialEq, Eq)]
pub enum View {
    /// Start, stop and step.
    Range(i64, i64, i64),
    Keys(ObjId),
    Values(ObjId),
    Items(ObjId),
}

/// A value. Lists, dicts and instances are objects of a table, and a value refers to one by its place there.
#[derive(Drop)]
pub enum Value {
    None,
    Bool(bool),
    Int(PyInt),
    Str(PyStr),
    Tuple(PyTuple),
    Ref(ObjId),
    Class(ClassId),
    Func(FuncId),
    View(View),
    /// The module under test.
    ModuleRef,
}

impl Value {
    /// The same value for one more owner, at the cost of a count.
    pub fn share(&self) -> Result<Value, Memory>
        ensures { IfOk result (λ v. v ≡ self.now) }
    {
        Ok(match self {
            Value::None => Value::None,
            Value::Bool(b) => Value::Bool(*b),
            Value::Int(n) => Value::Int(*n),
            Value::Str(s) => Value::Str(s.share()?),
            Value::Tuple(t) => Value::Tuple(t.share()?),
            Value::Ref(id) => Value::Ref(*id),
            Value::Class(class) => Value::Class(*class),
            Value::Func(func) => Value::Func(*func),
            Value::View(view) => Value::View(*view),
            Value::ModuleRef => Value::ModuleRef,
        })
    }
}
