// What an operation on values answers.
use pyn_base::{BuiltClass, Construct};

/// The answer of an operation. After any answer but `Done` the objects are as they were.
#[derive(Debug, Drop)]
pub enum Op<T> {
    Done(T),
    /// An exception of this class is raised.
    Raises(BuiltClass),
    /// The run leaves the supported subset.
    Leaves(Construct),
    /// Fewer steps are left than the operation costs.
    OutOfSteps,
    Memory,
}
