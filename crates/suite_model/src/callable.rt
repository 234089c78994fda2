// What a test may call.

use pyn_base::FuncId;

/// What a test may call of a module. A class is given by its place among the module's classes, from 0.
#[derive(Clone, Copy, Debug, PartialEq, Eq)]
pub enum Callable {
    /// The class, which makes an instance.
    Constructor(u32),
    /// A method, written in this class.
    Method(u32, FuncId),
    /// A function at the module's level.
    Function(FuncId),
}
