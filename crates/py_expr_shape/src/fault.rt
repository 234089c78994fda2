// Why no expression was read.
ghost use Rattle.std.specs.Prelude.{◌≡◌};
ghost use Rattle.py_expr_shape.specs.declared.fault.ExprFault.TheVariants as fault;

use pyn_base::Memory;
use std::alloc::AllocError;

/// Why no expression was read.
#[derive(Clone, Copy, Debug, PartialEq, Eq)]
pub enum ExprFault {
    /// The tokens are no expression.
    Refused,
    /// Out of memory.
    Memory,
}

impl From<AllocError> for ExprFault {
    ghost from_gives = { λ _ e. e ≡ fault.Memory };

    fn from(_: AllocError) -> Self {
        ExprFault::Memory
    }
}

impl From<Memory> for ExprFault {
    ghost from_gives = { λ _ e. e ≡ fault.Memory };

    fn from(_: Memory) -> Self {
        ExprFault::Memory
    }
}
