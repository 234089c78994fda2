// Refusals: where and why a text is not read or not accepted.
ghost use Rattle.std.specs.Prelude.{◌≡◌};
ghost use Rattle.py_syntax.specs.declared.refusal.Refusal.TheVariants as refusal;

use crate::Line;
use pyn_base::{Construct, Memory};
use std::alloc::{AllocError, AllocFailed};
use thiserror::Error;

/// Why a text is not read or not accepted.
#[derive(Clone, Copy, Debug, PartialEq, Eq, Error)]
pub enum Refusal {
    /// The text is refused, for this construct on this line.
    #[error("line {line}: {construct}")]
    Refused { line: Line, construct: Construct },
    /// Out of memory.
    #[error("out of memory")]
    Memory,
}

impl From<Memory> for Refusal {
    ghost from_gives = { λ _ e. e ≡ refusal.Memory };

    fn from(_: Memory) -> Self {
        Refusal::Memory
    }
}

impl From<AllocError> for Refusal {
    ghost from_gives = { λ _ e. e ≡ refusal.Memory };

    fn from(_: AllocError) -> Self {
        Refusal::Memory
    }
}

impl<T: Drop> From<AllocFailed<T>> for Refusal {
    ghost from_gives = { λ _ e. e ≡ refusal.Memory };

    fn from(_: AllocFailed<T>) -> Self {
        Refusal::Memory
    }
}
