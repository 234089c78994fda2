// Why a text is no report's.
ghost use Rattle.std.specs.Prelude.{◌≡◌};
ghost use Rattle.suite_report.specs.declared.refusal.ReportRefusal.TheVariants as refusal;

use py_syntax::Line;
use pyn_base::Memory;
use std::alloc::{AllocError, AllocFailed};
use thiserror::Error;

/// Why a text is no report's.
#[derive(Clone, Copy, Debug, PartialEq, Eq, Error)]
pub enum ReportRefusal {
    /// The first line, from 1, with which no report's text goes on; of a text that is cut, the line after its last whole one.
    #[error("line {line}: report")]
    Refused { line: Line },
    /// Out of memory.
    #[error("out of memory")]
    Memory,
}

impl From<Memory> for ReportRefusal {
    ghost from_gives = { λ _ e. e ≡ refusal.Memory };

    fn from(_: Memory) -> Self {
        ReportRefusal::Memory
    }
}

impl From<AllocError> for ReportRefusal {
    ghost from_gives = { λ _ e. e ≡ refusal.Memory };

    fn from(_: AllocError) -> Self {
        ReportRefusal::Memory
    }
}

impl<T: Drop> From<AllocFailed<T>> for ReportRefusal {
    ghost from_gives = { λ _ e. e ≡ refusal.Memory };

    fn from(_: AllocFailed<T>) -> Self {
        ReportRefusal::Memory
    }
}
