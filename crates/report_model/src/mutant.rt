// Mutants: their operators, by MutPy's acronyms, and what a suite makes of them.

use crate::{Cause, ShownReason};
use py_syntax::Line;
use pyn_base::TestId;

/// A mutation operator.
#[derive(Clone, Copy, Debug, PartialEq, Eq)]
pub enum Operator {
    /// Arithmetic operator deletion.
    Aod,
    /// Arithmetic operator replacement.
    Aor,
    /// Assignment operator replacement.
    Asr,
    /// Break and continue replacement.
    Bcr,
    /// Conditional operator insertion.
    Coi,
    /// Constant replacement.
    Crp,
    /// Exception handler deletion.
    Ehd,
    /// Exception swallowing.
    Exs,
    /// Logical connector replacement.
    Lcr,
    /// Relational operator replacement.
    Ror,
}

/// What a suite makes of a mutant.
#[derive(Drop)]
pub enum Verdict {
    /// The first test that fails on it, the line at which it fails, and why.
    Killed(TestId, Line, ShownReason),
    /// No test fails or stops on it.
    Survived,
    /// No test fails on it; the cause is that of the first that stops.
    Undecided(Cause),
}
