// Why a test fails or stops.

use pyn_base::{Construct, Text};

/// Why a test stops: its statement ends in no outcome of its own.
#[derive(Clone, Copy, Debug, PartialEq, Eq)]
pub enum Cause {
    /// It ran out of steps.
    Steps,
    /// It left the subset of the language by this construct.
    Left(Construct),
}

/// Why a test fails, as a report shows it.
#[derive(Drop)]
pub enum ShownReason {
    /// An assertion does not hold.
    Assert,
    /// A statement raises an exception of this class, by the class's bare name.
    Raised(Text),
    /// A statement that should raise an exception ends without one.
    NotRaised,
}
