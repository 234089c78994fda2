//! Small types that every other crate uses, and the desk through which the program meets the outside.
//!
//! - `Text`, `Name`, `Bytes` and `Ids` are lists to a contract: of characters, of characters, of bytes and of numbers.
//!   What may run out of memory answers `Memory` in place of a value, and leaves what it works on as it was.
//! - `PyInt` is a whole number of the supported range, and its operators say exactly when a result lies outside of it.
//!   `Fuel` is the number of steps that a run may still spend. `Construct` is why a text is refused.
//! - `Desk` is the files, the bytes said, and the count of faults. One record of `specs/Desk` a call says all that the
//!   call may do to them, on every desk: a desk fails only where its count rose. `SteadyDesk` and `MemoryDesk` live in
//!   memory and tell all that they hold; `MemoryDesk` fails exactly where it is told to. `RealDesk` is the trusted
//!   edge: a few lines over std's files and standard output, which tell nothing but its faults.
//!
//! Nothing stands below but std and two small crates for printed numbers and error types. This layer knows nothing of
//! Python's syntax, of running, or of tests.
#![tactic(auto)]

mod bytes;
mod class;
mod construct;
mod desk;
mod fuel;
mod ids;
mod int;
mod int_examples;
mod memory;
mod memory_desk;
mod name;
mod real_desk;
mod shelf;
mod steady_desk;
mod text;

pub use bytes::Bytes;
pub use class::{BuiltClass, ClassId};
pub use construct::Construct;
pub use desk::{CallKind, Called, Desk, DeskFail};
pub use fuel::Fuel;
pub use ids::{FuncId, GoalId, Ids, MutantId, NodeId, ObjId, TestId};
pub use int::PyInt;
pub use int_examples::integer_examples;
pub use memory::Memory;
pub use memory_desk::{Break, MemoryDesk};
pub use name::Name;
pub use real_desk::RealDesk;
pub use steady_desk::SteadyDesk;
pub use text::Text;
