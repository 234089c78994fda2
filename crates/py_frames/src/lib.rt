//! What the frame machine is made of: what it has still to do, and who watches it.
//!
//! A run is a stack of `Control` and what is done now, `Doing`. Each entry of the stack holds what one node of the tree has still to do
//! once its part that runs now has ended: `Operand`, `Decision`, `Argument`, `Store` and `Step` take the part's value, and the other
//! entries take any end. `specs/Rest` reads them as runs of the plain meaning: `finish` is what a whole stack does after an end, and
//! `rest` what is left to do in all. A machine is right if each of its steps leaves `rest` as it is. `specs/Loads` has the number that
//! falls where no step of the program is taken.
//!
//! A `Probe` sees each node of the module that begins, and each decision. Two functions of its own say what it keeps after each,
//! and nothing of it reaches the run. `NoProbe` keeps nothing, `Marks` which nodes began and which outcomes came, in room that it
//! reserves when it is made. `Chains` is what goals tell those that measure how near a run came to them.
//!
//! This layer must never know how a value is made or kept, nor how a step is done.
#![tactic(auto)]

mod chains;
mod control;
mod laws;
mod marks;
mod pending;
mod probe;
mod tail;

pub use chains::Chains;
pub use control::{Control, Doing};
pub use laws::laws_of_frames;
pub use marks::{Mark, Marks};
pub use pending::{Argument, Decision, Operand, Pending, Step, Store};
pub use probe::{NoProbe, Probe};
pub use py_plain::Frame;
pub use tail::Tail;
