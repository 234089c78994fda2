//! The frame machine: statements of a test, run over a module one after another.
//!
//! `Machine` begins in the state after import, and each `run_statement` ends and leaves the state as the plain meaning says, with whoever watches.
//! It takes turns: a node begins, or what waits on top of its stack goes on, until the stack is empty (`run`). So no call is as deep as the
//! program, and a number that falls at each turn shows that it ends. Between two calls there is no stack, and the only frame is the test's own.
//! After an end that is final the machine does nothing any more. What a machine may want of memory is outside of the meaning.
//!
//! No layer above sees a stack, a frame's caller or a turn.
#![tactic(auto)]

mod ends;
mod expressions;
mod machine;
mod pending;
mod run;

pub use machine::Machine;
