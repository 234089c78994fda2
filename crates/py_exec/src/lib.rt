//! The frame machine's transitions of statements: blocks, loops, `raise`, `try`, and how each statement begins and goes on.
//!
//! What was to be done under the stack before is what is to be done under the stack after, for each probe. A part of a statement that has to
//! be evaluated first is done next, and the statement waits for it on the stack. Assignments are stored below, with the expressions.
//!
//! This layer must never know how an expression is evaluated, nor which entry of a stack is next.
#![tactic(auto)]

mod blocks;
mod loops;
mod raises;
mod statements;
mod steps;
mod tries;
mod walks;

pub use blocks::next_stmt;
pub use loops::end_turn;
pub use statements::exec;
pub use steps::resume_step;
pub use tries::{after_body, end_clause, end_last, start_last};
pub use walks::end_walk_turn;
