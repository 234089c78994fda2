//! Reads the shape of an expression from its symbols, by cutting them outside brackets.
//!
//! `expression`, `expressions` and `primary` give exactly the shape that `py_language` defines for the symbols, and refuse exactly
//! where that has none; out of memory is the only other answer. There is one function for each rule of the grammar, in its
//! order: what has a separator of the rule is cut there, and what has none belongs to the next rule. Each part is read by the
//! same functions with a limit that is one less, so calls go no deeper than an expression may be.
//! This layer knows nothing of text, of lines or of statements.
#![tactic(auto)]

mod cut;
mod fault;
mod lists;
mod node;
mod operand;
mod operators;
mod read;

pub use fault::ExprFault;
pub use read::{DEEPEST, expression, expressions, primary};
