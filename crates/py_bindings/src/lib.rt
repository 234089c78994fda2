//! Names and the values that they are bound to: variables, and the arguments of a call bound to its parameters.
//!
//! A frame's variables are a sequence of names with their values, in the order in which they were first bound, and each call here does to it
//! what the plain meaning's own word does to a list. This layer must never know of objects, trees of expressions, steps or a stack.
#![tactic(auto)]

mod arguments;
mod variables;

pub use arguments::bind_arguments;
pub use variables::{bind, is_bound, lookup, unbind};
