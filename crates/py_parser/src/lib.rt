//! Reads a text as a module: its logical lines in order, up to the first fault.
//!
//! `read_module` gives exactly the module or the refusal that the grammar defines; out of memory is the only other answer. A block
//! is cut at the first line that is not deeper than its header, and its lines are cut into statements at those that do not continue
//! one. There is one function for each compound statement, in the grammar's order. Each line's form is read once, by `py_line`,
//! and calls go no deeper than blocks may be inside one another. This layer knows nothing of names in scope or of running.
//!
//! A reader of texts with other forms of lines takes the parts: how lines are cut, blocks, and statements that are as in a module.
#![tactic(auto)]

mod blocks;
mod compounds;
mod keywords;
mod lines;
mod modules;
mod refusals;

pub use blocks::{Reader, Scope, misplaced, unless_deeper, without_block};
pub use compounds::statements;
pub use lines::{Group, Member, behind, next_group};
pub use modules::{each, fault_in, module_item, read_module, reversed};
