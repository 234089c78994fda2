//! Acceptance: whether a module that was read is one that the subset has a meaning for.
//!
//! Each rule's least line is found by the crates of rules below. Here the faults are compared, in the order of the rules' table: the least
//! line is told, and on one line the first rule. What is accepted is handed out with its functions and classes, which are taken from the same
//! tables that the rules are asked with.
#![tactic(auto)]

mod acceptance;
mod earliest;
mod examples;
mod faults;
mod infos;

pub use acceptance::{Accepted, accept};
pub use examples::acceptance_by_example;
pub use faults::module_fault;
pub use infos::{ClassInfo, FuncInfo};
