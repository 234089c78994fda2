//! The rules of acceptance that speak of statements at a module's level and in classes, of functions' lines and of what they bind: for
//! each the least line of a module that breaks it.
//!
//! What stands before a statement (constants, classes, imported names) is a set that grows as the module is read, so each rule is
//! judged in a time that is `n log n` in the module's size. Expressions, statements and annotations are trees no deeper than the reader's
//! limit.
#![tactic(auto)]

mod classes;
mod constants;
mod displays;
mod duplicates;
mod faults;
mod functions;
mod future_line;
mod lines;
mod parameters;
mod statements;

pub use classes::is_exception_name;
pub use constants::{Assignment, assigned};
pub use faults::{ModuleFaults, module_faults};
pub use lines::Lines;
