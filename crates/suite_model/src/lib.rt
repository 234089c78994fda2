//! What tests and suites are: steps that supply values and call the module, their types, the statements that they and their assertions are,
//! and what of a test is kept.
//!
//! Tests are those of Pynguin ("chromosomes": lists of statements, each of which defines a variable). A step names earlier variables
//! alone. Types are those of annotations, as far as a value can be made for them (`Types`); what a module lets a test call, with parameters and
//! results, is `Callables`; `WellFormed` says when each argument has its parameter's type, `Statements` and `Assertions` spell a test as Python, and
//! `Kept` runs it by the plain meaning and keeps its longest prefix that ends normally, or by an exception. Definitions alone: nothing is
//! looked up, drawn or run here.
//!
//! It builds on `goal_model` and `py_plain`.
#![tactic(auto)]

mod callable;
mod examples;
mod laws;
mod suite;
mod test;
mod ty;

pub use callable::Callable;
pub use examples::{statements_by_example, types_by_example};
pub use laws::{laws_of_kept_tests, laws_of_types};
pub use suite::{Assert, Shown, Subject, Suite, TestCase, Wants};
pub use test::{Primitive, Step, Test, TestEnd};
pub use ty::Ty;
