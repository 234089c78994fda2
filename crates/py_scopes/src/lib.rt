//! What acceptance refuses: the rules of the subset that reading alone can't see, as a definition.
//!
//! Each rule is one predicate, in the order of the table (`Refusals`), and gives the lines that break it: rules of statements, functions'
//! lines, classes and annotations in `ModuleRows`, rules of names in `NameRows`. `Uses` lists what a text does with names, in order, and
//! `Pieces` where it stands. Of all faults the one with the least line is refused, and on one line the first row. There is no table of symbols
//! here, and no order of looking things up: each rule is a fact about the tree and the names that the module binds.
//!
//! It builds on `py_names` and `py_plain`.
#![tactic(auto)]

mod examples;
mod laws;

pub use examples::{accepted_by_example, refused_by_example};
pub use laws::laws_of_scopes;
