//! Tests of a module: what they may call, of which types their values are, whether they are well formed, and the statements that they are.
//!
//! `callables` walks a module once. `type_of_annotation` makes the type that an annotation names; `is_same_type` and `fits` compare two
//! types by one walk of the type that is wanted; signatures and the types of a test's variables stand on these. `is_well_formed` asks
//! functions and classes themselves what may be called, and never goes through a list of callables. `to_syntax` spells a test as
//! statements, whose nodes have no numbers.
//!
//! This layer must never know how a test is drawn, run or kept.
#![tactic(auto)]

mod annotations;
mod listing;
mod signature;
mod syntax;
mod types;
mod variables;
mod well_formed;

pub use annotations::type_of_annotation;
pub use listing::callables;
pub use signature::{Signature, constructor_signature, function_signature, method_signature};
pub use syntax::to_syntax;
pub use types::{fits, is_same_type};
pub use variables::{type_of, types_of};
pub use well_formed::is_well_formed;
