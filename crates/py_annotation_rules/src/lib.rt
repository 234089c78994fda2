//! The rules of acceptance that speak of annotations and of what a class body sees: for each the least line of a module that breaks it.
//!
//! What is evaluated where it stands may name only what stands before it. The classes and imported names before an item, and the names
//! before a member of a class, are sets that grow as the module is read.
#![tactic(auto)]

mod annotation;
mod class_body;
mod module_annotations;
mod parts;
mod scope;

pub use class_body::class_scope;
pub use module_annotations::annotations;
