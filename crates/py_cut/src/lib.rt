//! Cutting a list at marks: what stands before the first one, what stands between them, and the last one.
//!
//! Whether an item is a mark may depend on what stands before it: a place is carried over the list, so that 'outside
//! brackets' is a fact of the place. The words stand in `specs/Cut`, over any item and any place, and their lemmas in
//! `proofs/`, for the crates above. This crate knows nothing of what is cut, and it has no code that runs.
//!
//! It stands on std alone.
#![tactic(auto)]

mod examples;

pub use examples::worked_examples;
