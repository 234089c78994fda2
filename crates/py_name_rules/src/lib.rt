//! The rules of names that acceptance asks: how names may be spelled, where they may stand, and that each is known. For each rule the
//! least line that breaks it.
//!
//! The names of the module, those that it imports and the locals of each function are sets, made once, and each use of a name is judged by a few
//! lookups, so the whole takes `n log n` in the module's size. Each rule is a type of its own (`rules`) with one clause, the definition's
//! test, and one loop goes through the uses for any of them (`earliest`).
#![tactic(auto)]

mod bound;
mod earliest;
mod exceptions;
mod faults;
mod known;
mod rules;
mod scope;
mod site;
mod underscores;

pub use faults::{NameFaults, name_faults};
