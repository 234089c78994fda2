//! What a `for` walks: lists, tuples, strings, dicts and views, one element at a time, of what is there at that turn.
//!
//! A walk keeps the value, the place of its next element, and of a dict its length and its key changes at the start. An element is found at
//! its place alone, so that a turn costs the same however many came before.
//!
//! This layer must never know of steps, frames or a stack.
#![tactic(auto)]

mod elements;
mod starts;

pub use elements::element_at;
pub use starts::{advanced, changes_at, dict_walked, is_walked, size_at, walk_from_start};
