//! The goals of a module in the form in which they are asked: each with its kind, its line, its parent and its children.
//!
//! `Goals::of` makes them of a module once, and a contract sees them as the module's list `goals_of`. It walks each body once for its
//! points; which statements share a line, and which goal a governor is, is looked up in ordered maps, so that nothing is searched.
//! A goal is named by its number, its place in the list, and a parent has a lower number than its goal (`laws_of_parents`).
//! What takes a goal is asked of the marks that a run left; `laws_of_marks` says that they tell what the trail tells.
//!
//! This layer must never know how a run is done, nor how near it came to a goal.
#![tactic(auto)]

mod build;
mod children;
mod goals;
mod laws;
mod lines;
mod numbers;
mod parents;
mod points;
mod row;

pub use children::GoalList;
pub use goals::Goals;
pub use laws::{laws_of_marks, laws_of_parents};
