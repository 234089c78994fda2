//! Rows of texts, and what the readers make of them: what is expected of each is Python's own, or the construct that the subset
//! leaves out.
//!
//! It has tests alone, so that no reader is proved twice, and nothing is above it.
#![tactic(auto)]

#[cfg(test)]
mod modules;
#[cfg(test)]
mod tokens;
