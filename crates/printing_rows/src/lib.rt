//! Rows of module texts that are read, printed, and the same again.
//!
//! It has tests alone, so that no crate is proved twice, and nothing is above it.
#![tactic(auto)]

#[cfg(test)]
mod modules;
