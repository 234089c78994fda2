//! Copies of trees, node by node: the same kinds, lines and numbers.
//!
//! A copy equals what it copies. The recursion goes down the tree, which is no deeper than the reader's limits.
#![tactic(auto)]

mod expr;

pub use expr::copy_expr;
