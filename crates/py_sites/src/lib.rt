//! The nodes of a module, found by their numbers.
//!
//! `specs/Nodes` lists the nodes of a module in the order of reading, a node before its parts, by the parts that each kind of node has.
//! A module that `py_nodes` numbers has its nodes numbered 0, 1, 2 and so on in this order (`laws_of_numbering`). `node_at` finds the node
//! that has a number, and `sites_in` lists the numbers of a function's body. Both rely on the order: where numbers ascend, a node is in
//! the last part whose own number is not above its, so the search goes straight down and takes no memory; where they follow one another,
//! the last tells them all.
//!
//! It stands on `py_syntax` and on the definition of `py_nodes`. It knows nothing of text, of reading, or of what a node means.
#![tactic(auto)]

mod find;
mod last_part;
mod laws;
mod node_ref;

pub use find::{node_at, sites_in};
pub use laws::{laws_of_nodes, laws_of_numbered, laws_of_numbering};
pub use node_ref::NodeRef;
