//! The nodes of a module: their numbers.
//!
//! Every function, statement, except clause and expression of a function's body is a node. `number` copies a module with its nodes
//! numbered from 0 in the order of reading, a node before its parts, exactly as `specs/Numbers` and `specs/Expressions` say: by a
//! recursion down the tree that hands the next number on. Whatever numbers the parts had before play no part, but for the order in
//! which a call's arguments were written; so readers may read an operand before they see its operator, and a module in which a node
//! was rewritten is numbered anew by the same words. This layer knows nothing of text, of tokens or of what a node means.
#![tactic(auto)]

mod copies;
mod expressions;
mod modules;
mod statements;

pub use modules::number;
