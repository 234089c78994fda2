//! How an expression is printed: the definitions, and the law that what is printed is read back to the same tree.
//!
//! A tree is printed as symbols, with brackets exactly where the grammar needs them (`specs/Printing`), and symbols as tokens
//! (`specs/SymbolTokens`). The law holds of every tree that reading gives for some tokens, in any style of spaces, and no print is
//! deeper than what was read. No code runs here, and this layer knows nothing of statements or lines.
#![tactic(auto)]

mod laws;
mod printing_examples;

pub use laws::{laws_of_expressions, laws_of_shapes};
pub use printing_examples::printing_by_example;
