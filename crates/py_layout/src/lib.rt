//! How a module is laid out: the lines of its statements, headers, blocks and classes, and that they are read back.
//!
//! Definitions and laws alone. What keeps a printed expression whole where a line is cut is that no separator of statements, targets or
//! headers stands in it outside brackets (`specs/Quiet`), and that it begins with no word that begins another statement (`specs/Starts`).
//! So small statements (`specs/Small`) and headers (`specs/Headers`) that any tokens are read as are read from their own tokens again. Each
//! statement is at its block's column, and what is inside it four columns further (`specs/Rows`): so blocks (`specs/Blocks`) and modules
//! (`specs/Modules`) that any lines are read as are read from their own lines, the same up to lines and node numbers (`specs/Erased`). The tokens
//! of annotations are a parameter. Suite files are made of such lines too. Nothing here is looked up or printed.
//!
//! It stands on `py_printing` and `py_grammar`.
#![tactic(auto)]

mod examples;
mod laws;

pub use examples::small_statements_by_example;
pub use laws::{
    law_of_blocks, law_of_headers, law_of_modules, law_of_small_statements, laws_of_quiet,
};
