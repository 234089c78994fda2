//! Prints expressions as a Python programmer writes them.
//!
//! `print_expr` adds the text of a tree: its brackets are where the grammar needs them (`py_printing`), and its spaces are those of
//! PEP 8 (`specs/Spaces`). The text is exact, and the text of the tree of any text's tokens has that tree again, up to lines and node
//! numbers (`specs/ReadBack`). A pen adds one token after another and decides itself where a space is, from what is before it on the
//! line; so no caller can join two tokens into one, and no style can change what is read. It knows nothing of statements or files.
#![tactic(auto)]

mod brackets;
mod expressions;
mod kinds;
mod laws;
mod pen;
mod printer;
mod slots;
mod style_examples;
mod trees;

pub use laws::laws_of_printing;
pub use pen::Pen;
pub use printer::print_expr;
pub use style_examples::style_by_example;
