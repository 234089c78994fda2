//! How an annotation is laid out: its tokens, and that they are read back.
//!
//! Definitions and laws alone. An annotation in a string is the text of its own tokens, as `py_printer` writes them, in one string token. So a
//! string in a string holds escapes, a backslash before each quote and backslash. Whatever any tokens are read as, its own tokens are read as
//! (`specs/Annotations`), and no separator of a line is among them outside brackets but `|`.
#![tactic(auto)]

mod examples;
mod laws;

pub use examples::annotations_by_example;
pub use laws::laws_of_annotations;
