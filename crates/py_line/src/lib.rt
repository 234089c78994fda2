//! Reads one logical line: small statements, the header of a compound statement, or an import line.
//!
//! `read_form` gives exactly the form that `py_grammar` defines for the line, and refuses exactly where that has none; out of
//! memory is the only other answer. There is one function for each rule of the grammar, in its order. A line is cut at the
//! separators of each rule, outside brackets, and its expressions are read by `py_expr`. An annotation in a string is read
//! from tokens of its own, by the same functions. This layer knows nothing of where a line is, of blocks or of names.
//!
//! A reader of lines of other forms takes `cut` and the `Reader` of `statement`, which gives the parts of a line.
#![tactic(auto)]

mod annotation;
pub mod cut;
mod form;
mod header;
mod list;
pub mod statement;

pub use form::read_form;
pub use py_expr::ExprFault;
