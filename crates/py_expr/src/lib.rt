//! The trees of expressions, from their tokens.
//!
//! `read_expr` gives exactly the tree that `py_language` defines for a list of tokens as one expression, `read_exprs` the one
//! as an expression or as several with commas between them, and `read_primary` the one as a primary; each refuses exactly
//! where that has none, and out of memory is the only other answer. `symbols_of` makes the symbols from the last token to the
//! first: adjacent strings are one, `not in` and `is not` are one comparison each, `.name` is one group, and `super().name`
//! before a bracket is one name. `py_expr_shape` reads their shape, whose nodes are then numbered from 0 in the order of
//! reading. This layer knows nothing of text, of lines or of statements.
#![tactic(auto)]

mod number;
mod read;
mod stack;
mod symbols;

pub use py_expr_shape::ExprFault;
pub use read::{read_expr, read_exprs, read_primary};
pub use symbols::symbols_of;
