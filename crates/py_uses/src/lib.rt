//! What a module's text does with names, listed in order: the lists that acceptance's rules go through.
//!
//! `Uses` is the list that `py_scopes` defines of an expression, of a statement in its surroundings and of a body, and `pieces_of` cuts those
//! of a whole module by the place in which they stand: at the module's level, in a class, or in a function's body. The lists refer to the
//! module and copy no name. Each node is visited once, and the arguments of a call are compared by an ordered set, so the whole takes
//! `n log n` in the module's size.
//!
//! No rule is here, and nothing is looked up.
#![tactic(auto)]

mod arguments;
mod expressions;
mod pieces;
mod statements;
mod uses;

pub use expressions::add_expr;
pub use pieces::{Piece, Place, pieces_of};
pub use statements::{Around, add_body, add_stmt};
pub use uses::{Use, Used, Uses};
