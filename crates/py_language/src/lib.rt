//! What the language is: the definitions by which a text is read as Python.
//!
//! The words of this crate are what a reader must believe of reading: tokens, expression trees, the forms of
//! modules. They are recursions on the text, the list of tokens or the tree, apart from the code of the
//! layers above, which are proved to compute them. The plain data types that the words speak of stand here
//! too. This layer reads nothing itself.
//!
//! It stands on `py_cut`, `py_syntax` and `pyn_base`.
#![tactic(auto)]

mod first;
mod first_form_examples;
mod shape;
mod token;
mod token_examples;
mod token_laws;
mod tree_examples;

pub use first::First;
pub use first_form_examples::{examples_of_first_form, laws_of_first_form};
pub use shape::{Atom, Bracket, Shape, Symbol};
pub use token::{Keyword, Logical, Mark, Token, Tokens};
pub use token_examples::worked_tokens;
pub use token_laws::laws_of_tokens;
pub use tree_examples::{
    depths_by_example, groups_by_example, numbers_by_example, operators_by_example,
    refusals_by_example,
};
