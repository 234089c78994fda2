//! What the grammar is: the definitions by which the logical lines of a text are read as a module.
//!
//! A logical line has a form: small statements, or the header of a compound statement with what stands on its line. Blocks are
//! cut by columns, compound statements are put together from their headers and blocks, and the first faulty line is refused.
//! The words follow the Language Reference 3.10, chapters 7 and 8, and its full grammar. The definitions have a cut of a list
//! where the readers above have a cursor or a stack. This layer knows nothing of names in scope or of running.
#![tactic(auto)]

mod form;
mod form_examples;
mod place;
mod refusal_examples;
mod separator;

pub use form::{Form, Header};
pub use form_examples::forms_by_example;
pub use place::Place;
pub use refusal_examples::{refused_lines_by_example, refused_tokens_by_example};
pub use separator::Separator;
