//! What running means in its corners: worked examples of what a reader of the Language Reference and of the manual would have to ask.
//!
//! Each clause is one choice: what is charged before an operation fails, which of two faults comes first, on which side a value is compared,
//! when a function or a node has begun. They are proved by computation from the definitions of `py_meaning` and `py_plain`. Nothing is defined
//! here but the small module that they speak of.
#![tactic(auto)]

mod calls;
mod comparisons;
mod costs;
mod statements;
mod views;

pub use calls::{attribute_examples, call_examples};
pub use comparisons::comparison_examples;
pub use costs::cost_examples;
pub use statements::statement_examples;
pub use views::view_examples;
