//! What was read is read back from its text: an expression, and a module, the same up to lines and node numbers.
//!
//! Here what the layers below say is put together. The tokens of a text are sound, so those of each line that a module is laid out in are
//! (`py_layout`); the text of such lines has exactly these lines again (`py_printer`), which are read as the module (`py_layout`); and the
//! numbers of its nodes play no part in it (`py_nodes`). Laws alone: nothing is read or printed here, and nothing is known of what a module means.
#![tactic(auto)]

mod examples;
mod laws;

pub use examples::brackets_by_example;
pub use laws::{law_of_numbered_modules, law_of_printed_expressions, law_of_printed_modules};
