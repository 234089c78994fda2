//! The names of a module's functions and classes: each is an identifier, and in a module that is accepted each finds what it names.
//!
//! That a name is no keyword is no part of the definition of a module, and that no two functions have one name is no part of the meaning: the
//! first is proved here from the definition of reading, and the second from the row of acceptance that refuses a name bound twice. So whoever
//! writes a module's names into a file can read them back, and means by them what the module means.
//!
//! It builds on `line_laws`, `py_spelling`, `py_scopes` and `suite_file`, and has definitions and laws alone: no reader, no printer and no run is
//! known here.
#![tactic(auto)]

mod examples;
mod laws;

pub use examples::{found_by_example, identifiers_by_example};
pub use laws::{laws_of_accepted_names, laws_of_read_names};
