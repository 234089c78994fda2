//! A suite is read back from the tree that its text shows.
//!
//! `specs/Written` gives a suite the lines that it has in its text, and `specs/Shown` says which trees of files show it: statement by statement, whatever
//! numbers and layout their nodes have. The law: such a tree is read as exactly that suite, where each function and class is found by its name.
//!
//! A law over definitions. It stands on `suite_text`, `suite_file` and `name_laws`, and knows nothing of lexing or of blocks.
#![tactic(auto)]

mod laws;

pub use laws::law_of_shown_suites;
