//! The tree of a suite file, and the suite that it is.
//!
//! A file's tree has its tests, each with the statements as they were read, whatever their layout. Which of them are steps, blocks and assertions
//! is `specs/Spelled`, by the forms that `suite_model` spells; which faults a file has, of which the earliest is refused, and which suite one
//! without faults is, is `specs/SuiteOf`.
//!
//! Definitions alone. It builds on `suite_model`, and knows nothing of text, of writing or of running.
#![tactic(auto)]

mod entry;
mod examples;
mod file;
mod laws;
mod spelled;

pub use entry::{At, Entry};
pub use examples::{files_by_example, forms_by_example};
pub use file::{FileStmt, FileTest, SuiteFile};
pub use laws::laws_of_displays;
pub use spelled::{Asked, Named, Right, Spelled};
