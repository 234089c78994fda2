//! How the text of a suite file is read: the grammar of modules with two more forms of lines.
//!
//! At the top of a file a line may import pytest, or the module under test as `module_0`; in a test a statement may be a `with` whose item is
//! `pytest.raises(CLASS)`. All else is read as in a module, so a layout that Python reads is read, and what no module may have is refused with
//! the same words. What is read is the file's tree (`suite_file`), which tells whether the two imports come first and what stands beside tests.
//!
//! Definitions alone. It builds on `py_grammar` and `suite_file`, and knows nothing of what a suite means.
#![tactic(auto)]

mod examples;
mod form;

pub use examples::files_by_example;
pub use form::{TestForm, TopForm, TopItem};
