//! Reads a text as a suite file: a module with two more forms of lines, up to the first fault.
//!
//! `read_suite_file` gives exactly the tree or the refusal that the grammar of suite files defines; out of memory is the only other answer. What is
//! as in a module is read by `py_parser`, and each line's form by `py_line`: only the two import lines and a `with` are read here. A test's
//! statements are kept, and of all else at the top of the file the line alone.
//!
//! It knows nothing of what a suite means, of modules that are tested, or of files on a desk.
#![tactic(auto)]

mod blocks;
mod files;
mod forms;
mod tests;

pub use files::read_suite_file;
