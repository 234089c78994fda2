//! Prints modules as a Python programmer lays them out.
//!
//! `print_module` gives exactly the text of the lines of `specs/Modules`. They are the lines that `py_layout` defines for a module, with the
//! annotations of `py_annotation_layout` (`law_of_lines`), and with the empty lines of PEP 8: two before and after each function and class of a
//! module, one before and after each method, and none at the ends. Each line is the text that the pen of `py_printer` writes for its
//! tokens, and every block is four columns deeper than its header. It knows nothing of files, and not what a module means.
#![tactic(auto)]

mod annotations;
mod blocks;
mod examples;
mod gaps;
mod headers;
mod imports;
mod laws;
mod lists;
mod modules;
mod page;
mod rows;
mod small;
mod targets;

pub use blocks::statement;
pub use examples::modules_by_example;
pub use headers::def;
pub use laws::law_of_lines;
pub use modules::print_module;
pub use page::{INDENT, Page};
pub use rows::{new_pen, tested_line};
