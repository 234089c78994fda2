//! Reads modules: the bytes of a file become a syntax tree, or a refusal that names a line and a construct.
//!
//! `read_first` reads the first form of a module, functions that return one literal, in one pass over the lines.
//! Its contract is one clause: the answer is the one that `py_language` defines, `first_form`, both as to the tree
//! with all its numbers and as to the line of a refusal. Only out of memory is free.
//!
//! The code cuts a line, tests it and goes on; the definition speaks of functions that are parted by empty lines, and
//! of lines that a text of the form can begin with. They share nothing but the words for what one line spells.
//!
//! It stands on `py_language` for the words, `py_syntax` for the trees and `pyn_base`. It knows nothing of files, of
//! running, or of what a module means.
#![tactic(auto)]

mod cut;
mod first_form;
mod line;
mod literal;
mod names;
mod tree;

pub use first_form::read_first;
