//! The tables in which a run looks up what its module tells it: functions with their locals, classes with their bases, and the names
//! that are there before any module is read.
//!
//! `Tables::new` makes them of a module once, and a contract sees them as the module's `program_of`; each lookup is that definition's
//! own. A function's locals are collected there, so that no name is searched in a tree while a program runs. The collecting goes down
//! the tree of statements, which is no deeper than the reader's limit.
//!
//! This layer must never know of values, objects, frames or steps.
#![tactic(auto)]

mod bound;
mod built;
mod classes;
mod names;
mod tables;

pub use built::{built_class_named, builtin_named, builtin_of_class};
pub use names::{
    is_dict_method, is_left_of_dict, is_left_of_integer, is_left_of_list, is_left_of_text,
    is_left_of_tuple, is_list_method, is_text_method,
};
pub use tables::{ClassRow, FunctionRow, Tables, assigned_in};
