//! Lines are plain: after the first statement of a line, each further statement on that line is governed by the same goal, or by a decision
//! next within it. A law of every module that reading gives.
//!
//! That statements share a line only with `;` between them or after one header, and that lines follow one another, is no part of the
//! definition of a module: it is proved here from the definition of reading. `specs/Layout` says how the statements of a body lie on lines;
//! what reading gives lies so, numbering moves no statement, and a body that lies so has plain lines.
//!
//! It builds on `py_grammar`, `py_nodes` and `goal_model`, and has definitions and laws alone: no reader, no run and no test is known here.
#![tactic(auto)]

mod examples;
mod laws;

pub use examples::{layout_by_example, lines_by_example};
pub use laws::laws_of_lines;
