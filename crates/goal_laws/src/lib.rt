//! A taken goal's parent is taken: a law of the plain meaning, for every run of every module.
//!
//! A run tells its watcher which nodes begin and how decisions come out, and what a trail of these takes is read from the nodes alone. That
//! a goal's governor was reached before is no part of that definition: it is proved here, by induction over the meaning of statements. A block
//! begins only where its governor has come, and no two points of a module share a node (`laws_of_numbered` of `py_sites`).
//!
//! The law asks two things of a module: its nodes are numbered as they are read, and its lines are plain (`line_laws`). Every module that was read
//! has both, so for those nothing is asked.
//!
//! It builds on `suite_model`, `py_sites` and `line_laws`, and has definitions and laws alone: no machine, no marks and no file are known here.
#![tactic(auto)]

mod laws;

pub use laws::{laws_of_governors, laws_of_taken_goals, laws_of_trails};
