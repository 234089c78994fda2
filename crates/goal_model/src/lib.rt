//! The goals of a module: its functions' entries, the branches of its decisions and the lines of its statements; which goal governs
//! which, and what a run takes.
//!
//! Goals are those of Pynguin and of DynaMOSA ("Automated Test Case Generation as a Many-Objective Optimisation Problem with Dynamic
//! Selection of the Targets", Panichella, Kifetew and Tonella, 2018): branch coverage, with lines beside. Nesting stands in for
//! control dependence. A body's points are its statements and its decisions, in the order of reading, each with the goal that governs it (`Points`);
//! goals are made of points (`Goals`), and taken by the trail of a run (`Taken`). Definitions alone: nothing is looked up or kept here.
#![tactic(auto)]

mod examples;
mod kind;
mod laws;
mod point;

pub use examples::{branches_by_example, clauses_by_example, lines_by_example};
pub use kind::GoalKind;
pub use laws::laws_of_points;
pub use point::Point;
