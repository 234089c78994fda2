//! The plain meaning of programs: what each expression and each statement of the subset does, node by node.
//!
//! This is the text by which to judge what a run means. It follows the Language Reference 3.10, chapters 4, 6, 7 and 8, a file a
//! chapter: `Names`, `Attributes`, `Classes`, `Operators`, `Decisions`, `Displays`, `Calls`, `Builtins`, `Assignments`, `Loops`,
//! `Exceptions`, and `Expressions` and `Statements`, which join them; `Import` has the state in which a test begins, and `Tests` a
//! test's statements. A run is a function of one state. The definitions recurse on the tree and on a number of steps, and
//! `laws_of_meaning` says that the number plays no part: one level at a time, an expression and a statement mean their node's
//! step and what their kind means. A watcher sees each node that begins and each decision, and changes nothing. `laws_of_runs`
//! says what holds of whole runs, of soundness, of objects and of the steps left, and `Assertions` which statements are a suite file's
//! assertions: these change nothing.
//!
//! The plain data types that the meaning and the machine share are in `src`. The crate knows nothing of a stack, and keeps
//! no table of objects: what a state's objects are is a parameter.
#![tactic(auto)]

mod assertions_examples;
mod assignments_examples;
mod builtins_examples;
mod calls_examples;
mod classes_examples;
mod decisions_examples;
mod exceptions_examples;
mod import_examples;
mod judged;
mod laws;
mod loops_examples;
mod names_examples;
mod operators_examples;
mod run;
mod state;

pub use assertions_examples::assertions_by_example;
pub use assignments_examples::assignments_by_example;
pub use builtins_examples::builtins_by_example;
pub use calls_examples::calls_by_example;
pub use classes_examples::classes_by_example;
pub use decisions_examples::decisions_by_example;
pub use exceptions_examples::exceptions_by_example;
pub use import_examples::import_by_example;
pub use judged::Judged;
pub use laws::{laws_of_meaning, laws_of_runs};
pub use loops_examples::loops_by_example;
pub use names_examples::names_by_example;
pub use operators_examples::operators_by_example;
pub use run::{Abrupt, Callee, End, Stop, Walk};
pub use state::{Frame, Space, State};
