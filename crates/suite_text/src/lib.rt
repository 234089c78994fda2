//! The text of a suite, which is a pytest file, and which suites can be read back from theirs.
//!
//! Definitions, with a law. Each step and each assertion is the statement that `suite_model` spells it as, and its lines are those that `py_layout`
//! has for that statement; so what is proved of printed lines and of reading them back holds of a suite's lines too (`specs/SuiteText`).
//! The lines of the steps in a suite's value play no part: they are known only once there is a text. `specs/Printable` says of which
//! suites the text says everything, and the text of such a suite is read as exactly the lines that it was made of (`specs/Laws`).
//!
//! It stands on `suite_model` and `module_printer`, and knows nothing of how a suite is found, run or read.
#![tactic(auto)]

mod examples;
mod laws;

pub use examples::{printable_by_example, suites_by_example};
pub use laws::law_of_suites;
