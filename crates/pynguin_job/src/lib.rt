//! The job: a regression suite for a Python module, with a report that can be trusted.
//!
//! `pynguin` is the one call that does all that the program does, on a desk that it is given: it reads the words and the
//! module, and writes a pytest file and its report, or says why not. Its contract is the headline. With status 0, where the desk tells its
//! files, the written suite, read again and run by the plain meaning of the language, passes every test within
//! its steps; the report is exactly that run's; and no test can go without losing a goal. The other clauses say
//! why each status comes, what a run leaves on the desk, and what it says.
//!
//! A module is read by the grammar, judged by acceptance, and then has to have the first form. Each refusal has its line and its
//! construct. A fault is data (`JobFault`) up to the one place that turns it into text, and `say` is called in one place, last.
//!
//! Only this crate sees a desk, and it never sees which one.
#![tactic(auto)]

mod examples;
mod fault;
mod outputs;
mod reading;
mod say;
mod status;
mod top;
mod words;
mod work;

pub use examples::said_examples;
pub use fault::JobFault;
pub use status::Status;
pub use top::pynguin;
pub use words::{Job, JobFile, WordsFault, read_words};
