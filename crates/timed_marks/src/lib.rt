//! Marks that can be taken back: who watches a run keeps when each mark was first set, so that the marks which stood at an earlier time
//! can be told from those that came later.
//!
//! Time is counted in events. A mark that is set stays, with the time at which it was first set; so the marks before a time are those that a run
//! would have left which ended there, and no run has to be made twice for them.
//!
//! This layer must never know what a statement is, or which of a run's statements are kept.
#![tactic(auto)]

mod laws;
mod timed;
mod times;

pub use laws::law_of_times;
pub use timed::TimedMarks;
pub use times::Times;
