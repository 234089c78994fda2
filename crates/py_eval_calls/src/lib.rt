//! The frame machine's transitions of calls: a callee, its arguments one by one, and then what is called.
//!
//! A call of a function of the module leaves its caller's frame on the stack and begins the function's body. All other calls end at once.
//! What was to be done under the stack before is what is to be done under the stack after, for each probe.
//!
//! This layer must never know of statements, but for a function's body, which is done next.
#![tactic(auto)]

mod arguments;
mod calls;
mod functions;
mod starts;

pub use arguments::resume_argument;
pub use calls::instantiate;
pub use functions::begins;
pub use starts::{start_call, start_method, start_super};
