//! The methods of the built-in types: of lists, dicts and strings, called by their names.
//!
//! Its one call, [`call_method`], finds a method by the receiver's type and the name, and then by the number of
//! arguments. A cost is charged before its effect, so that what would take more memory than there are steps is out of
//! steps before it takes any. After any answer but `Done` the table is as it was.
//!
//! Each row of the table of methods is one small function whose contract is the row's own definition: of lists in
//! `lists`, of dicts in `dicts`, of strings in `texts`. It must never know of frames, trees or the module's own
//! classes.
#![tactic(auto)]

mod call;
mod dicts;
mod lists;
mod names;
mod texts;

pub use call::call_method;
