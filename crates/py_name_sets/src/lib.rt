//! Sets and maps of the names of a module, in which a name is found in logarithmic time.
//!
//! A contract sees the names in the order in which they came, also one that came twice: a name counts as there if it is among them, and
//! has the value of its first row. So what a definition says of a list of names is what a set of this crate answers, and a growing list
//! is never gone through again.
#![tactic(auto)]

mod map;
mod set;

pub use map::NameMap;
pub use set::NameSet;
