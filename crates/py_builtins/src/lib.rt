//! The built-in functions and types that are called by their names: `len`, `abs`, `min`, `max`, `sum`, `str`, `int`, `bool`, `list`,
//! `tuple`, `dict`, `range` and `print`.
//!
//! One call, `call_builtin`, does them all. The definition has one equation a row of the manual's table, and so has the code:
//! each row is a function whose contract is the row's own definition. After any answer but `Done` the objects are as they
//! were, also where `sum` had made lists on its way. What a row pays comes before what it makes, so that no row takes memory
//! that a run hasn't steps for; the text of an integer alone, which has forty characters at most, is made first.
//!
//! `call_method`, of `py_methods`, is given on to the layer above. It must never know of frames, trees, files or the module
//! under test: `isinstance` asks for the module's classes, and is done above.
#![tactic(auto)]

mod call;
mod collections;
mod extremes;
mod numbers;
mod ranges;
mod sums;
mod texts;

pub use call::call_builtin;
pub use py_meaning::Builtin;
pub use py_methods::call_method;
