//! What a machine does to its state between two nodes: each call here is one run of the plain meaning that has no part to evaluate.
//!
//! A contract says of a call that the run of the definition, from the state before, ends as the call's answer says, in the state after.
//! An operation on objects is paid from the state's own steps. Where it raises, the exception is a new object. Only want of memory is
//! outside the meaning, and after it nothing is said of the state.
//!
//! This layer must never know of a stack, nor of a part of an expression or a statement that is still to be evaluated.
#![tactic(auto)]

mod answers;
mod clauses;
mod displays;
mod names;
mod operators;
mod raises;
mod subscripts;
mod watching;

pub use answers::{Finding, Outcome, give, given, is_true, settle_change};
pub use clauses::{bind_as, enter_clause, leave_clause, unbind_as};
pub use displays::{make_dict, make_list, make_tuple};
pub use names::{bind, bind_all, bind_names, unbind, unpack};
pub use operators::{augment, compare, judge_comparison, negate, operate, sign};
pub use raises::{fail, make_exception, make_instance, raise, raise_object, reraise};
pub use subscripts::{delete_item, get_item, get_slice, set_item};
pub use watching::{begin, decide, take};
