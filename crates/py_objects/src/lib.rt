//! The table of objects, and what its calls do to it.
//!
//! A contract sees a table as its list of objects. Each call is one statement: its answer, the list after it and
//! the steps left are the definition's function of the list before it. After any answer but `Done` the list is as
//! it was. The layer above uses nothing else of it, so that objects may be kept otherwise one day. It must never
//! know of frames, trees or text.
//!
//! It builds on `py_meaning`, which has the definitions, and on `pyn_base`.
#![tactic(auto)]

mod add;
mod collect;
mod dicts;
mod displays;
mod equal;
mod find;
mod fork;
mod hashes;
mod held;
mod instances;
mod keys;
mod lists;
mod objects;
mod order;
mod payment;
mod places;
mod ranges;
mod same;
mod truth;
mod unpaid;
mod walk;

pub use lists::shared_all;
pub use objects::Objects;
pub use payment::{is_within_machine, pay};
pub use places::{index_place, insert_place};
pub use py_meaning::{ObjKind, Object, Op, Order, PyStr, PyTuple, Sequence, Shared, Value, View};
pub use same::{is_same_class, is_same_single, is_view, number};
