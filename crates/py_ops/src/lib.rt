//! The operators of the subset: arithmetic, augmented assignments, comparisons, membership, subscriptions and slicings
//! (Language Reference 6.3.2, 6.3.3, 6.6, 6.7, 6.10 and 7.2.1).
//!
//! Nine calls, one for each form of operator. A cost is taken before its effect, and before memory is, so that no answer
//! is larger than the steps that were left. After any answer but `Done` the objects are as they were. It must never know
//! of names, frames or trees.
#![tactic(auto)]

mod arithmetic;
mod augmented;
mod comparisons;
mod identity;
mod membership;
mod repeat;
mod slices;
mod subscripts;

pub use arithmetic::{binary, unary};
pub use augmented::augment;
pub use comparisons::compare;
pub use membership::contains;
pub use py_syntax::{BinOp, CmpOp, Sign};
pub use slices::slice;
pub use subscripts::{delete_item, get_item, set_item};
