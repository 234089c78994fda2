//! The frame machine's transitions of expressions and assignments, each of which does one thing of the plain meaning with a stack of its own.
//!
//! What was to be done under the stack before is what is to be done under the stack after. A part of a node that has to be evaluated first is
//! done next, and the node waits for it on the stack. `start_*` begin a node with its first part, `next_*` go on in a list of parts, and
//! `resume_*` take the value that an entry of the stack waited for. Calls and statements are done above.
//!
//! This layer must never know how an operation works on the objects, nor who watches.
#![tactic(auto)]

mod augments;
mod decisions;
mod displays;
mod operands;
mod starts;
mod stores;

pub use augments::start_augmented_name;
pub use decisions::{resume_decision, start_conjunction, start_disjunction};
pub use displays::{next_item, next_pair, next_part};
pub use operands::resume_operand;
pub use starts::{
    start_attribute, start_binary, start_comparison, start_conditional, start_index, start_not,
    start_sign, start_slice,
};
pub use stores::resume_store;
