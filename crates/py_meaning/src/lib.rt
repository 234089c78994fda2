//! What running means: values, objects and worlds, and the definitions of what each operation on them does.
//!
//! The plain data types are here, beside the definitions that speak of them. Definitions follow the manual's
//! chapter "Built-in Types" and the Language Reference, chapters 3 and 6. Strings and tuples are shared and
//! never change, so a copy of a value costs no more than a count, and a tuple knows how deep it is. The crate knows nothing of tables, frames
//! or text.
//!
//! It builds on `pyn_base` and `py_syntax`.
#![tactic(auto)]

mod answers;
mod builtin;
mod example_builtins;
mod example_methods;
mod example_operators;
mod example_texts;
mod examples;
mod measured;
mod object;
mod object_laws;
mod op;
mod order;
mod sequence;
mod shared;
mod soundness_laws;
mod tuple;
mod value;

pub use builtin::{Builtin, DictMethod, ListMethod, TextMethod};
pub use example_builtins::builtin_examples;
pub use example_methods::method_examples;
pub use example_operators::operator_examples;
pub use example_texts::text_examples;
pub use examples::world_examples;
pub use measured::Measured;
pub use object::{ObjKind, Object};
pub use object_laws::laws_of_objects;
pub use op::Op;
pub use order::Order;
pub use sequence::Sequence;
pub use shared::Shared;
pub use soundness_laws::laws_of_soundness;
pub use tuple::{TUPLE_LIMIT, deepest, new_tuple};
pub use value::{PyStr, PyTuple, Value, View};
