//! What names and attributes mean in a state of the machine.
//!
//! A name is looked up in the frame, then among the module's names or the test's, then among the built-in ones; an attribute in an instance,
//! then in its class and along its bases. A contract says of a call that the run of the definition, from the state before, ends as the call's
//! answer says, in the state after. What is found by an attribute is a `Callee`: either a value, or a method that a call may call.
//!
//! This layer must never know of a stack, nor of a part that is still to be evaluated.
#![tactic(auto)]

mod attributes;
mod instances;
mod members;
mod names;
mod stores;

pub use attributes::{find, read_found};
pub use instances::find_above;
pub use members::{class_member, class_of, class_of_object, handles, initializer};
pub use names::{builtin_meant, function_in, read, read_name};
pub use stores::set_attribute;
