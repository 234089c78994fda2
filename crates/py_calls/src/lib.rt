//! What a call does to a state of the machine before and after its body, and calls that have no body.
//!
//! `fit_call` binds the arguments of a call of the module's, or says how the call ends before its body; `enter` and `leave` change frames.
//! `call_method` does all that a call of a built-in type's method does, and `call_builtin` all of a call of a built-in function or type,
//! with `isinstance` and `str`, which ask for the module's classes. `make_plain` makes an instance of a class without `__init__`, and
//! `make_for_init` one whose `__init__` is called next; `initialized` refers to it after that call, and `call_base` is the `__init__` of
//! built-in classes. `find_super` says what `super().name` means.
//!
//! A contract says of a call that the run of the definition, from the state before, ends as the call's answer says, in the state after.
//! Where a body comes between, as after `fit_call` and `make_for_init`, it says that the run goes on so from there.
//!
//! This layer must never know of a stack, nor of a part that is still to be evaluated.
#![tactic(auto)]

mod builtins;
mod classes;
mod frames;
mod instances;
mod methods;
mod supers;
mod texts;

pub use builtins::call_builtin;
pub use frames::{enter, fit_call, leave};
pub use instances::{call_base, initialized, make_for_init, make_plain};
pub use methods::call_method;
pub use supers::find_super;
