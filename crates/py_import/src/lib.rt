//! The state in which a test begins: what import binds, with no object and no step.
//!
//! `import` gives exactly the definition's `imported` of a module's tables. The values of constants, of defaults and of constants of classes are
//! found by going down their trees, which are no deeper than the reader's limit. No machine is needed.
//!
//! This layer must never know of steps, of a stack or of who watches.
#![tactic(auto)]

mod bindings;
mod constants;
mod space;

pub use space::import;
