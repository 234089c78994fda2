//! Rows of the running layers, from the table of objects to the built-in functions, with ample memory. Expected values are
//! Python's own. Nothing but tests is here, so that no crate below is proved twice.
#![tactic(auto)]

#[cfg(test)]
mod acts;
#[cfg(test)]
mod builtins;
#[cfg(test)]
mod methods;
#[cfg(test)]
mod objects;
#[cfg(test)]
mod operators;
#[cfg(test)]
mod values;
