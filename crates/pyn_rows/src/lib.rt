//! Rows of the program, which no clause says: each public function once with ample memory, and the texts of whole files.
//!
//! The expected values come from the formats and from Python's own rules. Nothing stands on this crate.
#![tactic(auto)]

#[cfg(test)]
mod first_form;
#[cfg(test)]
mod integers;
#[cfg(test)]
mod real_desk;
#[cfg(test)]
mod refusals;
#[cfg(test)]
mod top_call;
