//! How tokens are spelled: a text whose tokens are the ones that it was made of.
//!
//! A token has one spelling, two neighbours need a space where they would be cut otherwise, and a row is the text of one logical
//! line. `specs/Spelling` defines them, after the Language Reference, chapter 2. No code runs here: what is proved are the laws. What
//! tokens mean beside each other is for the layers above.
#![tactic(auto)]

mod laws;
mod spelling_examples;

pub use laws::laws_of_spelling;
pub use spelling_examples::spelling_by_example;
