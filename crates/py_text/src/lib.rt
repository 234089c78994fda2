//! Texts: what is found, cut and made of them, and the integers that they spell.
//!
//! Each function is pure: from slices of characters it makes a place, a truth, a part of the slice, or new texts, as the
//! manual's chapter "String Methods" defines it. Each takes time linear in the texts that it reads and in what it makes. The
//! functions whose names end in `_length` say beforehand how much would be made. It must never know of objects, steps or
//! methods.
#![tactic(auto)]

mod cuts;
mod ends;
mod joins;
mod looks;
mod numerals;
mod places;

pub use cuts::{copied, pieces, words};
pub use ends::{without_blanks, without_characters};
pub use joins::{joined, joined_length, replaced, replaced_length};
pub use looks::{are_digits, begins_with, finishes_with, is_ascii, lower, upper};
pub use numerals::{integer_text, spelled, truth_text};
pub use places::first_place;
