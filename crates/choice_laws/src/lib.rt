//! What a chosen suite has: no goal is missing that a test of the list takes and a file can show, and each test is needed for one.
//!
//! Which tests are chosen is one definition, by two passes over a list; what a minimal suite is is another, by what a suite loses where
//! something is left out. Here they are joined. So whoever writes the chosen tests into a file knows, without trying to leave one out, that
//! the suite is minimal, and that no goal of the list is lost.
//!
//! It builds on `chosen_tests` and `case_laws`, and has definitions and laws alone: no run and no text of a file is known here.
#![tactic(auto)]

mod laws;

pub use laws::laws_of_choices;
