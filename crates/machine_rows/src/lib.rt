//! Rows of the frame machine and of tests' runs, with ample memory: modules as Python texts, tests as texts or as steps, how each line ends, what
//! it costs and what is gained. Expected values are Python's own, and steps those of docs/LANGUAGE.md. Nothing but tests is here, so that no
//! crate below is proved twice.
#![tactic(auto)]

#[cfg(test)]
mod goals;
#[cfg(test)]
mod rows;
#[cfg(test)]
mod runs;
#[cfg(test)]
mod tests;
