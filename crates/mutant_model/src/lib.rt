//! What the mutants of a module are: copies of it, each with one node of a function's body rewritten.
//!
//! The operators are those of mutation testing, by the acronyms of MutPy ("MutPy: a mutation testing tool for Python"): AOD and AOR on
//! arithmetic, ASR on augmented assignments, BCR on `break` and `continue`, COI on tests, CRP on literals, EHD and EXS on `except` clauses,
//! LCR on `and` and `or`, ROR on comparisons. `Rows` is their table, one equation a row; `Sites` lists what applies where, in the order of
//! reading; `Rewriting` makes the mutant; `Mutants` puts them together, up to a cap. Definitions alone.
//!
//! It builds on `report_model`, whose lines name the operators, on `py_nodes`, by which a mutant's nodes are numbered anew, and on `py_names`.
#![tactic(auto)]

mod examples;
mod laws;
mod mutant;

pub use examples::{handlers_by_example, mutants_by_example, rewriting_by_example};
pub use laws::laws_of_mutants;
pub use mutant::Mutant;
pub use report_model::Operator;
