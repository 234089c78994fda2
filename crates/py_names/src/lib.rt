//! The names that statements bind, and so the locals of a function: defined once, for what refuses a module and for what runs it.
//!
//! The definition is a fold over the statement, after the Language Reference 4.2.1. Nothing is looked up here: what a name
//! means is for the crates above.
#![tactic(auto)]

ghost use Rattle.py_names.specs.Examples.{Targets, Branches, Loops, Handlers};
ghost use Rattle.py_names.specs.Laws.{ByStatement, ByClause};

/// What a statement or a clause binds, from what its parts bind.
#[tactic(auto, using(crate::specs::Folds::by_statement, crate::specs::Folds::by_clause))]
pub fn laws_of_names()
    ensures by_statement { ByStatement }
    ensures by_clause { ByClause }
{}

/// The locals of small functions.
#[tactic(auto, using(crate::proofs::Levels::targets, crate::proofs::Levels::branches, crate::proofs::Levels::loops, crate::proofs::Levels::handlers))]
pub fn names_by_example()
    ensures targets { Targets }
    ensures branches { Branches }
    ensures loops { Loops }
    ensures handlers { Handlers }
{}
