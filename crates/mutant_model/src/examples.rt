// The mutants of small functions.
ghost use Rattle.mutant_model.specs.Examples.{Plain, Chain, Greatest, Handlers, NextInteger, Elsewhere, LessOrEqual, Negated};

/// Tests, literals, signs, chains of comparisons and augmented assignments.
#[tactic(auto, using(crate::proofs::Levels::plain_mutants, crate::proofs::Levels::chain_mutants, crate::proofs::Levels::greatest))]
pub fn mutants_by_example()
    ensures plain { Plain }
    ensures chain { Chain }
    ensures greatest { Greatest }
{}

/// Which `except` clauses are emptied.
#[tactic(auto, using(crate::proofs::Levels::handlers))]
pub fn handlers_by_example()
    ensures handlers { Handlers }
{}

/// What rows make of their nodes.
#[tactic(auto, using(crate::proofs::Levels::next_integer, crate::proofs::Levels::elsewhere, crate::proofs::Levels::less_or_equal, crate::proofs::Levels::negated))]
pub fn rewriting_by_example()
    ensures next_integer { NextInteger }
    ensures elsewhere { Elsewhere }
    ensures less_or_equal { LessOrEqual }
    ensures negated { Negated }
{}
