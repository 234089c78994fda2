// The goals of small functions.
ghost use Rattle.goal_model.specs.Examples.{OneLine, Branches, Chains, Targets, Loops, Handlers, Taken};

/// Two statements on one line have one goal, and what takes it.
#[tactic(auto, using(crate::proofs::Levels::one_line, crate::proofs::Levels::taken))]
pub fn lines_by_example()
    ensures one_line { OneLine }
    ensures taken { Taken }
{}

/// The branches of `if`, `elif`, `else`, loops and `assert`, with a chain of parents and the goals that are next.
#[tactic(auto, using(crate::proofs::Levels::branches, crate::proofs::Levels::chains, crate::proofs::Levels::targets, crate::proofs::Levels::loops))]
pub fn branches_by_example()
    ensures branches { Branches }
    ensures chains { Chains }
    ensures targets { Targets }
    ensures loops { Loops }
{}

/// The parts of a `try`.
#[tactic(auto, using(crate::proofs::Levels::handlers))]
pub fn clauses_by_example()
    ensures handlers { Handlers }
{}
