// A small module, its types and callables, and tests of it.
ghost use Rattle.suite_model.specs.Examples.{Annotations, Integers, Derived, Called, TypesOfSteps, WellFormed, Spelled, Asserted};

/// The types that annotations name, and which type serves for another.
#[tactic(auto, using(crate::proofs::Levels::annotations, crate::proofs::Levels::integers, crate::proofs::Levels::derived))]
pub fn types_by_example()
    ensures annotations { Annotations }
    ensures integers { Integers }
    ensures derived { Derived }
{}

/// What may be called, a test with its types and its statements, and assertions.
#[tactic(auto, using(crate::proofs::Levels::called, crate::proofs::Levels::types_of_steps, crate::proofs::Levels::well_formed, crate::proofs::Levels::spelled, crate::proofs::Levels::asserted))]
pub fn statements_by_example()
    ensures called { Called }
    ensures types_of_steps { TypesOfSteps }
    ensures well_formed { WellFormed }
    ensures spelled { Spelled }
    ensures asserted { Asserted }
{}
