// Small modules that are accepted or refused.
ghost use Rattle.py_scopes.specs.Examples.{Accepted, Known, Statements, Annotated, Loops};

/// Names that are known, and one that isn't.
#[tactic(auto, using(crate::proofs::Levels::accepted, crate::proofs::Levels::known))]
pub fn accepted_by_example()
    ensures accepted { Accepted }
    ensures known { Known }
{}

/// Statements, annotations and loops, of which some are refused.
#[tactic(auto, using(crate::proofs::Levels::statements, crate::proofs::Levels::annotated, crate::proofs::Levels::loops))]
pub fn refused_by_example()
    ensures statements { Statements }
    ensures annotated { Annotated }
    ensures loops { Loops }
{}
