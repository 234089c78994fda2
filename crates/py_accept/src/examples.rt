// A small module that is accepted, and the same with a fault.
ghost use Rattle.py_accept.specs.Examples.{Taken, NotTaken};

/// What acceptance gives of a module, and that it refuses it where a name is unknown.
#[tactic(auto, using(crate::proofs::ExampleLevels::taken, crate::proofs::ExampleLevels::not_taken))]
pub fn acceptance_by_example()
    ensures taken { Taken }
    ensures not_taken { NotTaken }
{}
