// Worked examples of import.
ghost use Rattle.py_plain.specs.ExamplesImport.{Programs, Imported};
ghost use Rattle.py_plain.specs.Tests.{Trail};

/// What the definitions say of a small module: its functions, classes and names, and the state in which a test begins.
#[tactic(auto, using(crate::proofs::ExamplesImport::programs))]
pub fn import_by_example()
    ensures programs { Programs }
    ensures imported { (seen : Trail) → Imported seen }
{}
