// Small statements, laid out.
ghost use Rattle.py_layout.specs.Examples.{SmallExamples};

/// A tuple of one, two targets, an annotation, an augmented assignment, what is deleted, a message, and a `return` alone, whatever the
/// expressions in them are.
pub fn small_statements_by_example()
    ensures { SmallExamples }
{}
