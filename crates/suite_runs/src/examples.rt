// Small suites.
ghost use Rattle.suite_runs.specs.Examples.{InOrder, InBlock, Verdicts, Smaller, Empty, Faults, Answers};

/// What becomes of a mutant, from how the tests end on it.
pub fn verdicts_by_example()
    ensures verdicts { Verdicts }
{}

/// What stands in a test, and what is left of a suite where one thing is left out.
pub fn minimal_by_example()
    ensures in_order { InOrder }
    ensures in_block { InBlock }
    ensures smaller { Smaller }
{}

/// The report of a suite without tests.
pub fn reports_by_example()
    ensures empty { Empty }
{}

/// What a check says of outcomes and of texts.
pub fn answers_by_example()
    ensures faults { Faults }
    ensures answers { Answers }
{}
