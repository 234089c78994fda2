// Worked examples of decisions (6.10 to 6.12 and 8.1).
ghost use Rattle.py_plain.specs.ExamplesDecisions.{ChainFailsFirst0, ConditionalFalse0, ConditionalAsTest0, AndStops0, OrStops0, NotOfComparison0};

/// What the definitions say of small tests: decisions (6.10 to 6.12 and 8.1).
pub fn decisions_by_example()
    ensures chain_fails_first_0 { ChainFailsFirst0 }
    ensures conditional_false_0 { ConditionalFalse0 }
    ensures conditional_as_test_0 { ConditionalAsTest0 }
    ensures and_stops_0 { AndStops0 }
    ensures or_stops_0 { OrStops0 }
    ensures not_of_comparison_0 { NotOfComparison0 }
{}
