// Worked examples of loops (8.2 and 8.3).
ghost use Rattle.py_plain.specs.ExamplesLoops.{ForGrows0, ForDictChanged0, ForEmpty0, WhileForever0, ForNotWalked0, ForOutOfSteps0, WhileReturn0};

/// What the definitions say of small tests: loops (8.2 and 8.3).
pub fn loops_by_example()
    ensures for_grows_0 { ForGrows0 }
    ensures for_dict_changed_0 { ForDictChanged0 }
    ensures for_empty_0 { ForEmpty0 }
    ensures while_forever_0 { WhileForever0 }
    ensures for_not_walked_0 { ForNotWalked0 }
    ensures for_out_of_steps_0 { ForOutOfSteps0 }
    ensures while_return_0 { WhileReturn0 }
{}
