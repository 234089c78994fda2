// Worked examples of assignments (7.2).
ghost use Rattle.py_plain.specs.ExamplesAssignments.{Aliasing0, Aliasing1, TupleTooMany0, TupleTooFew0, ValueBeforeTarget0, AugmentItemOnce0, AugmentListInTuple0, AugmentUnbound0};

/// What the definitions say of small tests: assignments (7.2).
pub fn assignments_by_example()
    ensures aliasing_0 { Aliasing0 }
    ensures aliasing_1 { Aliasing1 }
    ensures tuple_too_many_0 { TupleTooMany0 }
    ensures tuple_too_few_0 { TupleTooFew0 }
    ensures value_before_target_0 { ValueBeforeTarget0 }
    ensures augment_item_once_0 { AugmentItemOnce0 }
    ensures augment_list_in_tuple_0 { AugmentListInTuple0 }
    ensures augment_unbound_0 { AugmentUnbound0 }
{}
