// Worked examples of displays and operators (6.2 and 6.7).
ghost use Rattle.py_plain.specs.ExamplesOperators.{DictKeepsPlace0, DictUnhashable0, ListRunsOut0, IntegerRange0, ZeroDivision0, StringFormat0, Identity0, SubscriptOfClass0, ViewOperand0};

/// What the definitions say of small tests: displays and operators (6.2 and 6.7).
pub fn operators_by_example()
    ensures dict_keeps_place_0 { DictKeepsPlace0 }
    ensures dict_unhashable_0 { DictUnhashable0 }
    ensures list_runs_out_0 { ListRunsOut0 }
    ensures integer_range_0 { IntegerRange0 }
    ensures zero_division_0 { ZeroDivision0 }
    ensures string_format_0 { StringFormat0 }
    ensures identity_0 { Identity0 }
    ensures subscript_of_class_0 { SubscriptOfClass0 }
    ensures view_operand_0 { ViewOperand0 }
{}
