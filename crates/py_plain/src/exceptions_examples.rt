// Worked examples of exceptions (8.4).
ghost use Rattle.py_plain.specs.ExamplesExceptions.{Caught0, BareClause0, FinallyReplacesReturn0, FinallyBreaks0, ContinueThroughFinally0, NameUnboundAfter0, AssertFails0, RaiseNoException0, ReraiseInnermost0, ExceptionAttribute0, NoFinallyWhenLeft0};

/// What the definitions say of small tests: exceptions (8.4).
pub fn exceptions_by_example()
    ensures caught_0 { Caught0 }
    ensures bare_clause_0 { BareClause0 }
    ensures finally_replaces_return_0 { FinallyReplacesReturn0 }
    ensures finally_breaks_0 { FinallyBreaks0 }
    ensures continue_through_finally_0 { ContinueThroughFinally0 }
    ensures name_unbound_after_0 { NameUnboundAfter0 }
    ensures assert_fails_0 { AssertFails0 }
    ensures raise_no_exception_0 { RaiseNoException0 }
    ensures reraise_innermost_0 { ReraiseInnermost0 }
    ensures exception_attribute_0 { ExceptionAttribute0 }
    ensures no_finally_when_left_0 { NoFinallyWhenLeft0 }
{}
