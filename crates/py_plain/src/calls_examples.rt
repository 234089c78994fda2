// Worked examples of calls (6.3.4).
ghost use Rattle.py_plain.specs.ExamplesCalls.{TooMany0, NotCallableWithNames0, CalleeFirst0, KeywordOfBuiltin0, FunctionAttribute0, RaisedAndOn0, RaisedAndOn1, OutOfStepsBeforeFunction0, OutOfStepsInCall0, CallDepth0};

/// What the definitions say of small tests: calls (6.3.4).
pub fn calls_by_example()
    ensures too_many_0 { TooMany0 }
    ensures not_callable_with_names_0 { NotCallableWithNames0 }
    ensures callee_first_0 { CalleeFirst0 }
    ensures keyword_of_builtin_0 { KeywordOfBuiltin0 }
    ensures function_attribute_0 { FunctionAttribute0 }
    ensures raised_and_on_0 { RaisedAndOn0 }
    ensures raised_and_on_1 { RaisedAndOn1 }
    ensures out_of_steps_before_function_0 { OutOfStepsBeforeFunction0 }
    ensures out_of_steps_in_call_0 { OutOfStepsInCall0 }
    ensures call_depth_0 { CallDepth0 }
{}
