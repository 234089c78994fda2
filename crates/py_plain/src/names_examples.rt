// Worked examples of names and scopes (Language Reference 4.2).
ghost use Rattle.py_plain.specs.ExamplesNames.{TestReadsTheModule0, TestReadsTheModule1, Constant0, BuiltinValue0, FunctionValue0, UnboundLocal0, LocalShadowsBuiltin0, UnboundInOneBranch0};

/// What the definitions say of small tests: names and scopes (Language Reference 4.2).
pub fn names_by_example()
    ensures test_reads_the_module_0 { TestReadsTheModule0 }
    ensures test_reads_the_module_1 { TestReadsTheModule1 }
    ensures constant_0 { Constant0 }
    ensures builtin_value_0 { BuiltinValue0 }
    ensures function_value_0 { FunctionValue0 }
    ensures unbound_local_0 { UnboundLocal0 }
    ensures local_shadows_builtin_0 { LocalShadowsBuiltin0 }
    ensures unbound_in_one_branch_0 { UnboundInOneBranch0 }
{}
