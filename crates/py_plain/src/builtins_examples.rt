// Worked examples of built-in functions and methods.
ghost use Rattle.py_plain.specs.ExamplesBuiltins.{IsinstanceCount0, IsinstanceNested0, IsinstanceNestedAfter0, IsinstanceNoClass0, StrOfInstance0, StrOfKeyError0, ObjectCalled0, MethodLeaves0, MethodMissingBeforeArguments0, MethodNotCalled0};

/// What the definitions say of small tests: built-in functions and methods.
pub fn builtins_by_example()
    ensures isinstance_count_0 { IsinstanceCount0 }
    ensures isinstance_nested_0 { IsinstanceNested0 }
    ensures isinstance_nested_after_0 { IsinstanceNestedAfter0 }
    ensures isinstance_no_class_0 { IsinstanceNoClass0 }
    ensures str_of_instance_0 { StrOfInstance0 }
    ensures str_of_key_error_0 { StrOfKeyError0 }
    ensures object_called_0 { ObjectCalled0 }
    ensures method_leaves_0 { MethodLeaves0 }
    ensures method_missing_before_arguments_0 { MethodMissingBeforeArguments0 }
    ensures method_not_called_0 { MethodNotCalled0 }
{}
