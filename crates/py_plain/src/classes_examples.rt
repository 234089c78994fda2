// Worked examples of classes (3.2 and 8.8).
ghost use Rattle.py_plain.specs.ExamplesClasses.{ClassFunction0, InitReturns0, SuperChain0, SuperOfClass0, Mro0, MissingOfClass0, SetClassAttribute0, InheritedConstant0, ExceptionInit0};

/// What the definitions say of small tests: classes (3.2 and 8.8).
pub fn classes_by_example()
    ensures class_function_0 { ClassFunction0 }
    ensures init_returns_0 { InitReturns0 }
    ensures super_chain_0 { SuperChain0 }
    ensures super_of_class_0 { SuperOfClass0 }
    ensures mro_0 { Mro0 }
    ensures missing_of_class_0 { MissingOfClass0 }
    ensures set_class_attribute_0 { SetClassAttribute0 }
    ensures inherited_constant_0 { InheritedConstant0 }
    ensures exception_init_0 { ExceptionInit0 }
{}
