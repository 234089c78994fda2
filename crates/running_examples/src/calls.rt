// Which fault of a call comes first, and what is found where a class or an exception is asked.
ghost use Rattle.std.specs.Prelude.{◌≡◌, true, [], ◌∷◌, Option, Some, None, Ok, Err, codes};
ghost use Rattle.py_meaning.specs.Examples.{id, ref, int, nested};
ghost use Rattle.py_meaning.specs.Tuples.{measured, tuple};
ghost use Rattle.py_plain.specs.Attributes.{finds, read_found};
ghost use Rattle.py_plain.specs.Calls.{calls, super_of_instance};
ghost use Rattle.py_plain.specs.Examples.{began, func_id};
ghost use Rattle.py_plain.specs.Runs.{passes};
ghost use Rattle.py_plain.specs.Tests.{recorder};
ghost use Rattle.running_examples.specs.Small.{program, in_test, named_x};

use py_meaning::{Builtin, Object, Value};
use py_plain::{Abrupt, Callee, Judged};
use pyn_base::{BuiltClass, ClassId, Construct};

/// Calls with an argument `x=1`: where none is taken by name, that comes before any other fault. A class whose `__init__` is found along its
/// bases takes it by that.
pub fn call_examples()
    ensures a_name_before_the_number { calls recorder program (λ stmt. passes) (Callee.Builtin Builtin.Len) [] named_x (in_test [] 10 []) ≡ (Err (Abrupt.Left Construct.KeywordArgument), in_test [] 10 []) }
    ensures a_name_before_object { calls recorder program (λ stmt. passes) (Callee.Value (Value.Class (ClassId.Built BuiltClass.Object))) (int 1 ∷ []) named_x (in_test [] 10 []) ≡ (Err (Abrupt.Left Construct.KeywordArgument), in_test [] 10 []) }
    ensures a_name_before_too_deep_arguments { calls recorder program (λ stmt. passes) (Callee.Value (Value.Class (ClassId.Built BuiltClass.ValueError))) (nested 50 ∷ []) named_x (in_test [] 10 []) ≡ (Err (Abrupt.Left Construct.KeywordArgument), in_test [] 10 []) }
    ensures no_callee_takes_a_name { calls recorder program (λ stmt. passes) (Callee.Value (int 5)) [] named_x (in_test [] 10 []) ≡ (Err (Abrupt.Raised (id 0)), in_test (Object.Instance (ClassId.Built BuiltClass.TypeError) [] None ∷ []) 10 []) }
    ensures an_inherited_init_takes_a_name { calls recorder program (λ stmt. passes) (Callee.Value (Value.Class (ClassId.Own 1))) [] named_x (in_test [] 10 []) ≡ (Ok (ref 0, Judged.Plain true), in_test (Object.Instance (ClassId.Own 1) [] (Some (measured [])) ∷ []) 9 (began 0 ∷ [])) }
    ensures too_deep_arguments_make_no_instance { calls recorder program (λ stmt. passes) (Callee.Value (Value.Class (ClassId.Built BuiltClass.ValueError))) (nested 50 ∷ []) [] (in_test [] 10 []) ≡ (Err (Abrupt.Left Construct.TupleDepth), in_test [] 10 []) }
    ensures the_init_of_object_takes_none { let a = Object.Instance (ClassId.Own 2) [] None in calls recorder program (λ stmt. passes) (Callee.BaseInit (id 0)) [] named_x (in_test (a ∷ []) 10 []) ≡ (Err (Abrupt.Raised (id 1)), in_test (a ∷ Object.Instance (ClassId.Built BuiltClass.TypeError) [] None ∷ []) 10 []) }
    ensures the_init_of_an_exception_leaves { let e = Object.Instance (ClassId.Own 0) [] (Some (measured [])) in calls recorder program (λ stmt. passes) (Callee.BaseInit (id 0)) [] named_x (in_test (e ∷ []) 10 []) ≡ (Err (Abrupt.Left Construct.KeywordArgument), in_test (e ∷ []) 10 []) }
    ensures a_function_of_a_class_has_no_instance { calls recorder program (λ stmt. passes) (Callee.Function (func_id 1)) [] [] (in_test [] 10 []) ≡ (Err (Abrupt.Raised (id 0)), in_test (Object.Instance (ClassId.Built BuiltClass.TypeError) [] None ∷ []) 10 []) }
{}

/// What is found: of `A.m`, of `super().args` in an exception, and of `mro`.
pub fn attribute_examples()
    ensures a_method_of_its_class { finds program (Value.Class (ClassId.Own 2)) (codes "m") (in_test [] 10 []) ≡ (Ok (Callee.Function (func_id 1)), in_test [] 10 []) }
    ensures a_method_that_is_not_called { read_found (Callee.Function (func_id 1)) (in_test [] 10 []) ≡ (Err (Abrupt.Left Construct.MethodValue), in_test [] 10 []) }
    ensures known_arguments_above { let world = Object.Instance (ClassId.Own 0) [] (Some (measured (int 7 ∷ []))) ∷ [] in super_of_instance recorder program (ClassId.Own 0) (id 0) (ClassId.Own 0) (codes "args") (in_test world 10 []) ≡ (Ok (Callee.Value (Value.Tuple (measured (int 7 ∷ [])))), in_test world 10 []) }
    ensures arguments_are_not_called { calls recorder program (λ stmt. passes) (Callee.Value (tuple (int 7 ∷ []))) [] [] (in_test [] 10 []) ≡ (Err (Abrupt.Raised (id 0)), in_test (Object.Instance (ClassId.Built BuiltClass.TypeError) [] None ∷ []) 10 []) }
    ensures unknown_arguments_above { let world = Object.Instance (ClassId.Own 0) [] None ∷ [] in super_of_instance recorder program (ClassId.Own 0) (id 0) (ClassId.Own 0) (codes "args") (in_test world 10 []) ≡ (Err (Abrupt.Left Construct.ExceptionText), in_test world 10 []) }
    ensures nothing_else_above { let world = Object.Instance (ClassId.Own 0) [] None ∷ [] in super_of_instance recorder program (ClassId.Own 0) (id 0) (ClassId.Own 0) (codes "other") (in_test world 10 []) ≡ (Err (Abrupt.Left Construct.ExceptionAttribute), in_test world 10 []) }
    ensures its_own_mro { finds program (Value.Class (ClassId.Own 3)) (codes "mro") (in_test [] 10 []) ≡ (Ok (Callee.Value (int 7)), in_test [] 10 []) }
    ensures the_mro_of_an_exception { finds program (Value.Class (ClassId.Own 1)) (codes "mro") (in_test [] 10 []) ≡ (Err (Abrupt.Left Construct.ClassAttribute), in_test [] 10 []) }
    ensures another_name_of_an_exception { finds program (Value.Class (ClassId.Own 1)) (codes "other") (in_test [] 10 []) ≡ (Err (Abrupt.Left Construct.ExceptionAttribute), in_test [] 10 []) }
{}
