// Worked examples of calls of built-in functions, which show that they mean what the manual says.
ghost use Rattle.std.specs.Prelude.{◌≡◌, pos, negsuc, true, false, [], ◌∷◌, ◌+◌, ◌^◌, Some, None, codes};
ghost use Rattle.py_meaning.specs.Examples.{ref, int};
ghost use Rattle.py_meaning.specs.Steps.{changes};
ghost use Rattle.py_meaning.specs.Tuples.{measured, tuple};
ghost use Rattle.py_meaning.specs.Builtins.{call_builtin};

use crate::{Builtin, Object, Op, Value, View};
use pyn_base::{BuiltClass, ClassId, Construct};

/// What the definitions say of calls in small worlds, each with the steps that there are.
pub fn builtin_examples()
    ensures length_of_a_dict { let world = Object.Dict ((int 7, int 8) ∷ []) 1 ∷ [] in changes (call_builtin Builtin.Len (ref 0 ∷ [])) world 9 ≡ (Op.Done (int 1), world, 9) }
    ensures no_length { changes (call_builtin Builtin.Len (int 7 ∷ [])) [] 9 ≡ (Op.Raises BuiltClass.TypeError, [], 9) }
    ensures the_first_of_equals { let world = Object.List (Value.Bool true ∷ int 1 ∷ []) ∷ [] in changes (call_builtin Builtin.Max (ref 0 ∷ [])) world 9 ≡ (Op.Done (Value.Bool true), world, 7) }
    ensures no_least { changes (call_builtin Builtin.Min (tuple [] ∷ [])) [] 9 ≡ (Op.Raises BuiltClass.ValueError, [], 9) }
    ensures sum_of_a_tuple { changes (call_builtin Builtin.Sum (tuple (int 1 ∷ int 2 ∷ []) ∷ [])) [] 9 ≡ (Op.Done (int 3), [], 7) }
    ensures joined_lists { let one = Object.List (int 1 ∷ []) in let none = Object.List [] in changes (call_builtin Builtin.Sum (tuple (ref 0 ∷ ref 0 ∷ []) ∷ ref 1 ∷ [])) (one ∷ none ∷ []) 9 ≡ (Op.Done (ref 3), one ∷ none ∷ one ∷ Object.List (int 1 ∷ int 1 ∷ []) ∷ [], 4) }
    ensures not_enough_steps { let world = Object.List (int 1 ∷ []) ∷ Object.List [] ∷ [] in changes (call_builtin Builtin.Sum (tuple (ref 0 ∷ ref 0 ∷ []) ∷ ref 1 ∷ [])) world 4 ≡ (Op.OutOfSteps, world, 1) }
    ensures no_sum_of_texts { changes (call_builtin Builtin.Sum (Value.Str (codes "a") ∷ Value.Str [] ∷ [])) [] 9 ≡ (Op.Raises BuiltClass.TypeError, [], 8) }
    ensures text_of_none { changes (call_builtin Builtin.Str (Value.None ∷ [])) [] 9 ≡ (Op.Done (Value.Str (codes "None")), [], 5) }
    ensures text_of_an_error { let world = Object.Instance (ClassId.Built BuiltClass.ValueError) [] (Some (measured (Value.Str (codes "x") ∷ []))) ∷ [] in changes (call_builtin Builtin.Str (ref 0 ∷ [])) world 9 ≡ (Op.Done (Value.Str (codes "x")), world, 8) }
    ensures text_of_a_missing_key { let world = Object.Instance (ClassId.Built BuiltClass.KeyError) [] (Some (measured (Value.Str (codes "x") ∷ []))) ∷ [] in changes (call_builtin Builtin.Str (ref 0 ∷ [])) world 9 ≡ (Op.Leaves Construct.StrOf, world, 9) }
    ensures unknown_arguments { let world = Object.Instance (ClassId.Built BuiltClass.ValueError) [] None ∷ [] in changes (call_builtin Builtin.Str (ref 0 ∷ [])) world 9 ≡ (Op.Leaves Construct.ExceptionText, world, 9) }
    ensures an_integer_with_spaces { changes (call_builtin Builtin.Int (Value.Str (codes " 7 ") ∷ [])) [] 9 ≡ (Op.Done (int 7), [], 6) }
    ensures true_is_one { changes (call_builtin Builtin.Int (Value.Bool true ∷ [])) [] 9 ≡ (Op.Done (int 1), [], 9) }
    ensures a_list_of_characters { changes (call_builtin Builtin.List (Value.Str (codes "ab") ∷ [])) [] 9 ≡ (Op.Done (ref 0), Object.List (Value.Str (codes "a") ∷ Value.Str (codes "b") ∷ []) ∷ [], 7) }
    ensures a_tuple_of_a_range { changes (call_builtin Builtin.Tuple (Value.View (View.Range (pos 0) (pos 5) (pos 2)) ∷ [])) [] 9 ≡ (Op.Done (tuple (int 0 ∷ int 2 ∷ int 4 ∷ [])), [], 6) }
    ensures no_dict_of_a_list { let world = Object.List [] ∷ [] in changes (call_builtin Builtin.Dict (ref 0 ∷ [])) world 9 ≡ (Op.Leaves Construct.Argument, world, 9) }
    ensures a_range_backwards { changes (call_builtin Builtin.Range (int 5 ∷ int 0 ∷ Value.Int (negsuc 1) ∷ [])) [] 9 ≡ (Op.Done (Value.View (View.Range (pos 5) (pos 0) (negsuc 1))), [], 9) }
    ensures a_range_stands_still { changes (call_builtin Builtin.Range (int 0 ∷ int 5 ∷ int 0 ∷ [])) [] 9 ≡ (Op.Raises BuiltClass.ValueError, [], 9) }
    ensures beyond_the_machine { changes (call_builtin Builtin.Range (int (2 ^ 61 + 1) ∷ [])) [] 9 ≡ (Op.Leaves Construct.MachineSize, [], 9) }
{}
