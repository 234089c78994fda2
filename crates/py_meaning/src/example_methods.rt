// Worked examples of the methods, which show that they mean what the manual says.
ghost use Rattle.std.specs.Prelude.{◌≡◌, pos, negsuc, true, [], ◌∷◌, codes};
ghost use Rattle.py_meaning.specs.Examples.{id, ref, int};
ghost use Rattle.py_meaning.specs.Steps.{changes};
ghost use Rattle.py_meaning.specs.ListMethods.{list_method};
ghost use Rattle.py_meaning.specs.DictMethods.{dict_method};
ghost use Rattle.py_meaning.specs.TextMethods.{text_method};
ghost use Rattle.py_meaning.specs.Methods.{call_method};

use crate::{DictMethod, ListMethod, Object, Op, TextMethod, Value, View};
use pyn_base::{BuiltClass, Construct};

/// What the definitions say of methods on small worlds, each with ten steps.
pub fn method_examples()
    ensures appended { changes (list_method ListMethod.Append (id 0) (int 2 ∷ [])) (Object.List (int 1 ∷ []) ∷ []) 10 ≡ (Op.Done Value.None, Object.List (int 1 ∷ int 2 ∷ []) ∷ [], 9) }
    ensures popped_at_the_front { changes (list_method ListMethod.Pop (id 0) (int 0 ∷ [])) (Object.List (int 1 ∷ int 2 ∷ []) ∷ []) 10 ≡ (Op.Done (int 1), Object.List (int 2 ∷ []) ∷ [], 8) }
    ensures inserted_far_before { changes (list_method ListMethod.Insert (id 0) (Value.Int (negsuc 8) ∷ int 2 ∷ [])) (Object.List (int 1 ∷ []) ∷ []) 10 ≡ (Op.Done Value.None, Object.List (int 2 ∷ int 1 ∷ []) ∷ [], 8) }
    ensures extended_by_itself { changes (list_method ListMethod.Extend (id 0) (ref 0 ∷ [])) (Object.List (int 1 ∷ []) ∷ []) 10 ≡ (Op.Done Value.None, Object.List (int 1 ∷ int 1 ∷ []) ∷ [], 9) }
    ensures true_is_removed { changes (list_method ListMethod.Remove (id 0) (Value.Bool true ∷ [])) (Object.List (int 0 ∷ int 1 ∷ []) ∷ []) 10 ≡ (Op.Done Value.None, Object.List (int 0 ∷ []) ∷ [], 6) }
    ensures not_in_the_list { let held = Object.List (int 1 ∷ int 2 ∷ []) in changes (list_method ListMethod.Index (id 0) (int 3 ∷ [])) (held ∷ []) 10 ≡ (Op.Raises BuiltClass.ValueError, held ∷ [], 8) }
    ensures no_default { changes (dict_method DictMethod.Get (id 0) (int 1 ∷ [])) (Object.Dict [] 0 ∷ []) 10 ≡ (Op.Done Value.None, Object.Dict [] 0 ∷ [], 9) }
    ensures a_default_is_put { changes (dict_method DictMethod.SetDefault (id 0) (int 1 ∷ int 7 ∷ [])) (Object.Dict [] 0 ∷ []) 10 ≡ (Op.Done (int 7), Object.Dict ((int 1, int 7) ∷ []) 1 ∷ [], 9) }
    ensures a_list_as_a_key { let world = Object.Dict [] 0 ∷ Object.List [] ∷ [] in changes (dict_method DictMethod.Pop (id 0) (ref 1 ∷ [])) world 10 ≡ (Op.Leaves Construct.UnhashableKey, world, 9) }
    ensures empty_texts_are_replaced { changes (text_method TextMethod.Replace (codes "ab") (Value.Str [] ∷ Value.Str (codes "-") ∷ [])) [] 10 ≡ (Op.Done (Value.Str (codes "-a-b-")), [], 3) }
    ensures split_at_commas { changes (text_method TextMethod.Split (codes "1,,2") (Value.Str (codes ",") ∷ [])) [] 10 ≡ (Op.Done (ref 0), Object.List (Value.Str (codes "1") ∷ Value.Str [] ∷ Value.Str (codes "2") ∷ []) ∷ [], 6) }
    ensures split_at_blanks { changes (text_method TextMethod.Split (codes "a  b ") []) [] 10 ≡ (Op.Done (ref 0), Object.List (Value.Str (codes "a") ∷ Value.Str (codes "b") ∷ []) ∷ [], 5) }
    ensures letters_are_joined { changes (text_method TextMethod.Join (codes "-") (Value.Str (codes "abc") ∷ [])) [] 10 ≡ (Op.Done (Value.Str (codes "a-b-c")), [], 2) }
    ensures nowhere { changes (text_method TextMethod.Find (codes "abc") (Value.Str (codes "d") ∷ [])) [] 10 ≡ (Op.Done (Value.Int (negsuc 0)), [], 6) }
    ensures by_name { changes (call_method (Value.Str (codes "aB")) (codes "upper") []) [] 10 ≡ (Op.Done (Value.Str (codes "AB")), [], 8) }
    ensures sorting_leaves { changes (call_method (ref 0) (codes "sort") []) (Object.List [] ∷ []) 10 ≡ (Op.Leaves Construct.Method, Object.List [] ∷ [], 10) }
    ensures no_such_name { changes (call_method (int 1) (codes "upper") []) [] 10 ≡ (Op.Raises BuiltClass.AttributeError, [], 10) }
    ensures views_have_no_methods { changes (call_method (Value.View (View.Range (pos 0) (pos 1) (pos 1))) (codes "upper") []) [] 10 ≡ (Op.Leaves Construct.Method, [], 10) }
{}
