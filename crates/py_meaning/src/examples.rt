// Worked examples of the definitions, which show that they mean what the manual says.
ghost use Rattle.std.specs.Prelude.{◌≡◌, pos, negsuc, true, false, [], ◌∷◌, Some, None, codes};
ghost use Rattle.py_meaning.specs.Examples.{id, ref, int, nested};
ghost use Rattle.py_meaning.specs.Steps.{changes};
ghost use Rattle.py_meaning.specs.Tuples.{depth, measured, tuple};
ghost use Rattle.py_meaning.specs.Worlds.{sound, sound_args, dicts};
ghost use Rattle.py_meaning.specs.Keys.{key_cost};
ghost use Rattle.py_meaning.specs.Walk.{truth, walk};
ghost use Rattle.py_meaning.specs.Equal.{equal, equal_within};
ghost use Rattle.py_meaning.specs.Less.{ordered};
ghost use Rattle.py_meaning.specs.Sums.{add};
ghost use Rattle.py_meaning.specs.Operations.{list_get, list_insert, dict_get, dict_put, dict_delete};

use crate::{Object, Op, Order, Value, View};
use pyn_base::{BuiltClass, Construct};

/// What the definitions say of small worlds.
pub fn world_examples()
    ensures deep { depth (tuple (tuple [] ∷ int 1 ∷ [])) ≡ 2 }
    ensures key_of_a_tuple { key_cost (tuple (Value.Str (codes "ab") ∷ int 1 ∷ [])) ≡ 5 }
    ensures empty_is_false { truth (Object.List [] ∷ []) (ref 0) ≡ false }
    ensures nothing_there { sound (dicts (Object.List [] ∷ [])) (tuple (ref 1 ∷ [])) ≡ false }
    ensures wrong_number { sound [] (Value.Tuple (record { parts = []; depth = 0 })) ≡ false }
    ensures fifty_levels { sound [] (nested 50) ≡ true }
    ensures arguments_of_51_levels { sound_args [] (Some (measured (nested 50 ∷ []))) ≡ false }
    ensures two_lists { let held = Object.List (int 1 ∷ Value.Str (codes "ab") ∷ []) in equal (held ∷ held ∷ []) (ref 0) (ref 1) 10 ≡ (Op.Done true, 6) }
    ensures same_list { equal (Object.List (ref 0 ∷ []) ∷ []) (ref 0) (ref 0) 0 ≡ (Op.Done true, 0) }
    ensures last_level { equal_within 0 (Object.List [] ∷ Object.List [] ∷ []) (ref 0) (ref 1) 10 ≡ (Op.Leaves Construct.ComparisonDepth, 10) }
    ensures two_dicts { equal (Object.Dict ((int 1, int 2) ∷ []) 1 ∷ Object.Dict ((int 1, int 3) ∷ []) 1 ∷ []) (ref 0) (ref 1) 10 ≡ (Op.Done false, 8) }
    ensures texts_in_order { ordered [] Order.Less (Value.Str (codes "ab")) (Value.Str (codes "b")) 10 ≡ (Op.Done true, 9) }
    ensures lists_in_order { ordered (Object.List (int 1 ∷ []) ∷ Object.List (int 1 ∷ int 2 ∷ []) ∷ []) Order.AtLeast (ref 0) (ref 1) 10 ≡ (Op.Done false, 9) }
    ensures no_order { ordered [] Order.Less (int 1) Value.None 10 ≡ (Op.Raises BuiltClass.TypeError, 10) }
    ensures from_the_end { list_get (id 0) (negsuc 0) (Object.List (int 1 ∷ int 2 ∷ []) ∷ []) ≡ Some (int 2) }
    ensures far_insertion { changes (list_insert (id 0) (pos 9) (int 2)) (Object.List (int 1 ∷ []) ∷ []) 10 ≡ (Op.Done tt, Object.List (int 1 ∷ int 2 ∷ []) ∷ [], 8) }
    ensures true_is_one { changes (dict_put (id 0) (Value.Bool true) (int 8)) (Object.Dict ((int 1, int 7) ∷ []) 1 ∷ []) 10 ≡ (Op.Done tt, Object.Dict ((int 1, int 8) ∷ []) 1 ∷ [], 9) }
    ensures a_new_key { changes (dict_put (id 0) (int 2) (int 8)) (Object.Dict ((int 1, int 7) ∷ []) 1 ∷ []) 10 ≡ (Op.Done tt, Object.Dict ((int 1, int 7) ∷ (int 2, int 8) ∷ []) 2 ∷ [], 9) }
    ensures a_key_deleted { changes (dict_delete (id 0) (int 1)) (Object.Dict ((int 1, int 7) ∷ (int 2, int 8) ∷ []) 2 ∷ []) 10 ≡ (Op.Done (int 7), Object.Dict ((int 2, int 8) ∷ []) 3 ∷ [], 7) }
    ensures missing_key { dict_get (id 0) (int 3) (Object.Dict [] 0 ∷ []) 10 ≡ (Op.Raises BuiltClass.KeyError, 9) }
    ensures a_list_is_no_key { dict_get (id 0) (ref 1) (Object.Dict [] 0 ∷ Object.List [] ∷ []) 10 ≡ (Op.Raises BuiltClass.TypeError, 9) }
    ensures too_few_steps { let held = Object.List (int 1 ∷ int 2 ∷ []) in changes (add (ref 0) (ref 0)) (held ∷ []) 3 ≡ (Op.OutOfSteps, held ∷ [], 3) }
    ensures a_range { walk [] (Value.View (View.Range (pos 5) (pos 0) (negsuc 2))) 10 ≡ (Op.Done (int 5 ∷ int 2 ∷ []), 8) }
{}
