// What is charged where an operation doesn't come to its result, and which of two faults comes first.
ghost use Rattle.std.specs.Prelude.{◌≡◌, pos, [], ◌∷◌, ◌+◌, ◌^◌, codes};
ghost use Rattle.py_meaning.specs.Examples.{id, ref, int, nested};
ghost use Rattle.py_meaning.specs.Steps.{changes};
ghost use Rattle.py_meaning.specs.Tuples.{tuple};
ghost use Rattle.py_meaning.specs.Walk.{walk};
ghost use Rattle.py_meaning.specs.Operations.{make_dict};
ghost use Rattle.py_meaning.specs.Builtins.{call_builtin, tuple_of_parts};
ghost use Rattle.py_meaning.specs.ListMethods.{list_method};
ghost use Rattle.py_meaning.specs.DictMethods.{dict_method};
ghost use Rattle.py_meaning.specs.TextMethods.{text_method};
ghost use Rattle.running_examples.specs.Small.{items_of};

use py_meaning::{Builtin, DictMethod, ListMethod, Object, Op, TextMethod, Value};
use pyn_base::{BuiltClass, Construct};

/// Operations that fail in small worlds with ten steps. `nested 50` is a tuple of 50 levels, `items_of 0` the view of the items of the first object.
pub fn cost_examples()
    ensures all_keys_of_a_display_are_paid_for { let world = Object.List [] ∷ [] in changes (make_dict ((int 1, int 2) ∷ (ref 0, int 3) ∷ [])) world 10 ≡ (Op.Raises BuiltClass.TypeError, world, 8) }
    ensures a_wrong_argument_has_no_length { let world = Object.List (int 1 ∷ int 2 ∷ []) ∷ [] in changes (text_method TextMethod.Find (codes "abc") (ref 0 ∷ [])) world 10 ≡ (Op.Raises BuiltClass.TypeError, world, 7) }
    ensures a_missing_argument_costs_nothing { changes (text_method TextMethod.Find (codes "abc") []) [] 10 ≡ (Op.Raises BuiltClass.TypeError, [], 10) }
    ensures a_further_argument_costs_nothing { changes (text_method TextMethod.Find (codes "abc") (Value.Str (codes "a") ∷ int 1 ∷ [])) [] 10 ≡ (Op.Leaves Construct.Argument, [], 10) }
    ensures least_of_its_arguments { changes (call_builtin Builtin.Min (int 3 ∷ int 1 ∷ int 2 ∷ [])) [] 10 ≡ (Op.Done (int 1), [], 7) }
    ensures a_list_is_paid_for_before_a_wrong_index { let world = Object.List (int 1 ∷ int 2 ∷ []) ∷ [] in changes (list_method ListMethod.Pop (id 0) (Value.Str (codes "a") ∷ [])) world 10 ≡ (Op.Raises BuiltClass.TypeError, world, 8) }
    ensures a_list_is_paid_for_before_too_great_an_index { let world = Object.List (int 1 ∷ int 2 ∷ []) ∷ [] in changes (list_method ListMethod.Pop (id 0) (int (2 ^ 61 + 1) ∷ [])) world 10 ≡ (Op.Leaves Construct.MachineSize, world, 8) }
    ensures an_insertion_is_paid_for_before_its_index { let world = Object.List (int 1 ∷ int 2 ∷ []) ∷ [] in changes (list_method ListMethod.Insert (id 0) (int (2 ^ 61 + 1) ∷ int 5 ∷ [])) world 10 ≡ (Op.Leaves Construct.MachineSize, world, 7) }
    ensures too_deep_a_display_costs_nothing { tuple_of_parts (nested 50 ∷ []) 10 ≡ (Op.Leaves Construct.TupleDepth, 10) }
    ensures too_deep_a_tuple_costs_nothing { let world = Object.List (nested 50 ∷ []) ∷ [] in changes (call_builtin Builtin.Tuple (ref 0 ∷ [])) world 10 ≡ (Op.Leaves Construct.TupleDepth, world, 10) }
    ensures too_deep_an_item_costs_nothing { let world = Object.Dict ((int 1, nested 50) ∷ []) 1 ∷ [] in changes (call_builtin Builtin.List (items_of 0 ∷ [])) world 10 ≡ (Op.Leaves Construct.TupleDepth, world, 10) }
    ensures elements_are_taken_before_an_item_is_too_deep { walk (Object.Dict ((int 1, nested 50) ∷ []) 1 ∷ []) (items_of 0) 10 ≡ (Op.Leaves Construct.TupleDepth, 9) }
    ensures a_list_grows_by_no_item_too_deep { let world = Object.Dict ((int 1, nested 50) ∷ []) 1 ∷ Object.List [] ∷ [] in changes (list_method ListMethod.Extend (id 1) (items_of 0 ∷ [])) world 10 ≡ (Op.Leaves Construct.TupleDepth, world, 9) }
    ensures no_text_among_those_to_join { let world = Object.List (Value.Str (codes "ab") ∷ int 1 ∷ []) ∷ [] in changes (text_method TextMethod.Join (codes "-") (ref 0 ∷ [])) world 10 ≡ (Op.Raises BuiltClass.TypeError, world, 8) }
    ensures a_wrong_kind_before_the_machines_size { changes (call_builtin Builtin.Range (int (2 ^ 61 + 1) ∷ Value.Str (codes "a") ∷ [])) [] 10 ≡ (Op.Raises BuiltClass.TypeError, [], 10) }
    ensures the_machines_size_before_no_step { changes (call_builtin Builtin.Range (int (2 ^ 61 + 1) ∷ int 5 ∷ int 0 ∷ [])) [] 10 ≡ (Op.Leaves Construct.MachineSize, [], 10) }
    ensures no_sum_onto_a_text { let world = Object.List [] ∷ [] in changes (call_builtin Builtin.Sum (ref 0 ∷ Value.Str [] ∷ [])) world 10 ≡ (Op.Raises BuiltClass.TypeError, world, 10) }
    ensures a_copy_has_its_own_changes { let pairs = (int 1, int 2) ∷ (int 3, int 4) ∷ [] in changes (dict_method DictMethod.Copy (id 0) []) (Object.Dict pairs 7 ∷ []) 10 ≡ (Op.Done (ref 1), Object.Dict pairs 7 ∷ Object.Dict pairs 2 ∷ [], 8) }
{}
