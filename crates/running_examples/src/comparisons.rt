// On which side a value is compared, and how deep.
ghost use Rattle.std.specs.Prelude.{◌≡◌, pos, false, [], ◌∷◌};
ghost use Rattle.py_meaning.specs.Examples.{id, ref, int};
ghost use Rattle.py_meaning.specs.Steps.{changes};
ghost use Rattle.py_meaning.specs.Equal.{equal, equal_within};
ghost use Rattle.py_meaning.specs.Less.{ordered, ordered_within};
ghost use Rattle.py_meaning.specs.Tuples.{tuple};
ghost use Rattle.py_meaning.specs.Builtins.{call_builtin};
ghost use Rattle.py_meaning.specs.ListMethods.{list_method};
ghost use Rattle.running_examples.specs.Small.{two_dicts, element_first};

use py_meaning::{Builtin, ListMethod, Object, Op, Order};
use pyn_base::{BuiltClass, Construct};

/// Comparisons in small worlds. Of `two_dicts`, `{1: 1, 2: 5}` and `{2: 6, 1: 1}`, the first compared with the second costs 2, and the second
/// with the first 4.
pub fn comparison_examples()
    ensures the_first_with_the_second { equal two_dicts (ref 0) (ref 1) 10 ≡ (Op.Done false, 8) }
    ensures the_second_with_the_first { equal two_dicts (ref 1) (ref 0) 10 ≡ (Op.Done false, 6) }
    ensures a_greater_list_is_compared_as_it_stands { ordered two_dicts Order.Greater (tuple (ref 0 ∷ [])) (tuple (ref 1 ∷ [])) 10 ≡ (Op.Raises BuiltClass.TypeError, 7) }
    ensures the_greatest_so_far_is_at_the_left { changes (call_builtin Builtin.Max (tuple (ref 0 ∷ []) ∷ tuple (ref 1 ∷ []) ∷ [])) two_dicts 10 ≡ (Op.Raises BuiltClass.TypeError, two_dicts, 5) }
    ensures the_least_so_far_is_at_the_right { changes (call_builtin Builtin.Min (tuple (ref 0 ∷ []) ∷ tuple (ref 1 ∷ []) ∷ [])) two_dicts 10 ≡ (Op.Raises BuiltClass.TypeError, two_dicts, 3) }
    ensures other_lengths_are_unequal_at_any_level { equal_within 0 (Object.List [] ∷ Object.List (int 1 ∷ []) ∷ []) (ref 0) (ref 1) 10 ≡ (Op.Done false, 10) }
    ensures other_lengths_have_no_order_past_the_last_level { ordered_within 0 (Object.List [] ∷ Object.List (int 1 ∷ []) ∷ []) Order.Less (ref 0) (ref 1) 10 ≡ (Op.Leaves Construct.ComparisonDepth, 10) }
    ensures a_list_is_ordered_with_itself_by_its_parts { ordered (Object.List (int 1 ∷ []) ∷ []) Order.Less (ref 0) (ref 0) 10 ≡ (Op.Done false, 9) }
    ensures an_element_is_at_the_left { changes (list_method ListMethod.Index (id 2) (ref 1 ∷ [])) element_first 10 ≡ (Op.Raises BuiltClass.ValueError, element_first, 7) }
{}
