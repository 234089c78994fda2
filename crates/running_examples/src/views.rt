// Where a view may stand, and what is charged where it may not.
ghost use Rattle.std.specs.Prelude.{◌≡◌, pos, true, false, [], ◌∷◌, codes};
ghost use Rattle.py_meaning.specs.Examples.{id, ref, int};
ghost use Rattle.py_meaning.specs.Steps.{changes};
ghost use Rattle.py_meaning.specs.Tuples.{tuple};
ghost use Rattle.py_meaning.specs.Membership.{contains};
ghost use Rattle.py_meaning.specs.Operations.{make_list, make_dict};
ghost use Rattle.py_meaning.specs.Operators.{binary, augment, compare};
ghost use Rattle.py_meaning.specs.Subscripts.{get_item, put_item};
ghost use Rattle.py_meaning.specs.DictMethods.{dict_method};
ghost use Rattle.running_examples.specs.Small.{three};

use py_meaning::{DictMethod, Object, Op, Value};
use py_syntax::{BinOp, CmpOp};
use pyn_base::{BuiltClass, ClassId, Construct};

/// Operands, items and keys that are views, in small worlds with ten steps. `three` is `range(3)`.
pub fn view_examples()
    ensures a_list_grows_by_it { changes (augment BinOp.Add (ref 0) three) (Object.List [] ∷ []) 10 ≡ (Op.Done (ref 0), Object.List (int 0 ∷ int 1 ∷ int 2 ∷ []) ∷ [], 7) }
    ensures it_is_no_operand_of_a_sum { changes (binary BinOp.Add (ref 0) three) (Object.List [] ∷ []) 10 ≡ (Op.Leaves Construct.View, Object.List [] ∷ [], 10) }
    ensures a_display_holds_it { changes (make_list (three ∷ [])) [] 10 ≡ (Op.Done (id 0), Object.List (three ∷ []) ∷ [], 9) }
    ensures a_list_stores_it { changes (put_item (ref 0) (int 0) three) (Object.List (int 5 ∷ []) ∷ []) 10 ≡ (Op.Done tt, Object.List (three ∷ []) ∷ [], 10) }
    ensures it_is_no_index { let world = Object.List (int 5 ∷ []) ∷ [] in changes (put_item (ref 0) three (int 1)) world 10 ≡ (Op.Leaves Construct.View, world, 10) }
    ensures nothing_is_stored_in_it { changes (put_item three (int 0) (int 1)) [] 10 ≡ (Op.Leaves Construct.View, [], 10) }
    ensures it_is_looked_for_nowhere { contains three (ref 0) (Object.List (int 1 ∷ int 2 ∷ []) ∷ []) 10 ≡ (Op.Leaves Construct.View, 10) }
    ensures another_value_is_looked_for_beside_it { contains (int 1) (ref 0) (Object.List (three ∷ []) ∷ []) 10 ≡ (Op.Done false, 9) }
    ensures it_is_not_none { compare CmpOp.Same three Value.None [] 10 ≡ (Op.Done false, 10) }
    ensures it_is_no_number { compare CmpOp.Eq three (int 3) [] 10 ≡ (Op.Done false, 10) }
    ensures two_have_no_identity { compare CmpOp.Same three three [] 10 ≡ (Op.Leaves Construct.Identity, 10) }
    ensures two_are_not_compared { compare CmpOp.Eq three three [] 10 ≡ (Op.Leaves Construct.View, 10) }
    ensures it_is_no_key { get_item (ref 0) three (Object.Dict [] 0 ∷ []) 10 ≡ (Op.Leaves Construct.View, 10) }
    ensures it_is_no_key_to_look_for { contains three (ref 0) (Object.Dict [] 0 ∷ []) 10 ≡ (Op.Leaves Construct.View, 10) }
    ensures a_key_that_holds_it_is_paid_for { get_item (ref 0) (tuple (three ∷ [])) (Object.Dict [] 0 ∷ []) 10 ≡ (Op.Leaves Construct.View, 8) }
    ensures a_key_of_a_display_is_paid_for { changes (make_dict ((three, int 1) ∷ [])) [] 10 ≡ (Op.Leaves Construct.View, [], 9) }
    ensures a_key_of_get_is_paid_for { let world = Object.Dict [] 0 ∷ [] in changes (dict_method DictMethod.Get (id 0) (three ∷ [])) world 10 ≡ (Op.Leaves Construct.View, world, 9) }
    ensures it_comes_before_a_format { changes (binary BinOp.Mod (Value.Str (codes "a")) three) [] 10 ≡ (Op.Leaves Construct.View, [], 10) }
    ensures it_comes_before_a_class { get_item (Value.Class (ClassId.Built BuiltClass.Int)) three [] 10 ≡ (Op.Leaves Construct.View, 10) }
    ensures a_list_before_it_decides { get_item (ref 0) (tuple (ref 0 ∷ three ∷ [])) (Object.Dict [] 0 ∷ []) 10 ≡ (Op.Raises BuiltClass.TypeError, 7) }
    ensures it_before_a_list_decides { get_item (ref 0) (tuple (three ∷ ref 0 ∷ [])) (Object.Dict [] 0 ∷ []) 10 ≡ (Op.Leaves Construct.View, 7) }
{}
