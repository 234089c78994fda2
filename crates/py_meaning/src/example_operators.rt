// Worked examples of the operators, which show that they mean what the Language Reference says.
ghost use Rattle.std.specs.Prelude.{◌≡◌, pos, negsuc, true, false, [], ◌∷◌, ◌^◌, ◌+◌, codes};
ghost use Rattle.py_meaning.specs.Examples.{ref, int};
ghost use Rattle.py_meaning.specs.Steps.{changes};
ghost use Rattle.py_meaning.specs.Tuples.{tuple};
ghost use Rattle.py_meaning.specs.Arithmetic.{unary};
ghost use Rattle.py_meaning.specs.Membership.{contains};
ghost use Rattle.py_meaning.specs.Operators.{binary, augment, compare};
ghost use Rattle.py_meaning.specs.Subscripts.{get_item, put_item, delete_item, slice};

use crate::{Object, Op, Value, View};
use py_syntax::{BinOp, CmpOp, Sign};
use pyn_base::{BuiltClass, ClassId, Construct};

/// What the operators' definitions say of small worlds, of which each has 10 steps. `negsuc k` is `-(k + 1)`.
pub fn operator_examples()
    ensures rounded_down { changes (binary BinOp.FloorDiv (Value.Int (negsuc 6)) (int 2)) [] 10 ≡ (Op.Done (Value.Int (negsuc 3)), [], 10) }
    ensures the_divisors_sign { changes (binary BinOp.Mod (int 7) (Value.Int (negsuc 1))) [] 10 ≡ (Op.Done (Value.Int (negsuc 0)), [], 10) }
    ensures by_nought { changes (binary BinOp.Mod (int 1) (Value.Bool false)) [] 10 ≡ (Op.Raises BuiltClass.ZeroDivisionError, [], 10) }
    ensures a_format { changes (binary BinOp.Mod (Value.Str (codes "%d")) (int 1)) [] 10 ≡ (Op.Leaves Construct.StringFormat, [], 10) }
    ensures below_nought { changes (binary BinOp.Mul (Value.Str (codes "a")) (Value.Int (negsuc 0))) [] 10 ≡ (Op.Done (Value.Str []), [], 10) }
    ensures count_before { changes (binary BinOp.Mul (int 2) (Value.Str (codes "ab"))) [] 10 ≡ (Op.Done (Value.Str (codes "abab")), [], 6) }
    ensures too_great_a_count { changes (binary BinOp.Mul (Value.Str (codes "a")) (int (2 ^ 61 + 1))) [] 10 ≡ (Op.Leaves Construct.MachineSize, [], 10) }
    ensures negative { unary Sign.Minus (Value.Bool true) 10 ≡ (Op.Done (Value.Int (negsuc 0)), 10) }
    ensures a_view_added { changes (binary BinOp.Add (Value.View (View.Range (pos 0) (pos 3) (pos 1))) (int 1)) [] 10 ≡ (Op.Leaves Construct.View, [], 10) }
    ensures a_new_list { changes (binary BinOp.Mul (ref 0) (int 2)) (Object.List (int 5 ∷ []) ∷ []) 10 ≡ (Op.Done (ref 1), Object.List (int 5 ∷ []) ∷ Object.List (int 5 ∷ int 5 ∷ []) ∷ [], 8) }
    ensures the_same_list { changes (augment BinOp.Mul (ref 0) (int 2)) (Object.List (int 5 ∷ []) ∷ []) 10 ≡ (Op.Done (ref 0), Object.List (int 5 ∷ int 5 ∷ []) ∷ [], 8) }
    ensures by_itself { changes (augment BinOp.Add (ref 0) (ref 0)) (Object.List (int 5 ∷ int 6 ∷ []) ∷ []) 10 ≡ (Op.Done (ref 0), Object.List (int 5 ∷ int 6 ∷ int 5 ∷ int 6 ∷ []) ∷ [], 8) }
    ensures by_a_range { changes (augment BinOp.Add (ref 0) (Value.View (View.Range (pos 0) (pos 2) (pos 1)))) (Object.List [] ∷ []) 10 ≡ (Op.Done (ref 0), Object.List (int 0 ∷ int 1 ∷ []) ∷ [], 8) }
    ensures true_is_true { compare CmpOp.Same (Value.Bool true) (Value.Bool true) [] 10 ≡ (Op.Done true, 10) }
    ensures true_is_no_integer { compare CmpOp.Same (Value.Bool true) (int 1) [] 10 ≡ (Op.Done false, 10) }
    ensures two_integers { compare CmpOp.NotSame (int 1) (int 1) [] 10 ≡ (Op.Leaves Construct.Identity, 10) }
    ensures one_in_two_and_true { contains (int 1) (ref 0) (Object.List (int 2 ∷ Value.Bool true ∷ []) ∷ []) 10 ≡ (Op.Done true, 8) }
    ensures the_element_at_the_left { let world = Object.Dict ((int 2, Value.Str (codes "x")) ∷ []) 1 ∷ Object.Dict ((Value.Str (codes "a"), int 1) ∷ []) 1 ∷ [] in contains (ref 0) (tuple (int 1 ∷ ref 1 ∷ ref 0 ∷ [])) world 10 ≡ (Op.Done true, 5) }
    ensures an_equal_dict { let held = Object.Dict ((int 2, Value.Str (codes "x")) ∷ []) 1 in let world = held ∷ Object.Dict ((Value.Str (codes "a"), int 1) ∷ []) 1 ∷ held ∷ [] in contains (ref 0) (tuple (int 1 ∷ ref 1 ∷ ref 2 ∷ [])) world 10 ≡ (Op.Done true, 2) }
    ensures a_range_is_compared { let range = Value.View (View.Range (pos 0) (pos 1) (pos 1)) in let a = Object.Dict ((int 1, range) ∷ (int 2, Value.Str (codes "a")) ∷ []) 2 in let b = Object.Dict ((int 2, Value.Str (codes "b")) ∷ (int 1, range) ∷ []) 2 in contains (ref 0) (tuple (ref 1 ∷ [])) (a ∷ b ∷ []) 10 ≡ (Op.Leaves Construct.View, 7) }
    ensures a_part_of_a_text { contains (Value.Str (codes "bc")) (Value.Str (codes "abcd")) [] 10 ≡ (Op.Done true, 4) }
    ensures no_part_of_a_text { contains (int 3) (Value.Str (codes "abc")) [] 10 ≡ (Op.Raises BuiltClass.TypeError, 10) }
    ensures not_of_a_range { contains (int 1) (Value.View (View.Range (pos 0) (pos 5) (pos 2))) [] 10 ≡ (Op.Done false, 10) }
    ensures of_a_range_down { contains (int 1) (Value.View (View.Range (pos 5) (pos 0) (negsuc 1))) [] 10 ≡ (Op.Done true, 10) }
    ensures from_the_end { get_item (Value.Str (codes "abc")) (Value.Int (negsuc 0)) [] 10 ≡ (Op.Done (Value.Str (codes "c")), 10) }
    ensures past_the_end { get_item (ref 0) (int 1) (Object.List (int 5 ∷ []) ∷ []) 10 ≡ (Op.Raises BuiltClass.IndexError, 10) }
    ensures of_a_class { get_item (Value.Class (ClassId.Built BuiltClass.Int)) (int 0) [] 10 ≡ (Op.Leaves Construct.SubscriptOfAClass, 10) }
    ensures put_at_no_cost { changes (put_item (ref 0) (int 0) (int 6)) (Object.List (int 5 ∷ []) ∷ []) 10 ≡ (Op.Done tt, Object.List (int 6 ∷ []) ∷ [], 10) }
    ensures deleted { changes (delete_item (ref 0) (int 0)) (Object.List (int 5 ∷ int 6 ∷ []) ∷ []) 10 ≡ (Op.Done tt, Object.List (int 6 ∷ []) ∷ [], 8) }
    ensures an_index_that_is_no_integer { let world = Object.List (int 5 ∷ int 6 ∷ []) ∷ [] in changes (delete_item (ref 0) (Value.Str (codes "a"))) world 10 ≡ (Op.Raises BuiltClass.TypeError, world, 8) }
    ensures too_few_steps_for_the_index { let world = Object.List (int 5 ∷ int 6 ∷ []) ∷ [] in changes (delete_item (ref 0) (Value.Str (codes "a"))) world 1 ≡ (Op.OutOfSteps, world, 1) }
    ensures joined_tuples { changes (binary BinOp.Add (tuple (int 1 ∷ [])) (tuple [])) [] 10 ≡ (Op.Done (tuple (int 1 ∷ [])), [], 9) }
    ensures the_last_two { changes (slice (ref 0) (Value.Int (negsuc 1)) Value.None) (Object.List (int 1 ∷ int 2 ∷ int 3 ∷ []) ∷ []) 10 ≡ (Op.Done (ref 1), Object.List (int 1 ∷ int 2 ∷ int 3 ∷ []) ∷ Object.List (int 2 ∷ int 3 ∷ []) ∷ [], 8) }
    ensures clamped { changes (slice (Value.Str (codes "abc")) (int 1) (int 9)) [] 10 ≡ (Op.Done (Value.Str (codes "bc")), [], 8) }
{}
