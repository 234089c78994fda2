// When a node has begun, what a turn of a `for` does first, and what a failed `assert` keeps.
ghost use Rattle.std.specs.Prelude.{◌≡◌, true, false, [], ◌∷◌, Option, Some, None, Ok, Err, codes};
ghost use Rattle.py_meaning.specs.Examples.{id, int, nested};
ghost use Rattle.py_meaning.specs.Tuples.{measured, tuple};
ghost use Rattle.py_plain.specs.Assignments.{unpacks};
ghost use Rattle.py_plain.specs.Exceptions.{fails, handles};
ghost use Rattle.py_plain.specs.Examples.{began, node};
ghost use Rattle.py_plain.specs.Runs.{begins, passes};
ghost use Rattle.py_plain.specs.Tests.{recorder, Decided};
ghost use Rattle.running_examples.specs.Small.{program, in_method, in_test, items_of, turn};

use py_meaning::Object;
use py_plain::{Abrupt, Judged};
use pyn_base::{BuiltClass, ClassId, Construct};

/// Nodes, turns and assertions. `turn` is a turn of a `for` over this with so many names, at this element.
pub fn statement_examples()
    ensures no_step_no_beginning { begins recorder (node 4) (in_method [] 0 []) ≡ (Err Abrupt.OutOfSteps, in_method [] 0 []) }
    ensures the_last_step_begins { begins recorder (node 4) (in_method [] 1 []) ≡ (Ok tt, in_method [] 0 (began 4 ∷ [])) }
    ensures an_element_is_paid_for_before_its_outcome { turn (tuple []) (codes "a" ∷ []) false (int 1) (in_method [] 0 []) ≡ (Err Abrupt.OutOfSteps, in_method [] 0 []) }
    ensures the_outcome_comes_before_the_names { turn (tuple []) (codes "a" ∷ codes "b" ∷ []) true (tuple (int 1 ∷ [])) (in_method [] 10 []) ≡ (Err (Abrupt.Raised (id 0)), in_method (Object.Instance (ClassId.Built BuiltClass.ValueError) [] None ∷ []) 8 (Decided (node 4) (Judged.Plain true) true ∷ [])) }
    ensures an_item_too_deep_is_paid_for { turn (items_of 0) (codes "a" ∷ []) false (tuple (int 1 ∷ nested 50 ∷ [])) (in_method [] 10 []) ≡ (Err (Abrupt.Left Construct.TupleDepth), in_method [] 9 []) }
    ensures all_elements_are_taken_apart { unpacks 2 (tuple (int 1 ∷ int 2 ∷ int 3 ∷ [])) (in_test [] 10 []) ≡ (Err (Abrupt.Raised (id 0)), in_test (Object.Instance (ClassId.Built BuiltClass.ValueError) [] None ∷ []) 7 []) }
    ensures a_failure_without_a_message { fails recorder program (λ e. passes) (λ stmt. passes) [] (in_test [] 10 []) ≡ (Err (Abrupt.Raised (id 0)), in_test (Object.Instance (ClassId.Built BuiltClass.AssertionError) [] (Some (measured [])) ∷ []) 10 []) }
    ensures a_failure_with_a_message { fails recorder program (λ e. passes) (λ stmt. passes) (int 7 ∷ []) (in_test [] 10 []) ≡ (Err (Abrupt.Raised (id 0)), in_test (Object.Instance (ClassId.Built BuiltClass.AssertionError) [] (Some (measured (int 7 ∷ []))) ∷ []) 10 []) }
    ensures a_message_too_deep { fails recorder program (λ e. passes) (λ stmt. passes) (nested 50 ∷ []) (in_test [] 10 []) ≡ (Err (Abrupt.Left Construct.TupleDepth), in_test [] 10 []) }
    ensures a_clause_names_a_class_above { handles program (in_test [] 10 []).space (ClassId.Own 1) (Some (codes "E" ∷ [])) ≡ true }
    ensures a_clause_names_another_class { handles program (in_test [] 10 []).space (ClassId.Own 1) (Some (codes "KeyError" ∷ codes "A" ∷ [])) ≡ false }
{}
