// What the words for the first form mean, on small texts.
ghost use Rattle.std.specs.Prelude.{◌≡◌, ◌≤◌, ◌-◌, ◌^◌, ◌++◌, ℕ, List, IsSome, length, take, true, false, pos, codes, [], ◌∷◌, Some, None, Ok, Err};
ghost use Rattle.pyn_base.specs.declared.construct.Construct.TheVariants.{Form};
ghost use Rattle.py_syntax.specs.declared.refusal.Refusal.TheVariants.{Refused};
ghost use Rattle.py_syntax.specs.declared.expr.ExprKind.TheVariants.{NoneLit, BoolLit, IntLit, StrLit};
ghost use Rattle.py_syntax.specs.declared.stmt.StmtKind.TheVariants.{Return};
ghost use Rattle.py_syntax.specs.declared.module.Item.TheVariants as item;
ghost use Rattle.py_language.specs.FirstForm.{first_form, module_of, functions_of, literal_of, named_by, lines_of};

/// Worked examples of the first form of a module, proved by computation. The function does nothing.
pub fn examples_of_first_form()
    ensures lines { lines_of (codes "a\n\nb") ≡ codes "a\n" ∷ codes "\n" ∷ codes "b" ∷ [] }
    ensures letter_and_digits { named_by (codes "def f20():\n") ≡ Some (codes "f20") }
    ensures two_letters { named_by (codes "def ff():\n") ≡ None }
    ensures none { literal_of (codes "None") ≡ Some NoneLit }
    ensures truth { literal_of (codes "True") ≡ Some (BoolLit true) }
    ensures falsehood { literal_of (codes "False") ≡ Some (BoolLit false) }
    ensures zero { literal_of (codes "0") ≡ Some (IntLit (pos 0)) }
    ensures nineteen_digits { literal_of (codes "1000000000000000000") ≡ Some (IntLit (pos (10 ^ 18))) }
    ensures twenty_digits { literal_of (codes "10000000000000000000") ≡ None }
    ensures leading_zero { literal_of (codes "01") ≡ None }
    ensures minus { literal_of (codes "-1") ≡ None }
    ensures string { literal_of (codes "\"a b\"") ≡ Some (StrLit (codes "a b")) }
    ensures empty_string { literal_of (codes "\"\"") ≡ Some (StrLit []) }
    ensures quote_in_a_string { literal_of (codes "\"a\"b\"") ≡ None }
    ensures one_quote { literal_of (codes "\"") ≡ None }
    ensures empty_module { first_form [] ≡ Ok record { items = []; future = false; nodes = 0 } }
    ensures two_functions { first_form (codes "def f():\n    return 1\n\n\ndef g():\n    return \"x\"\n") ≡ Ok record { items = item.Func (record { node = record { 0 = 0 }; name = codes "f"; line = 1; params = []; returns = None; body = record { node = record { 0 = 1 }; line = 2; kind = Return (Some (record { node = record { 0 = 2 }; line = 2; kind = IntLit (pos 1) })) } ∷ [] }) ∷ item.Func (record { node = record { 0 = 3 }; name = codes "g"; line = 5; params = []; returns = None; body = record { node = record { 0 = 4 }; line = 6; kind = Return (Some (record { node = record { 0 = 5 }; line = 6; kind = StrLit (codes "x") })) } ∷ [] }) ∷ []; future = false; nodes = 6 } }
    ensures a_parameter { first_form (codes "def f(a):\n    return 1\n") ≡ Err (Refused 1 Form) }
    ensures cut_after_a_line { first_form (codes "def f():\n") ≡ Err (Refused 2 Form) }
    ensures cut_within_a_line { first_form (codes "def f():\n    return 1") ≡ Err (Refused 2 Form) }
    ensures an_empty_line_first { first_form (codes "\ndef f():\n    return 1\n") ≡ Err (Refused 1 Form) }
    ensures an_empty_line_last { first_form (codes "def f():\n    return 1\n\n") ≡ Err (Refused 4 Form) }
    ensures one_empty_line { first_form (codes "def f():\n    return 1\n\ndef g():\n    return 2\n") ≡ Err (Refused 4 Form) }
    ensures three_empty_lines { first_form (codes "def f():\n    return 1\n\n\n\ndef g():\n    return 2\n") ≡ Err (Refused 5 Form) }
    ensures one_name_twice { first_form (codes "def f():\n    return 1\n\n\ndef f():\n    return 2\n") ≡ Err (Refused 5 Form) }
{}

/// The laws of the first form's refusals. The function does nothing.
///
/// The line of a refusal is the first one such that no text of the form begins with the lines up to it: where it is a line
/// of the text, no text of the form begins so; and some lines of the form begin with those before it.
pub fn laws_of_first_form()
    ensures refused { (text other : List ℕ) (line : ℕ) → first_form text ≡ Err (Refused line Form) → line ≤ length (lines_of text) → take line (lines_of other) ≡ take line (lines_of text) → functions_of (lines_of other) ≡ None }
    ensures first { (text : List ℕ) (line : ℕ) → first_form text ≡ Err (Refused line Form) → (more : List (List ℕ)) × IsSome (functions_of (take (line - 1) (lines_of text) ++ more)) }
{}
