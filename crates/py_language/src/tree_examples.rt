// Expressions worked out by hand from Python's grammar.
ghost use Rattle.std.specs.Prelude.{◌≡◌, ◌∷◌, [], Some, None, pos, true};
ghost use Rattle.py_language.specs.declared.token.Token.TheVariants.{Keyword, Mark, Str};
ghost use Rattle.py_language.specs.declared.token.Keyword.TheVariants as keyword;
ghost use Rattle.py_language.specs.declared.token.Mark.TheVariants as mark;
ghost use Rattle.py_language.specs.declared.shape.Atom.TheVariants as atom;
ghost use Rattle.py_language.specs.declared.shape.Shape.TheVariants as shape;
ghost use Rattle.py_language.specs.TreesExamples.{read, a, b, c, f, super, int, A, B, C, F, number, bracketed, repeated, node};
ghost use Rattle.py_language.specs.Trees.{tree_of, trees_of};
ghost use Rattle.py_language.specs.TreesNumbers.{args};
ghost use Rattle.py_syntax.specs.declared.expr.ExprKind.TheVariants as expr;
ghost use Rattle.py_syntax.specs.declared.operator.BinOp.TheVariants.{Add, Sub, Mul, FloorDiv};
ghost use Rattle.py_syntax.specs.declared.operator.CmpOp.TheVariants.{Lt, Eq, NotContained, NotSame};
ghost use Rattle.py_syntax.specs.declared.operator.Sign.TheVariants.{Minus};

/// How operators group.
#[tactic(auto, unfolding(crate::specs::Trees::listed, crate::specs::Trees::conditional, crate::specs::Trees::disjunction, crate::specs::Trees::conjunction, crate::specs::Trees::negation, crate::specs::Trees::comparison, crate::specs::Trees::sum, crate::specs::Trees::product, crate::specs::Trees::signed, crate::specs::Trees::postfix, crate::specs::Trees::inside, crate::specs::Trees::tree_at, crate::specs::TreesNumbers::numbered, crate::specs::TreesPlaces::at, crate::specs::TreesPlaces::below, crate::specs::TreesPlaces::closing, crate::specs::TreesPlaces::colon))]
pub fn operators_by_example()
    ensures or_of_and { read (a ∷ Keyword keyword.Or ∷ b ∷ Keyword keyword.And ∷ Keyword keyword.Not ∷ c ∷ []) ≡ Some (shape.Or (A ∷ shape.And (B ∷ shape.Not C ∷ []) ∷ [])) }
    ensures one_chain { read (a ∷ Mark mark.Less ∷ b ∷ Mark mark.Less ∷ c ∷ []) ≡ Some (shape.Compare A ((Lt, B) ∷ (Lt, C) ∷ [])) }
    ensures words_compare { read (a ∷ Keyword keyword.Not ∷ Keyword keyword.In ∷ b ∷ Keyword keyword.Is ∷ Keyword keyword.Not ∷ c ∷ []) ≡ Some (shape.Compare A ((NotContained, B) ∷ (NotSame, C) ∷ [])) }
    ensures sign_binds { read (Mark mark.Minus ∷ int 2 ∷ Mark mark.DoubleSlash ∷ int 3 ∷ []) ≡ Some (shape.Binary FloorDiv (shape.Unary Minus (number 2)) (number 3)) }
    ensures from_the_left { read (a ∷ Mark mark.Minus ∷ b ∷ Mark mark.Minus ∷ c ∷ []) ≡ Some (shape.Binary Sub (shape.Binary Sub A B) C) }
    ensures product_first { read (a ∷ Mark mark.Plus ∷ b ∷ Mark mark.Star ∷ c ∷ []) ≡ Some (shape.Binary Add A (shape.Binary Mul B C)) }
    ensures sign_behind_product { read (a ∷ Mark mark.Star ∷ Mark mark.Minus ∷ b ∷ []) ≡ Some (shape.Binary Mul A (shape.Unary Minus B)) }
    ensures two_signs { read (Mark mark.Minus ∷ Mark mark.Minus ∷ int 1 ∷ []) ≡ Some (shape.Unary Minus (shape.Unary Minus (number 1))) }
    ensures two_nots { read (Keyword keyword.Not ∷ Keyword keyword.Not ∷ a ∷ []) ≡ Some (shape.Not (shape.Not A)) }
    ensures not_of_comparison { read (Keyword keyword.Not ∷ a ∷ Mark mark.EqualEqual ∷ b ∷ []) ≡ Some (shape.Not (shape.Compare A ((Eq, B) ∷ []))) }
    ensures from_the_right { read (a ∷ Keyword keyword.If ∷ b ∷ Keyword keyword.Else ∷ c ∷ Keyword keyword.If ∷ int 1 ∷ Keyword keyword.Else ∷ int 2 ∷ []) ≡ Some (shape.Cond A B (shape.Cond C (number 1) (number 2))) }
    ensures value_and_other { read (a ∷ Keyword keyword.Or ∷ b ∷ Keyword keyword.If ∷ c ∷ Keyword keyword.Else ∷ a ∷ Keyword keyword.And ∷ b ∷ []) ≡ Some (shape.Cond (shape.Or (A ∷ B ∷ [])) C (shape.And (A ∷ B ∷ []))) }
{}

/// Groups behind an operand, and displays.
#[tactic(auto, unfolding(crate::specs::Trees::listed, crate::specs::Trees::conditional, crate::specs::Trees::disjunction, crate::specs::Trees::conjunction, crate::specs::Trees::negation, crate::specs::Trees::comparison, crate::specs::Trees::sum, crate::specs::Trees::product, crate::specs::Trees::signed, crate::specs::Trees::postfix, crate::specs::Trees::inside, crate::specs::Trees::tree_at, crate::specs::TreesNumbers::numbered, crate::specs::TreesPlaces::at, crate::specs::TreesPlaces::below, crate::specs::TreesPlaces::closing, crate::specs::TreesPlaces::colon))]
pub fn groups_by_example()
    ensures call_index_method { read (f ∷ Mark mark.LeftParen ∷ a ∷ Mark mark.Comma ∷ b ∷ Mark mark.Equal ∷ int 1 ∷ Mark mark.RightParen ∷ Mark mark.LeftBracket ∷ int 0 ∷ Mark mark.RightBracket ∷ Mark mark.Dot ∷ c ∷ Mark mark.LeftParen ∷ b ∷ Mark mark.RightParen ∷ []) ≡ Some (shape.Method (shape.Index (shape.Call F ((None, A) ∷ (Some (98 ∷ []), number 1) ∷ [])) (number 0)) (99 ∷ []) ((None, B) ∷ [])) }
    ensures attribute_called_in_brackets { read (Mark mark.LeftParen ∷ a ∷ Mark mark.Dot ∷ b ∷ Mark mark.RightParen ∷ Mark mark.LeftParen ∷ Mark mark.RightParen ∷ []) ≡ Some (shape.Call (shape.Attr A (98 ∷ [])) []) }
    ensures super_call { read (super ∷ Mark mark.LeftParen ∷ Mark mark.RightParen ∷ Mark mark.Dot ∷ f ∷ Mark mark.LeftParen ∷ a ∷ Mark mark.RightParen ∷ []) ≡ Some (shape.Super (102 ∷ []) ((None, A) ∷ [])) }
    ensures super_alone { read (super ∷ Mark mark.LeftParen ∷ Mark mark.RightParen ∷ Mark mark.Dot ∷ f ∷ []) ≡ Some (shape.Attr (shape.Call (shape.Atom (atom.Name (115 ∷ 117 ∷ 112 ∷ 101 ∷ 114 ∷ []))) []) (102 ∷ [])) }
    ensures method_named_super { read (a ∷ Mark mark.Dot ∷ super ∷ Mark mark.LeftParen ∷ Mark mark.RightParen ∷ Mark mark.Dot ∷ f ∷ Mark mark.LeftParen ∷ Mark mark.RightParen ∷ []) ≡ Some (shape.Method (shape.Method A (115 ∷ 117 ∷ 112 ∷ 101 ∷ 114 ∷ []) []) (102 ∷ []) []) }
    ensures slice { read (a ∷ Mark mark.LeftBracket ∷ b ∷ Mark mark.Colon ∷ c ∷ Mark mark.RightBracket ∷ []) ≡ Some (shape.Slice A (Some B) (Some C)) }
    ensures open_slice { read (a ∷ Mark mark.LeftBracket ∷ Mark mark.Colon ∷ Mark mark.RightBracket ∷ []) ≡ Some (shape.Slice A None None) }
    ensures tuple_as_index { read (a ∷ Mark mark.LeftBracket ∷ b ∷ Mark mark.Comma ∷ Mark mark.RightBracket ∷ []) ≡ Some (shape.Index A (shape.TupleLit (B ∷ []))) }
    ensures one_tuple { read (Mark mark.LeftParen ∷ int 1 ∷ Mark mark.Comma ∷ Mark mark.RightParen ∷ []) ≡ Some (shape.TupleLit (number 1 ∷ [])) }
    ensures no_tuple { read (Mark mark.LeftParen ∷ Mark mark.RightParen ∷ []) ≡ Some (shape.TupleLit []) }
    ensures no_list { read (Mark mark.LeftBracket ∷ Mark mark.RightBracket ∷ []) ≡ Some (shape.ListLit []) }
    ensures no_dict { read (Mark mark.LeftBrace ∷ Mark mark.RightBrace ∷ []) ≡ Some (shape.DictLit []) }
    ensures list { read (Mark mark.LeftBracket ∷ a ∷ Mark mark.Comma ∷ Mark mark.LeftParen ∷ b ∷ Mark mark.RightParen ∷ Mark mark.RightBracket ∷ []) ≡ Some (shape.ListLit (A ∷ B ∷ [])) }
    ensures dict { read (Mark mark.LeftBrace ∷ int 1 ∷ Mark mark.Colon ∷ a ∷ Mark mark.Comma ∷ Mark mark.RightBrace ∷ []) ≡ Some (shape.DictLit ((number 1, A) ∷ [])) }
    ensures strings { read (Str (97 ∷ []) ∷ Str (98 ∷ []) ∷ Str (99 ∷ []) ∷ []) ≡ Some (shape.Atom (atom.StrLit (97 ∷ 98 ∷ 99 ∷ []))) }
    ensures literals { read (Keyword keyword.NoneLit ∷ Mark mark.EqualEqual ∷ Keyword keyword.TrueLit ∷ []) ≡ Some (shape.Compare (shape.Atom atom.NoneLit) ((Eq, shape.Atom (atom.BoolLit true)) ∷ [])) }
{}

/// What is no expression.
#[tactic(auto, unfolding(crate::specs::Trees::listed, crate::specs::Trees::conditional, crate::specs::Trees::disjunction, crate::specs::Trees::conjunction, crate::specs::Trees::negation, crate::specs::Trees::comparison, crate::specs::Trees::sum, crate::specs::Trees::product, crate::specs::Trees::signed, crate::specs::Trees::postfix, crate::specs::Trees::inside, crate::specs::Trees::tree_at, crate::specs::TreesNumbers::numbered, crate::specs::TreesPlaces::at, crate::specs::TreesPlaces::below, crate::specs::TreesPlaces::closing, crate::specs::TreesPlaces::colon))]
pub fn refusals_by_example()
    ensures nothing { read [] ≡ None }
    ensures two_operands { read (a ∷ b ∷ []) ≡ None }
    ensures no_operand { read (a ∷ Mark mark.Plus ∷ []) ≡ None }
    ensures no_argument { read (f ∷ Mark mark.LeftParen ∷ a ∷ Mark mark.Equal ∷ Mark mark.RightParen ∷ []) ≡ None }
    ensures not_closed { read (Mark mark.LeftParen ∷ a ∷ []) ≡ None }
    ensures closed_otherwise { read (Mark mark.LeftParen ∷ a ∷ Mark mark.RightBracket ∷ []) ≡ None }
    ensures no_else { read (a ∷ Keyword keyword.If ∷ b ∷ []) ≡ None }
    ensures no_if { read (a ∷ Keyword keyword.Else ∷ b ∷ []) ≡ None }
    ensures other_token { read (Keyword keyword.Lambda ∷ Mark mark.Colon ∷ a ∷ []) ≡ None }
    ensures step { read (a ∷ Mark mark.LeftBracket ∷ int 1 ∷ Mark mark.Colon ∷ int 2 ∷ Mark mark.Colon ∷ int 3 ∷ Mark mark.RightBracket ∷ []) ≡ None }
    ensures slice_alone { read (Mark mark.LeftBracket ∷ int 1 ∷ Mark mark.Colon ∷ int 2 ∷ Mark mark.RightBracket ∷ []) ≡ None }
    ensures star { read (Mark mark.Star ∷ a ∷ []) ≡ None }
    ensures comma_alone { read (Mark mark.LeftParen ∷ Mark mark.Comma ∷ Mark mark.RightParen ∷ []) ≡ None }
    ensures two_commas { read (Mark mark.LeftParen ∷ a ∷ Mark mark.Comma ∷ Mark mark.Comma ∷ b ∷ Mark mark.RightParen ∷ []) ≡ None }
    ensures tuple_without_brackets { read (a ∷ Mark mark.Comma ∷ b ∷ []) ≡ None }
    ensures attribute_of_nothing { read (Mark mark.Dot ∷ a ∷ []) ≡ None }
    ensures not_in_a_sum { read (a ∷ Mark mark.Plus ∷ Keyword keyword.Not ∷ b ∷ []) ≡ None }
    ensures key_alone { read (Mark mark.LeftBrace ∷ a ∷ Mark mark.RightBrace ∷ []) ≡ None }
{}

/// How deep an expression may be.
#[tactic(auto, unfolding(crate::specs::Trees::listed, crate::specs::Trees::conditional, crate::specs::Trees::disjunction, crate::specs::Trees::conjunction, crate::specs::Trees::negation, crate::specs::Trees::comparison, crate::specs::Trees::sum, crate::specs::Trees::product, crate::specs::Trees::signed, crate::specs::Trees::postfix, crate::specs::Trees::inside, crate::specs::Trees::tree_at, crate::specs::TreesNumbers::numbered, crate::specs::TreesPlaces::at, crate::specs::TreesPlaces::below, crate::specs::TreesPlaces::closing, crate::specs::TreesPlaces::colon))]
pub fn depths_by_example()
    ensures deepest_brackets { read (bracketed 49 (int 1 ∷ [])) ≡ Some (number 1) }
    ensures too_deep_brackets { read (bracketed 50 (int 1 ∷ [])) ≡ None }
    ensures tuple_brackets_are_its_own { read (bracketed 48 (Mark mark.LeftParen ∷ int 1 ∷ Mark mark.Comma ∷ Mark mark.RightParen ∷ [])) ≡ Some (shape.TupleLit (number 1 ∷ [])) }
    ensures too_many_terms { read (repeated 50 a (Mark mark.Plus ∷ b ∷ [])) ≡ None }
    ensures too_many_attributes { read (repeated 50 a (Mark mark.Dot ∷ b ∷ [])) ≡ None }
{}

/// How nodes are numbered.
#[tactic(auto, unfolding(crate::specs::Trees::listed, crate::specs::Trees::conditional, crate::specs::Trees::disjunction, crate::specs::Trees::conjunction, crate::specs::Trees::negation, crate::specs::Trees::comparison, crate::specs::Trees::sum, crate::specs::Trees::product, crate::specs::Trees::signed, crate::specs::Trees::postfix, crate::specs::Trees::inside, crate::specs::Trees::tree_at, crate::specs::TreesNumbers::numbered, crate::specs::TreesPlaces::at, crate::specs::TreesPlaces::below, crate::specs::TreesPlaces::closing, crate::specs::TreesPlaces::colon))]
pub fn numbers_by_example()
    ensures before_its_parts { tree_of (int 1 ∷ Mark mark.Plus ∷ int 2 ∷ Mark mark.Star ∷ int 3 ∷ []) ≡ Some (node 0 (expr.Binary Add (node 1 (expr.IntLit (pos 1))) (node 2 (expr.Binary Mul (node 3 (expr.IntLit (pos 2))) (node 4 (expr.IntLit (pos 3))))))) }
    ensures arguments_as_they_stand { tree_of (f ∷ Mark mark.LeftParen ∷ a ∷ Mark mark.Equal ∷ int 1 ∷ Mark mark.Comma ∷ int 2 ∷ Mark mark.RightParen ∷ []) ≡ Some (node 0 (expr.Call (node 1 (expr.Name (102 ∷ []))) (args (node 3 (expr.IntLit (pos 2)) ∷ [], (97 ∷ [], node 2 (expr.IntLit (pos 1))) ∷ [])))) }
    ensures value_test_other { tree_of (a ∷ Keyword keyword.If ∷ b ∷ Keyword keyword.Else ∷ c ∷ []) ≡ Some (node 0 (expr.Cond (node 1 (expr.Name (97 ∷ []))) (node 2 (expr.Name (98 ∷ []))) (node 3 (expr.Name (99 ∷ []))))) }
    ensures tuple { trees_of (a ∷ Mark mark.Comma ∷ b ∷ []) ≡ Some (node 0 (expr.TupleLit (node 1 (expr.Name (97 ∷ [])) ∷ node 2 (expr.Name (98 ∷ [])) ∷ []))) }
    ensures no_comma { trees_of (a ∷ []) ≡ Some (node 0 (expr.Name (97 ∷ []))) }
{}
