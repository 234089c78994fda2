// The forms of lines, worked out by hand from Python's grammar.
ghost use Rattle.std.specs.Prelude.{◌≡◌, ◌∷◌, [], Some, None, codes, true, false};
ghost use Rattle.py_language.specs.declared.token.Token.TheVariants.{Keyword, Mark, Str};
ghost use Rattle.py_language.specs.declared.token.Keyword.TheVariants as keyword;
ghost use Rattle.py_language.specs.declared.token.Mark.TheVariants as mark;
ghost use Rattle.py_syntax.specs.declared.operator.BinOp.TheVariants.{Add};
ghost use Rattle.py_syntax.specs.declared.stmt.Annotation.TheVariants.{Named, NoneType, OrNone, Quoted};
ghost use Rattle.py_syntax.specs.declared.stmt.StmtKind.TheVariants as s;
ghost use Rattle.py_syntax.specs.declared.stmt.Target.TheVariants as to;
ghost use Rattle.py_grammar.specs.declared.form.Form.TheVariants.{Compound, Future, Typing};
ghost use Rattle.py_grammar.specs.declared.form.Header.TheVariants as h;
ghost use Rattle.py_grammar.specs.FormsExamples.{read, name, operand, small, statements, alone, type, param};

/// Small statements, headers and import lines, and what is none of them.
#[tactic(auto, unfolding(py_language::specs::Trees::listed, py_language::specs::Trees::conditional, py_language::specs::Trees::disjunction, py_language::specs::Trees::conjunction, py_language::specs::Trees::negation, py_language::specs::Trees::comparison, py_language::specs::Trees::sum, py_language::specs::Trees::product, py_language::specs::Trees::signed, py_language::specs::Trees::postfix, py_language::specs::Trees::inside, py_language::specs::Trees::tree_at, py_language::specs::TreesPlaces::at, py_language::specs::TreesPlaces::below, py_language::specs::TreesPlaces::closing, py_language::specs::TreesPlaces::colon, crate::specs::Separators::outside, crate::specs::Annotations::annotation_in, crate::specs::Forms::form_of), using(py_language::proofs::TreesNumbering::numbering, crate::proofs::StringExamples::int_held, crate::proofs::StringExamples::faulty_held))]
pub fn forms_by_example()
    ensures three { read (Keyword keyword.Pass ∷ Mark mark.Semicolon ∷ Keyword keyword.Break ∷ Mark mark.Semicolon ∷ Keyword keyword.Continue ∷ Mark mark.Semicolon ∷ []) ≡ statements (s.Pass ∷ s.Break ∷ s.Continue ∷ []) }
    ensures returned { read (Keyword keyword.Return ∷ name "a" ∷ []) ≡ statements (s.Return (Some (operand "a")) ∷ []) }
    ensures raised_again { read (Keyword keyword.Raise ∷ []) ≡ statements (s.Raise None ∷ []) }
    ensures asserted { read (Keyword keyword.Assert ∷ name "a" ∷ Mark mark.Comma ∷ name "b" ∷ []) ≡ statements (s.Assert (operand "a") (Some (operand "b")) ∷ []) }
    ensures deleted { read (Keyword keyword.Del ∷ name "a" ∷ Mark mark.LeftBracket ∷ name "b" ∷ Mark mark.RightBracket ∷ []) ≡ statements (s.Del (operand "a") (operand "b") ∷ []) }
    ensures tuple_bound { read (name "a" ∷ Mark mark.Comma ∷ name "b" ∷ Mark mark.Dot ∷ name "c" ∷ Mark mark.Comma ∷ Mark mark.Equal ∷ name "a" ∷ []) ≡ statements (s.Assign (to.Name (codes "a") ∷ to.Attr (operand "b") (codes "c") ∷ []) true None (operand "a") ∷ []) }
    ensures annotated { read (name "a" ∷ Mark mark.Colon ∷ name "b" ∷ Mark mark.Equal ∷ name "c" ∷ []) ≡ statements (s.Assign (to.Name (codes "a") ∷ []) false (Some (type "b")) (operand "c") ∷ []) }
    ensures augmented { read (name "a" ∷ Mark mark.PlusEqual ∷ name "b" ∷ []) ≡ statements (s.Augment (to.Name (codes "a")) Add (operand "b") ∷ []) }
    ensures bare { read (name "a" ∷ []) ≡ statements (s.Bare (operand "a") ∷ []) }
    ensures if_here { read (Keyword keyword.If ∷ name "a" ∷ Mark mark.Colon ∷ Keyword keyword.Pass ∷ []) ≡ Some (Compound (h.If (operand "a")) (Some (small s.Pass ∷ []))) }
    ensures elif_test { read (Keyword keyword.Elif ∷ name "a" ∷ Mark mark.Colon ∷ []) ≡ alone (h.Elif (operand "a")) }
    ensures else_alone { read (Keyword keyword.Else ∷ Mark mark.Colon ∷ []) ≡ alone h.Else }
    ensures while_test { read (Keyword keyword.While ∷ name "a" ∷ Mark mark.Colon ∷ []) ≡ alone (h.While (operand "a")) }
    ensures for_tuple { read (Keyword keyword.For ∷ name "a" ∷ Mark mark.Comma ∷ Keyword keyword.In ∷ name "b" ∷ Mark mark.Colon ∷ []) ≡ alone (h.For (codes "a" ∷ []) true (operand "b")) }
    ensures try_alone { read (Keyword keyword.Try ∷ Mark mark.Colon ∷ []) ≡ alone h.Try }
    ensures except_several { read (Keyword keyword.Except ∷ Mark mark.LeftParen ∷ name "A" ∷ Mark mark.Comma ∷ name "B" ∷ Mark mark.RightParen ∷ Keyword keyword.As ∷ name "e" ∷ Mark mark.Colon ∷ []) ≡ alone (h.Except (Some (codes "A" ∷ codes "B" ∷ [])) (Some (codes "e"))) }
    ensures finally_alone { read (Keyword keyword.Finally ∷ Mark mark.Colon ∷ []) ≡ alone h.Finally }
    ensures def_with_types { read (Keyword keyword.Def ∷ name "f" ∷ Mark mark.LeftParen ∷ name "a" ∷ Mark mark.Colon ∷ name "int" ∷ Mark mark.Equal ∷ name "b" ∷ Mark mark.Comma ∷ Mark mark.RightParen ∷ Mark mark.Arrow ∷ Keyword keyword.NoneLit ∷ Mark mark.Colon ∷ []) ≡ alone (h.Def (codes "f") (param "a" (Some (type "int")) (Some (operand "b")) ∷ []) (Some NoneType)) }
    ensures class_with_base { read (Keyword keyword.Class ∷ name "A" ∷ Mark mark.LeftParen ∷ name "B" ∷ Mark mark.RightParen ∷ Mark mark.Colon ∷ []) ≡ alone (h.Class (codes "A") (Some (codes "B"))) }
    ensures future { read (Keyword keyword.From ∷ name "__future__" ∷ Keyword keyword.Import ∷ name "annotations" ∷ []) ≡ Some Future }
    ensures typing { read (Keyword keyword.From ∷ name "typing" ∷ Keyword keyword.Import ∷ Mark mark.LeftParen ∷ name "List" ∷ Mark mark.Comma ∷ name "Any" ∷ Mark mark.Comma ∷ Mark mark.RightParen ∷ []) ≡ Some (Typing (codes "List" ∷ codes "Any" ∷ [])) }
    ensures or_none { read (name "a" ∷ Mark mark.Colon ∷ name "Dict" ∷ Mark mark.LeftBracket ∷ name "str" ∷ Mark mark.Comma ∷ name "int" ∷ Mark mark.RightBracket ∷ Mark mark.Pipe ∷ Keyword keyword.NoneLit ∷ Mark mark.Equal ∷ name "b" ∷ []) ≡ statements (s.Assign (to.Name (codes "a") ∷ []) false (Some (OrNone (Named (codes "Dict") (type "str" ∷ type "int" ∷ [])))) (operand "b") ∷ []) }
    ensures in_a_string { read (name "a" ∷ Mark mark.Colon ∷ Str (codes " int") ∷ Mark mark.Equal ∷ name "b" ∷ []) ≡ statements (s.Assign (to.Name (codes "a") ∷ []) false (Some (Quoted (type "int"))) (operand "b") ∷ []) }
    ensures no_value { read (name "a" ∷ Mark mark.Colon ∷ name "int" ∷ []) ≡ None }
    ensures chain { read (name "a" ∷ Mark mark.Equal ∷ name "b" ∷ Mark mark.Equal ∷ name "c" ∷ []) ≡ None }
    ensures else_without_colon { read (Keyword keyword.Else ∷ []) ≡ None }
    ensures last_comma { read (Keyword keyword.From ∷ name "typing" ∷ Keyword keyword.Import ∷ name "Any" ∷ Mark mark.Comma ∷ []) ≡ None }
    ensures index_annotated { read (name "a" ∷ Mark mark.LeftBracket ∷ name "b" ∷ Mark mark.RightBracket ∷ Mark mark.Colon ∷ name "int" ∷ Mark mark.Equal ∷ name "c" ∷ []) ≡ None }
    ensures fault_in_a_string { read (name "a" ∷ Mark mark.Colon ∷ Str (codes "int$") ∷ Mark mark.Equal ∷ name "b" ∷ []) ≡ None }
{}
