// Lines worked out by hand: which line is refused first, and why.
ghost use Rattle.std.specs.Prelude.{◌≡◌, ◌∷◌, [], Some, None, Err};
ghost use Rattle.pyn_base.specs.declared.construct.Construct.TheVariants as construct;
ghost use Rattle.py_language.specs.declared.token.Token.TheVariants.{Keyword, Mark};
ghost use Rattle.py_language.specs.declared.token.Keyword.TheVariants as keyword;
ghost use Rattle.py_language.specs.declared.token.Mark.TheVariants as mark;
ghost use Rattle.py_syntax.specs.declared.refusal.Refusal.TheVariants.{Refused};
ghost use Rattle.py_grammar.specs.declared.place.Place.TheVariants.{Module, Block};
ghost use Rattle.py_grammar.specs.Refusals.{construct_of};
ghost use Rattle.py_grammar.specs.Compounds.{statements};
ghost use Rattle.py_grammar.specs.Modules.{read_lines};
ghost use Rattle.py_grammar.specs.RefusalsExamples.{a, at, pass, header, headed, def, class, refused};

/// The rows that a line has from those around it.
#[tactic(auto, unfolding(crate::specs::Forms::form_of, crate::specs::Separators::outside, crate::specs::Refusals::construct_of, crate::specs::Compounds::statement, crate::specs::Compounds::statements, crate::specs::Modules::method, crate::specs::Modules::methods, crate::specs::Modules::module_item, crate::specs::Modules::module_items))]
pub fn refused_lines_by_example()
    ensures first_line { read_lines None (at 1 2 pass ∷ []) ≡ refused 1 construct.Indent }
    ensures deeper_line { read_lines None (at 1 0 def ∷ at 2 4 pass ∷ at 3 6 pass ∷ []) ≡ refused 3 construct.Indent }
    ensures dedent_to_no_block { read_lines None (at 1 0 def ∷ at 2 4 pass ∷ at 3 2 pass ∷ []) ≡ refused 3 construct.Indent }
    ensures no_block { read_lines None (at 1 0 pass ∷ at 2 0 def ∷ at 3 0 pass ∷ []) ≡ refused 2 construct.Indent }
    ensures too_deep { statements 0 None (at 5 4 pass ∷ []) ≡ refused 5 construct.Nesting }
    ensures block_on_the_line { statements 1 None (at 5 4 (headed keyword.Try) ∷ []) ≡ refused 5 construct.Nesting }
    ensures nested_def { read_lines None (at 1 0 def ∷ at 2 4 def ∷ []) ≡ refused 2 construct.NestedDef }
    ensures def_in_a_try { read_lines None (at 1 0 (header keyword.Try) ∷ at 2 4 def ∷ []) ≡ refused 2 construct.NestedDef }
    ensures nested_class { read_lines None (at 1 0 class ∷ at 2 4 class ∷ []) ≡ refused 2 construct.NestedClass }
    ensures orphan { read_lines None (at 1 0 pass ∷ at 2 0 (header keyword.Else) ∷ []) ≡ refused 2 construct.Syntax }
    ensures no_clauses { read_lines None (at 1 0 (header keyword.Try) ∷ at 2 4 pass ∷ at 3 0 pass ∷ []) ≡ refused 1 construct.Syntax }
    ensures else_without_clauses { read_lines None (at 1 0 (headed keyword.Try) ∷ at 2 0 (headed keyword.Else) ∷ at 3 0 (headed keyword.Finally) ∷ []) ≡ refused 1 construct.Syntax }
    ensures block_before_clauses { read_lines None (at 1 0 (header keyword.Try) ∷ at 2 4 (Keyword keyword.Pass ∷ Keyword keyword.Lambda ∷ []) ∷ []) ≡ refused 2 construct.Lambda }
    ensures clause_after_a_bare_one { read_lines None (at 1 0 (headed keyword.Try) ∷ at 2 0 (headed keyword.Except) ∷ at 3 0 (headed keyword.Except) ∷ []) ≡ refused 3 construct.Syntax }
    ensures fault_after_the_lines { read_lines (Some (Refused 3 construct.Number)) (at 1 0 pass ∷ at 2 0 pass ∷ []) ≡ refused 3 construct.Number }
    ensures fault_after_a_faulty_line { read_lines (Some (Refused 3 construct.Number)) (at 1 0 pass ∷ at 2 2 pass ∷ []) ≡ refused 2 construct.Indent }
    ensures fault_after_a_header { read_lines (Some (Refused 2 construct.Tab)) (at 1 0 def ∷ []) ≡ refused 2 construct.Tab }
    ensures fault_after_a_try { read_lines (Some (Refused 3 construct.Tab)) (at 1 0 (header keyword.Try) ∷ at 2 4 pass ∷ []) ≡ refused 3 construct.Tab }
{}

/// The rows of tokens: the first of them in the line counts.
#[tactic(auto, unfolding(crate::specs::Refusals::construct_of))]
pub fn refused_tokens_by_example()
    ensures first_of_two { construct_of Module 20 (a ∷ Mark mark.Slash ∷ Keyword keyword.Lambda ∷ []) ≡ construct.Division }
    ensures comprehension { construct_of Module 20 (a ∷ Keyword keyword.For ∷ a ∷ []) ≡ construct.Comprehension }
    ensures for_first { construct_of Module 20 (Keyword keyword.For ∷ a ∷ []) ≡ construct.Syntax }
    ensures with_first { construct_of Module 20 (Keyword keyword.With ∷ a ∷ []) ≡ construct.With }
    ensures walrus { construct_of Module 20 (a ∷ Mark mark.Walrus ∷ a ∷ []) ≡ construct.Walrus }
    ensures at_sign { construct_of Module 20 (Mark mark.At ∷ a ∷ []) ≡ construct.AtSign }
    ensures power { construct_of Module 20 (a ∷ Mark mark.DoubleStarEqual ∷ a ∷ []) ≡ construct.Power }
    ensures bit_operator { construct_of Module 20 (a ∷ Mark mark.Pipe ∷ a ∷ []) ≡ construct.BitOperator }
    ensures ellipsis { construct_of Module 20 (Mark mark.Ellipsis ∷ []) ≡ construct.Ellipsis }
    ensures nesting_before_others { construct_of Block 0 (Keyword keyword.While ∷ Keyword keyword.Lambda ∷ []) ≡ construct.Nesting }
    ensures nested_before_others { construct_of Block 5 (Keyword keyword.Def ∷ Keyword keyword.Lambda ∷ []) ≡ construct.NestedDef }
    ensures none { construct_of Module 20 (a ∷ a ∷ []) ≡ construct.Syntax }
{}
