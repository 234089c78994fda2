// Annotations, laid out.
ghost use Rattle.std.specs.Prelude.{◌≡◌, [], ◌∷◌, codes};
ghost use Rattle.py_syntax.specs.declared.stmt.Annotation.TheVariants.{Named, NoneType, OrNone, Quoted};
ghost use Rattle.py_printer.specs.Style.{text_of};
ghost use Rattle.py_annotation_layout.specs.Annotations.{annotation_tokens};
ghost use Rattle.py_annotation_layout.specs.Examples.{named};

/// Names with parts, `None` after a bar, and strings in strings: each has the escapes of the one inside it.
pub fn annotations_by_example()
    ensures parts { text_of (annotation_tokens (Named (codes "Dict") (named "str" ∷ Named (codes "list") (named "int" ∷ []) ∷ []))) ≡ codes "Dict[str, list[int]]" }
    ensures or_none { text_of (annotation_tokens (OrNone (named "int"))) ≡ codes "int | None" }
    ensures none { text_of (annotation_tokens NoneType) ≡ codes "None" }
    ensures string { text_of (annotation_tokens (Quoted (named "A"))) ≡ codes "\"A\"" }
    ensures in_a_string { text_of (annotation_tokens (Quoted (Quoted (named "A")))) ≡ codes "\"\\\"A\\\"\"" }
    ensures three_levels { text_of (annotation_tokens (Quoted (Quoted (Quoted (named "A"))))) ≡ codes "\"\\\"\\\\\\\"A\\\\\\\"\\\"\"" }
{}
