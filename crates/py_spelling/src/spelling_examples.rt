// Spellings, worked out by hand from Python's rules.
ghost use Rattle.std.specs.Prelude.{◌≡◌, [], ◌∷◌, true, false, codes};
ghost use Rattle.py_language.specs.declared.token.Token.TheVariants.{Keyword};
ghost use Rattle.py_language.specs.declared.token.Keyword.TheVariants as keyword;
ghost use Rattle.py_language.specs.declared.token.Mark.TheVariants as m;
ghost use Rattle.py_spelling.specs.Spelling.{spelled, may_touch, rows_text};
ghost use Rattle.py_spelling.specs.Examples.{name, string, integer, mark, spaced, touching, row};

/// Strings with their escapes, neighbours, and two lines with a blank one between them.
pub fn spelling_by_example()
    ensures escapes { spelled (string "a\"b'\\\n\t\u{1}\u{7f}") ≡ codes "\"a\\\"b'\\\\\\n\\t\\x01\\x7f\"" }
    ensures utf8 { spelled (string "é") ≡ 34 ∷ 0xC3 ∷ 0xA9 ∷ 34 ∷ [] }
    ensures names_apart { may_touch (name "a") (name "b") ≡ false }
    ensures number_before_a_dot { may_touch (integer 1) (mark m.Dot) ≡ false }
    ensures marks_that_join { may_touch (mark m.Less) (mark m.Equal) ≡ false }
    ensures bracket_and_name { may_touch (mark m.LeftParen) (name "a") ≡ true }
    ensures strings_apart { may_touch (string "a") (string "b") ≡ false }
    ensures rows { rows_text ((0, row 0 (name "a") (spaced (mark m.Equal) ∷ spaced (integer 10) ∷ []))
        ∷ (1, row 4 (name "f") (touching (mark m.LeftParen) ∷ touching (mark m.RightParen) ∷ [])) ∷ []) ≡ codes "a = 10\n\n    f()\n" }
{}
