// Worked examples of the definitions of texts and numerals, which show that they mean what the manual says.
ghost use Rattle.std.specs.Prelude.{◌≡◌, pos, negsuc, true, false, [], ◌∷◌, Some, None, codes, map};
ghost use Rattle.py_meaning.specs.Texts.{begins_with, finishes_with, first_place, pieces, joined, replaced, words, stripped, is_blank, is_one_of, are_digits, upper};
ghost use Rattle.py_meaning.specs.Numerals.{is_numeral, integer_spelled, integer_text};

/// What the definitions say of short texts.
pub fn text_examples()
    ensures a_text_is_found { first_place (codes "abab") (codes "abaabab") ≡ Some 3 }
    ensures a_text_is_nowhere { first_place (codes "aab") (codes "abaaaa") ≡ None }
    ensures the_empty_text_is_at_the_front { first_place [] (codes "ab") ≡ Some 0 }
    ensures it_begins { begins_with (codes "ab") (codes "abc") ≡ false }
    ensures it_finishes { finishes_with (codes "b") (codes "ab") ≡ false }
    ensures cut_at_a_text { pieces (codes "<>") (codes "1<>2<>3") ≡ codes "1" ∷ codes "2" ∷ codes "3" ∷ [] }
    ensures pieces_do_not_overlap { pieces (codes "aa") (codes "aaa") ≡ [] ∷ codes "a" ∷ [] }
    ensures empty_pieces_stay { pieces (codes ",") (codes "1,,2,") ≡ codes "1" ∷ [] ∷ codes "2" ∷ [] ∷ [] }
    ensures joined_again { joined (codes ", ") (codes "a" ∷ codes "b" ∷ codes "c" ∷ []) ≡ codes "a, b, c" }
    ensures replaced_everywhere { replaced [] (codes "-") (codes "ab") ≡ codes "-a-b-" }
    ensures replaced_from_the_left { replaced (codes "aa") (codes "b") (codes "aaaaa") ≡ codes "bba" }
    ensures runs_of_blanks { words (codes "  1  2   3  ") ≡ codes "1" ∷ codes "2" ∷ codes "3" ∷ [] }
    ensures no_words { words (codes "   ") ≡ [] }
    ensures without_blanks { stripped is_blank (codes "   spacious   ") ≡ codes "spacious" }
    ensures without_characters { stripped (is_one_of (codes "cmowz.")) (codes "www.example.com") ≡ codes "example" }
    ensures no_digits { are_digits [] ≡ false }
    ensures capitals { map upper (codes "a Tree {z}") ≡ codes "A TREE {Z}" }
    ensures single_underscores { is_numeral (codes "1_000") ≡ true }
    ensures two_underscores { is_numeral (codes "1__0") ≡ false }
    ensures an_underscore_ends { is_numeral (codes "1_") ≡ false }
    ensures spaces_at_the_ends { integer_spelled (codes " 7 ") ≡ Some (pos 7) }
    ensures below_zero { integer_spelled (codes "-1_0") ≡ Some (negsuc 9) }
    ensures leading_zeros { integer_spelled (codes "+007") ≡ Some (pos 7) }
    ensures no_zero_below { integer_spelled (codes "-0") ≡ Some (pos 0) }
    ensures nothing_is_no_integer { integer_spelled (codes "") ≡ None }
    ensures two_signs { integer_spelled (codes "+-1") ≡ None }
    ensures a_space_within { integer_spelled (codes "- 1") ≡ None }
    ensures its_digits { integer_text (negsuc 999) ≡ codes "-1000" }
{}
