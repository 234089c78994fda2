// Worked examples of the definition of tokens, proved by computation: Python's own rules on small texts.
ghost use Rattle.std.specs.Prelude.{◌≡◌, ◌+◌, ◌-◌, ◌^◌, ◌++◌, [], ◌∷◌, codes, replicate};
ghost use Rattle.pyn_base.specs.declared.construct.Construct.TheVariants as fault;
ghost use Rattle.py_language.specs.declared.token.Token.TheVariants as t;
ghost use Rattle.py_language.specs.declared.token.Keyword.TheVariants as k;
ghost use Rattle.py_language.specs.declared.token.Mark.TheVariants as m;
ghost use Rattle.py_language.specs.Tokens.{tokens_of};
ghost use Rattle.py_language.specs.TokensExamples.{name, string, integer, logical, sound, in_line, faulty};

/// What the definition says of these texts.
pub fn worked_tokens()
    ensures product { tokens_of (codes "a = 1 + 2 * 3\n") ≡ in_line (name "a" ∷ t.Mark m.Equal ∷ integer 1
        ∷ t.Mark m.Plus ∷ integer 2 ∷ t.Mark m.Star ∷ integer 3 ∷ []) }
    ensures longest_marks { tokens_of (codes "x<=y<<z\n") ≡ in_line (name "x" ∷ t.Mark m.LessEqual
        ∷ name "y" ∷ t.Mark m.LeftShift ∷ name "z" ∷ []) }
    ensures forms_of_strings { tokens_of (codes "'a\"' \"b'\" '''c''' \"\"\"\nd\"\"\" ''\n") ≡ in_line (string "a\""
        ∷ string "b'" ∷ string "c" ∷ string "\nd" ∷ string "" ∷ []) }
    ensures escapes { tokens_of (codes "'\\\\ \\' \\n \\x41 \\u00e9 \\\n.'\n") ≡ in_line (string "\\ ' \n A é ." ∷ []) }
    ensures utf8_in_a_string { tokens_of (39 ∷ 0xC3 ∷ 0xA9 ∷ 39 ∷ []) ≡ in_line (string "é" ∷ []) }
    ensures bracket_over_two_lines { tokens_of (codes "f(1,\n2)\n") ≡ in_line (name "f" ∷ t.Mark m.LeftParen
        ∷ integer 1 ∷ t.Mark m.Comma ∷ integer 2 ∷ t.Mark m.RightParen ∷ []) }
    ensures columns { tokens_of (codes "if a:\n\n  b # c") ≡ sound (logical 1 0 (t.Keyword k.If ∷ name "a"
        ∷ t.Mark m.Colon ∷ []) ∷ logical 3 2 (name "b" ∷ []) ∷ []) }
    ensures line_ends { tokens_of (codes "a\r\nb\r\n") ≡ sound (logical 1 0 (name "a" ∷ []) ∷ logical 2 0 (name "b" ∷ []) ∷ []) }
    ensures integers { tokens_of (codes "1_000 0x_fF 0O17 0b1 00_0") ≡ in_line (integer 1000 ∷ integer 255 ∷ integer 15
        ∷ integer 1 ∷ integer 0 ∷ []) }
    ensures order_mark { tokens_of (0xEF ∷ 0xBB ∷ 0xBF ∷ codes "a") ≡ in_line (name "a" ∷ []) }
    ensures greatest_integer { tokens_of (codes "170141183460469231731687303715884105727") ≡ in_line (integer (2 ^ 127 - 1) ∷ []) }
    ensures accepted_encoding { tokens_of (codes "\n# coding: UTF_8\na") ≡ sound (logical 3 0 (name "a" ∷ []) ∷ []) }
    ensures ellipsis_before_a_digit { tokens_of (codes "...5") ≡ in_line (t.Mark m.Ellipsis ∷ integer 5 ∷ []) }
    ensures lines_before_a_fault { tokens_of (codes "a\n$") ≡ record {
      lines = logical 1 0 (name "a" ∷ []) ∷ [];
      fault = Some (2, fault.Character);
    } }
    ensures encoding_of_a_byte { tokens_of (0xFF ∷ []) ≡ faulty 1 fault.Encoding }
    ensures encoding_in_a_string { tokens_of (39 ∷ 0xC3 ∷ 39 ∷ []) ≡ faulty 1 fault.Encoding }
    ensures encoding_by_name { tokens_of (codes "# coding=latin-1\n") ≡ faulty 1 fault.Encoding }
    ensures tab { tokens_of (codes " \ta") ≡ faulty 1 fault.Tab }
    ensures tab_on_a_blank_line { tokens_of (codes "\t\n\t# a") ≡ sound [] }
    ensures string_open { tokens_of (codes "'a\n'") ≡ faulty 1 fault.String }
    ensures escape { tokens_of (codes "\"\\q\"") ≡ faulty 1 fault.Escape }
    ensures escape_on_a_later_line { tokens_of (codes "'''\n\\q'''") ≡ faulty 2 fault.Escape }
    ensures string_prefix { tokens_of (codes "rb''") ≡ faulty 1 fault.StringPrefix }
    ensures number_with_a_point { tokens_of (codes "1.5") ≡ faulty 1 fault.Number }
    ensures number_with_two_underscores { tokens_of (codes "1__0") ≡ faulty 1 fault.Number }
    ensures number_with_leading_zero { tokens_of (codes "0777") ≡ faulty 1 fault.Number }
    ensures number_in_base_two { tokens_of (codes "0b2") ≡ faulty 1 fault.Number }
    ensures point_before_a_digit { tokens_of (codes "a .5") ≡ faulty 1 fault.Number }
    ensures integer_range { tokens_of (codes "170141183460469231731687303715884105728") ≡ faulty 1 fault.IntegerRange }
    ensures bracket_closed { tokens_of (codes "(]") ≡ faulty 1 fault.Bracket }
    ensures bracket_open { tokens_of (codes "\n(\n") ≡ faulty 2 fault.Bracket }
    ensures bracket_after_any_other_fault { tokens_of (codes "(\n$") ≡ faulty 2 fault.Character }
    ensures nesting { tokens_of (replicate 51 40) ≡ faulty 1 fault.Nesting }
    ensures backslash { tokens_of (codes "a \\\n") ≡ faulty 1 fault.Backslash }
    ensures lone_carriage_return { tokens_of (codes "a\rb") ≡ faulty 1 fault.Character }
    ensures form_feed_in_a_comment { tokens_of (codes "# \u{c}") ≡ faulty 1 fault.Character }
    ensures last_carriage_return { tokens_of (codes "a\r") ≡ in_line (name "a" ∷ []) }
{}
