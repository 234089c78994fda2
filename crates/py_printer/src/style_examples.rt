// Texts of tokens and trees, worked out by hand from PEP 8.
ghost use Rattle.std.specs.Prelude.{◌≡◌, [], ◌∷◌, codes};
ghost use Rattle.py_language.specs.declared.shape.Atom.TheVariants as a;
ghost use Rattle.py_language.specs.declared.shape.Shape.TheVariants as e;
ghost use Rattle.py_language.specs.declared.token.Keyword.TheVariants as k;
ghost use Rattle.py_language.specs.declared.token.Mark.TheVariants as m;
ghost use Rattle.py_language.specs.declared.token.Token.TheVariants.{Keyword};
ghost use Rattle.py_language.specs.TreesPlaces.{Conditional};
ghost use Rattle.py_syntax.specs.declared.operator.BinOp.TheVariants.{Add, Mul};
ghost use Rattle.py_spelling.specs.Examples.{name, string, integer, mark};
ghost use Rattle.py_printing.specs.Texts.{shape_tokens};
ghost use Rattle.py_printer.specs.Style.{text_of};

/// Spaces round binary operators and after commas, none inside brackets, after a sign or round the `=` of a named argument.
pub fn style_by_example()
    ensures sum_and_product { text_of (integer 1 ∷ mark m.Plus ∷ integer 2 ∷ mark m.Star ∷ integer 3 ∷ []) ≡ codes "1 + 2 * 3" }
    ensures signs { text_of (mark m.Minus ∷ name "a" ∷ mark m.Minus ∷ mark m.Minus ∷ mark m.Minus ∷ name "b" ∷ []) ≡ codes "-a - --b" }
    ensures call { text_of (name "f" ∷ mark m.LeftParen ∷ name "a" ∷ mark m.Comma ∷ name "b" ∷ mark m.Equal ∷ integer 1 ∷ mark m.RightParen ∷ []) ≡ codes "f(a, b=1)" }
    ensures slice { text_of (name "a" ∷ mark m.LeftBracket ∷ integer 1 ∷ mark m.Colon ∷ mark m.Minus ∷ integer 1 ∷ mark m.RightBracket ∷ []) ≡ codes "a[1:-1]" }
    ensures dict { text_of (mark m.LeftBrace ∷ string "k" ∷ mark m.Colon ∷ name "v" ∷ mark m.RightBrace ∷ []) ≡ codes "{\"k\": v}" }
    ensures tuple_of_one { text_of (mark m.LeftParen ∷ name "a" ∷ mark m.Comma ∷ mark m.RightParen ∷ []) ≡ codes "(a,)" }
    ensures number_with_an_attribute { text_of (integer 1 ∷ mark m.Dot ∷ name "real" ∷ []) ≡ codes "1 .real" }
    ensures method_of_a_result { text_of (name "f" ∷ mark m.LeftParen ∷ mark m.RightParen ∷ mark m.Dot ∷ name "g" ∷ mark m.LeftParen ∷ mark m.RightParen ∷ []) ≡ codes "f().g()" }
    ensures keywords { text_of (name "a" ∷ Keyword k.Is ∷ Keyword k.Not ∷ Keyword k.NoneLit ∷ []) ≡ codes "a is not None" }
    ensures parameters { text_of (name "f" ∷ mark m.LeftParen ∷ name "a" ∷ mark m.Colon ∷ name "int" ∷ mark m.Equal ∷ integer 1 ∷ mark m.Comma ∷ name "b" ∷ mark m.Equal ∷ integer 2 ∷ mark m.RightParen ∷ []) ≡ codes "f(a: int = 1, b=2)" }
    ensures tree { text_of (shape_tokens Conditional (e.Binary Mul (e.Binary Add (e.Atom (a.Name (codes "a"))) (e.Atom (a.Name (codes "b")))) (e.Atom (a.Name (codes "c"))))) ≡ codes "(a + b) * c" }
{}
