// Printed expressions, worked out by hand from Python's grammar.
ghost use Rattle.std.specs.Prelude.{◌≡◌, [], ◌∷◌, None, codes};
ghost use Rattle.py_language.specs.declared.shape.Shape.TheVariants as e;
ghost use Rattle.py_syntax.specs.declared.operator.BinOp.TheVariants.{Add, Mul, Sub};
ghost use Rattle.py_syntax.specs.declared.operator.Sign.TheVariants.{Minus};
ghost use Rattle.py_printing.specs.Examples.{name, line_of};

/// Brackets are where the grammar needs them, and nowhere else.
pub fn printing_by_example()
    ensures looser_operand { line_of (e.Binary Mul (e.Binary Add (name "a") (name "b")) (e.Unary Minus (name "c"))) ≡ codes "(a + b) * -c\n" }
    ensures tighter_operand { line_of (e.Binary Add (name "a") (e.Binary Mul (name "b") (name "c"))) ≡ codes "a + b * c\n" }
    ensures right_operand { line_of (e.Binary Add (name "a") (e.Binary Add (name "b") (name "c"))) ≡ codes "a + (b + c)\n" }
    ensures tuple_of_one { line_of (e.TupleLit (name "a" ∷ [])) ≡ codes "(a,)\n" }
    ensures call_of_an_attribute { line_of (e.Call (e.Attr (name "a") (codes "b")) []) ≡ codes "(a.b)()\n" }
    ensures not_of_a_truth { line_of (e.Not (e.And (name "a" ∷ name "b" ∷ []))) ≡ codes "not (a and b)\n" }
{}
