// The text of an expression.
ghost use Rattle.std.specs.Prelude.{◌≡◌, ◌++◌, OnOk, OnErr};
ghost use Rattle.py_printer.specs.ReadBack.{expr_text, PrintsBack};

use crate::expressions::expression;
use crate::laws::laws_of_printing;
use crate::pen::Pen;
use crate::slots::Slot;
use py_syntax::Expr;
use pyn_base::{Memory, Text};
use std::alloc::Global;

/// Adds the text of an expression, on one line, with brackets where its tree needs them and nowhere else, or is out of memory and
/// leaves the text as it was. Where the expression is the tree of tokens of a text, its own text has that tree again, up to lines and
/// node numbers (Language Reference, chapter 6).
pub fn print_expr(alloc: Global, expr: &Expr, to: &mut Text) -> Result<(), Memory>
    ensures text { OnOk result (to.new ≡ to.old ++ expr_text expr.now) }
    ensures unchanged { OnErr result (to.new ≡ to.old) }
    ensures back { PrintsBack expr.now }
{
    laws_of_printing();
    let mut pen = Pen::new(alloc, Text::new(alloc));
    expression(&mut pen, Slot::Conditional, expr)?;
    to.push_str(pen.text.as_str())
}
