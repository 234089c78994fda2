// Writing an expression at a place of a statement.
ghost use Rattle.std.specs.Prelude.{◌≡◌, OnOk};
ghost use Rattle.py_language.specs.TreesPlaces.{Listed, Conditional, Postfix};
ghost use Rattle.py_printing.specs.Expressions.{expr_tokens};
ghost use Rattle.py_printer.specs.Style.{write};

use crate::expressions::expression;
use crate::pen::Pen;
use crate::slots::Slot;
use py_syntax::Expr;
use pyn_base::Memory;

impl Pen {
    /// Adds an expression where several may be, so that a tuple needs no brackets.
    #[tactic(auto, unfolding(crate::specs::Expressions::draw))]
    pub fn listed(&mut self, x: &Expr) -> Result<(), Memory>
        ensures { OnOk result (self.new ≡ write self.old (expr_tokens Listed x.now)) }
    {
        expression(self, Slot::Listed, x)
    }

    /// Adds one expression.
    #[tactic(auto, unfolding(crate::specs::Expressions::draw))]
    pub fn conditional(&mut self, x: &Expr) -> Result<(), Memory>
        ensures { OnOk result (self.new ≡ write self.old (expr_tokens Conditional x.now)) }
    {
        expression(self, Slot::Conditional, x)
    }

    /// Adds an expression before a dot or a bracket.
    #[tactic(auto, unfolding(crate::specs::Expressions::draw))]
    pub fn postfix(&mut self, x: &Expr) -> Result<(), Memory>
        ensures { OnOk result (self.new ≡ write self.old (expr_tokens Postfix x.now)) }
    {
        expression(self, Slot::Postfix, x)
    }
}
