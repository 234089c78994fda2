// The rules of operators, from the loosest to the tightest (Language Reference, 6.5 to 6.16).
ghost use Rattle.std.specs.Prelude.{◌≡◌, ◌∷◌, [], true, IfSome};
ghost use Rattle.py_language.specs.declared.shape.Symbol.TheVariants as symbol;
ghost use Rattle.py_language.specs.Trees.{shape, at_level, listed, conditional, otherwise, disjunction, conjunction, negation, comparison, sum, product, binary, signed};
ghost use Rattle.py_language.specs.TreesPlaces.{Disjunction, front, back, below};
ghost use Rattle.py_expr_shape.specs.Cuts.{Eats, EatsSign, IsPrimary};
ghost use Rattle.py_expr_shape.specs.Levels.{Parts, level_of};
ghost use Rattle.py_expr_shape.specs.Reads.{Gives};

use crate::ExprFault;
use crate::cut::{Separator, cut, first, last_cut};
use crate::lists::has_comma;
use crate::node::{node, operator};
use py_language::{Atom, Shape, Symbol};
use py_syntax::Sign;
use sqlite_items::Boxed;
use std::alloc::Global;

/// What is after `if`, if that is in front.
fn eat_if(symbols: &[Symbol]) -> Option<&[Symbol]>
    ensures { Eats symbol.If symbols.now result }
{
    let (symbol, rest) = first(symbols)?;
    match symbol {
        Symbol::If => Some(rest),
        _ => None,
    }
}

/// What is after `else`, if that is in front.
fn eat_else(symbols: &[Symbol]) -> Option<&[Symbol]>
    ensures { Eats symbol.Else symbols.now result }
{
    let (symbol, rest) = first(symbols)?;
    match symbol {
        Symbol::Else => Some(rest),
        _ => None,
    }
}

/// What is after `not`, if that is in front.
fn eat_not(symbols: &[Symbol]) -> Option<&[Symbol]>
    ensures { Eats symbol.Not symbols.now result }
{
    let (symbol, rest) = first(symbols)?;
    match symbol {
        Symbol::Not => Some(rest),
        _ => None,
    }
}

/// A sign in front, and what is after it.
fn eat_sign(symbols: &[Symbol]) -> Option<(Sign, &[Symbol])>
    ensures { EatsSign symbols.now result }
{
    let (symbol, rest) = first(symbols)?;
    match symbol {
        Symbol::Sign(sign) => Some((*sign, rest)),
        _ => None,
    }
}

/// A name or a literal that is alone.
fn lone_atom(symbols: &[Symbol]) -> Option<&Atom>
    ensures { IfSome result (λ atom. symbols.now ≡ symbol.Atom atom.now ∷ []) }
{
    let (symbol, rest) = first(symbols)?;
    match (symbol, first(rest)) {
        (Symbol::Atom(atom), None) => Some(atom),
        _ => None,
    }
}

/// Whether no operator is outside brackets.
fn is_primary(symbols: &[Symbol]) -> bool
    ensures { result ≡ true → IsPrimary symbols.now }
{
    let None = eat_not(symbols) else {
        return false;
    };
    let None = eat_sign(symbols) else {
        return false;
    };
    let (_primary, rest) = cut(Separator::Operator, symbols);
    match first(rest) {
        None => true,
        Some(_) => false,
    }
}

/// The rules that a part of an expression may be read by.
#[derive(Clone, Copy)]
pub enum Level {
    Listed,
    Conditional,
    Disjunction,
    Conjunction,
    Negation,
    Sum,
    Product,
    Signed,
    Postfix,
}

/// Reads expressions whose parts are no deeper than the limit.
#[derive(Clone, Copy)]
pub struct Reader<F> {
    pub alloc: Global,
    pub limit: usize,
    /// Reads a part.
    pub part: F,
}

impl<F: Fn(Global, Level, &[Symbol], usize) -> Result<Boxed<Shape>, ExprFault>> Reader<F> {
    /// A part, which is one less deep.
    pub fn part(&self, level: Level, symbols: &[Symbol]) -> Result<Boxed<Shape>, ExprFault>
        requires { Parts self.now.limit (F.pre self.now.part) (F.post self.now.part) }
        ensures { Gives result (shape self.now.limit (level_of level) symbols.now) }
    {
        (self.part)(self.alloc, level, symbols, self.limit)
    }

    /// An expression of the level. A name or a literal that is alone, and all that has no operator outside brackets, is the
    /// same at each level, so that most parts are cut once.
    pub fn at_level(&self, level: Level, symbols: &[Symbol]) -> Result<Boxed<Shape>, ExprFault>
        requires { Parts self.now.limit (F.pre self.now.part) (F.post self.now.part) }
        ensures { Gives result (at_level (shape self.now.limit) (level_of level) symbols.now) }
    {
        if let Some(atom) = lone_atom(symbols) {
            return self.leaf(atom);
        }
        if is_primary(symbols) {
            return self.postfix(symbols);
        }
        match level {
            Level::Listed => self.listed(symbols),
            Level::Conditional => self.conditional(symbols),
            Level::Disjunction => self.disjunction(symbols),
            Level::Conjunction => self.conjunction(symbols),
            Level::Negation => self.negation(symbols),
            Level::Sum => self.sum(symbols),
            Level::Product => self.product(symbols),
            Level::Signed => self.signed(symbols),
            Level::Postfix => self.postfix(symbols),
        }
    }

    /// Expressions with commas between them, or one expression.
    #[tactic(auto, unfolding(py_language::specs::Trees::listed))]
    fn listed(&self, symbols: &[Symbol]) -> Result<Boxed<Shape>, ExprFault>
        requires { Parts self.now.limit (F.pre self.now.part) (F.post self.now.part) }
        ensures { Gives result (listed (shape self.now.limit) symbols.now) }
    {
        if has_comma(symbols) {
            let all = self.expressions(symbols)?;
            return Ok(node(self.alloc, Shape::TupleLit(all))?);
        }
        self.conditional(symbols)
    }

    #[tactic(auto, unfolding(py_language::specs::Trees::conditional))]
    fn conditional(&self, symbols: &[Symbol]) -> Result<Boxed<Shape>, ExprFault>
        requires { Parts self.now.limit (F.pre self.now.part) (F.post self.now.part) }
        ensures { Gives result (conditional (shape self.now.limit) symbols.now) }
    {
        let (value, rest) = cut(Separator::Conditional, symbols);
        let Some(_) = first(rest) else {
            return self.disjunction(symbols);
        };
        match eat_if(rest) {
            None => Err(ExprFault::Refused),
            Some(after) => self.test_and_other(value, after),
        }
    }

    /// The value of a conditional, and what is after its `if`.
    fn test_and_other(
        &self,
        value: &[Symbol],
        symbols: &[Symbol],
    ) -> Result<Boxed<Shape>, ExprFault>
        requires { Parts self.now.limit (F.pre self.now.part) (F.post self.now.part) }
        ensures { Gives result (otherwise (shape self.now.limit) value.now (front (below Disjunction) symbols.now) (back (below Disjunction) symbols.now)) }
    {
        let (test, rest) = cut(Separator::Conditional, symbols);
        let Some(after) = eat_else(rest) else {
            return Err(ExprFault::Refused);
        };
        let value = self.part(Level::Disjunction, value)?;
        let test = self.part(Level::Disjunction, test)?;
        let other = self.part(Level::Conditional, after)?;
        Ok(node(self.alloc, Shape::Cond(value, test, other))?)
    }

    #[tactic(auto, unfolding(py_language::specs::Trees::disjunction))]
    fn disjunction(&self, symbols: &[Symbol]) -> Result<Boxed<Shape>, ExprFault>
        requires { Parts self.now.limit (F.pre self.now.part) (F.post self.now.part) }
        ensures { Gives result (disjunction (shape self.now.limit) symbols.now) }
    {
        let (front, rest) = cut(Separator::Or, symbols);
        let Some(_) = first(rest) else {
            return self.conjunction(symbols);
        };
        let all = self.operands(Level::Conjunction, front, Separator::Or, rest)?;
        Ok(node(self.alloc, Shape::Or(all))?)
    }

    #[tactic(auto, unfolding(py_language::specs::Trees::conjunction))]
    fn conjunction(&self, symbols: &[Symbol]) -> Result<Boxed<Shape>, ExprFault>
        requires { Parts self.now.limit (F.pre self.now.part) (F.post self.now.part) }
        ensures { Gives result (conjunction (shape self.now.limit) symbols.now) }
    {
        let (front, rest) = cut(Separator::And, symbols);
        let Some(_) = first(rest) else {
            return self.negation(symbols);
        };
        let all = self.operands(Level::Negation, front, Separator::And, rest)?;
        Ok(node(self.alloc, Shape::And(all))?)
    }

    #[tactic(auto, unfolding(py_language::specs::Trees::negation))]
    fn negation(&self, symbols: &[Symbol]) -> Result<Boxed<Shape>, ExprFault>
        requires { Parts self.now.limit (F.pre self.now.part) (F.post self.now.part) }
        ensures { Gives result (negation (shape self.now.limit) symbols.now) }
    {
        let Some(after) = eat_not(symbols) else {
            return self.comparison(symbols);
        };
        let operand = self.part(Level::Negation, after)?;
        Ok(node(self.alloc, Shape::Not(operand))?)
    }

    #[tactic(auto, unfolding(py_language::specs::Trees::comparison))]
    fn comparison(&self, symbols: &[Symbol]) -> Result<Boxed<Shape>, ExprFault>
        requires { Parts self.now.limit (F.pre self.now.part) (F.post self.now.part) }
        ensures { Gives result (comparison (shape self.now.limit) symbols.now) }
    {
        let (front, rest) = cut(Separator::Comparison, symbols);
        let Some(_) = first(rest) else {
            return self.sum(symbols);
        };
        let left = self.part(Level::Sum, front)?;
        let others = self.comparands(rest)?;
        Ok(node(self.alloc, Shape::Compare(left, others))?)
    }

    #[tactic(auto, unfolding(py_language::specs::Trees::sum))]
    fn sum(&self, symbols: &[Symbol]) -> Result<Boxed<Shape>, ExprFault>
        requires { Parts self.now.limit (F.pre self.now.part) (F.post self.now.part) }
        ensures { Gives result (sum (shape self.now.limit) symbols.now) }
    {
        match last_cut(Separator::Sign, symbols) {
            None => self.product(symbols),
            Some((left, symbol, right)) => {
                let left = self.part(Level::Sum, left)?;
                self.binary(left, symbol, Level::Product, right)
            }
        }
    }

    #[tactic(auto, unfolding(py_language::specs::Trees::product))]
    fn product(&self, symbols: &[Symbol]) -> Result<Boxed<Shape>, ExprFault>
        requires { Parts self.now.limit (F.pre self.now.part) (F.post self.now.part) }
        ensures { Gives result (product (shape self.now.limit) symbols.now) }
    {
        match last_cut(Separator::Factor, symbols) {
            None => self.signed(symbols),
            Some((left, symbol, right)) => {
                let left = self.part(Level::Product, left)?;
                self.binary(left, symbol, Level::Signed, right)
            }
        }
    }

    /// An operator between two operands.
    fn binary(
        &self,
        left: Boxed<Shape>,
        symbol: &Symbol,
        level: Level,
        right: &[Symbol],
    ) -> Result<Boxed<Shape>, ExprFault>
        requires { Parts self.now.limit (F.pre self.now.part) (F.post self.now.part) }
        ensures { Gives result (binary (shape self.now.limit) (level_of level) left symbol.now right.now) }
    {
        let right = self.part(level, right)?;
        Ok(node(self.alloc, Shape::Binary(operator(symbol), left, right))?)
    }

    #[tactic(auto, unfolding(py_language::specs::Trees::signed))]
    fn signed(&self, symbols: &[Symbol]) -> Result<Boxed<Shape>, ExprFault>
        requires { Parts self.now.limit (F.pre self.now.part) (F.post self.now.part) }
        ensures { Gives result (signed (shape self.now.limit) symbols.now) }
    {
        let Some((sign, after)) = eat_sign(symbols) else {
            return self.postfix(symbols);
        };
        let operand = self.part(Level::Signed, after)?;
        Ok(node(self.alloc, Shape::Unary(sign, operand))?)
    }
}
