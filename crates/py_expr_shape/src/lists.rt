// Lists of parts: what is between commas, `and`, `or` and comparisons.
ghost use Rattle.std.specs.Prelude.{◌≡◌, true, List, Option};
ghost use Rattle.std.specs.Borrow.{Bor};
ghost use Rattle.py_language.specs.declared.shape.Symbol.{Symbol as SymbolValue};
ghost use Rattle.py_language.specs.declared.shape.Symbol.TheVariants as symbol;
ghost use Rattle.py_language.specs.Trees.{shape, comma_list, each, argument, entry};
ghost use Rattle.py_language.specs.TreesPlaces.{Conditional, Listed, at, pieces};
ghost use Rattle.py_expr_shape.specs.Cuts.{begins_anew, pieces_from, tail, Eats};
ghost use Rattle.py_expr_shape.specs.Levels.{Parts, level_of};
ghost use Rattle.py_expr_shape.specs.Reads.{Gives, Answers, AnswersEach, has, IsNamed, prepend, arguments_in, called, comparand, operands};

use crate::ExprFault;
use crate::cut::{Separator, colon_cut, cut, first, inside};
use crate::node::comparator;
use crate::operators::{Level, Reader};
use py_language::{Atom, Bracket, Shape, Symbol};
use py_syntax::CmpOp;
use pyn_base::Name;
use sqlite_items::{Boxed, Items};
use std::alloc::Global;

/// Whether a comma is outside brackets.
pub fn has_comma(symbols: &[Symbol]) -> bool
    ensures { result ≡ has (pieces (at Listed) symbols.now) }
{
    let (_item, rest) = cut(Separator::Comma, symbols);
    match first(rest) {
        None => false,
        Some(_) => true,
    }
}

/// What is after the first symbol.
fn tail(symbols: &[Symbol]) -> &[Symbol]
    ensures { result.now ≡ tail symbols.now }
{
    match first(symbols) {
        None => &[],
        Some((_symbol, others)) => others,
    }
}

/// What is after an opening round bracket, if that is in front.
fn eat_open(symbols: &[Symbol]) -> Option<&[Symbol]>
    ensures { Eats (symbol.Open Bracket.Round) symbols.now result }
{
    let (symbol, rest) = first(symbols)?;
    match symbol {
        Symbol::Open(Bracket::Round) => Some(rest),
        _ => None,
    }
}

/// What is after the `=` in front.
fn eat_equal(symbols: &[Symbol]) -> Option<&[Symbol]>
    ensures { Eats symbol.Equal symbols.now result }
{
    let (symbol, rest) = first(symbols)?;
    match symbol {
        Symbol::Equal => Some(rest),
        _ => None,
    }
}

/// The name of an argument, and what is after its `=`.
fn eat_name(symbols: &[Symbol]) -> Option<(&Name, &[Symbol])>
    ensures { IsNamed symbols.now result }
{
    let (symbol, rest) = first(symbols)?;
    match symbol {
        Symbol::Atom(Atom::Name(name)) => Some((name, eat_equal(rest)?)),
        _ => None,
    }
}

/// The items between commas; a last comma may be after them.
fn between_commas<T: Drop, G: Fn(&[Symbol]) -> Result<T, ExprFault>>(
    alloc: Global,
    symbols: &[Symbol],
    item: G,
) -> Result<Items<T>, ExprFault>
    requires { (part : Bor (List SymbolValue)) → G.pre item part }
    ensures { (f : List SymbolValue → Option T) → Answers f (G.post item) → Gives result (comma_list f symbols.now) }
{
    let mut all = Items::new(alloc);
    let mut rest = symbols;
    while let Some(_) = first(rest) {
        let (part, others) = cut(Separator::Comma, rest);
        all.push(item(part)?)?;
        rest = tail(others);
    }
    Ok(all)
}

/// The items after separators, the first of which is in front, put after those that there are.
fn after_separators<T: Drop, G: Fn(&Symbol, &[Symbol]) -> Result<T, ExprFault>>(
    begun: Items<T>,
    separator: Separator,
    symbols: &[Symbol],
    item: G,
) -> Result<Items<T>, ExprFault>
    requires callable { (symbol : Bor SymbolValue) (part : Bor (List SymbolValue)) → G.pre item symbol part }
    requires anew { begins_anew separator ≡ true }
    ensures { (f : SymbolValue × List SymbolValue → Option T) → AnswersEach f (G.post item) → Gives result (prepend begun (each f (pieces_from separator symbols.now))) }
{
    let mut all = begun;
    let mut rest = symbols;
    while let Some((symbol, after)) = first(rest) {
        let (part, others) = cut(separator, after);
        all.push(item(symbol, part)?)?;
        rest = others;
    }
    Ok(all)
}

impl<F: Fn(Global, Level, &[Symbol], usize) -> Result<Boxed<Shape>, ExprFault>> Reader<F> {
    /// A part that is put into a list.
    fn inner(&self, level: Level, symbols: &[Symbol]) -> Result<Shape, ExprFault>
        requires { Parts self.now.limit (F.pre self.now.part) (F.post self.now.part) }
        ensures { Gives result (shape self.now.limit (level_of level) symbols.now) }
    {
        Ok(self.part(level, symbols)?.into_inner())
    }

    /// Expressions with commas between them.
    pub fn expressions(&self, symbols: &[Symbol]) -> Result<Items<Shape>, ExprFault>
        requires { Parts self.now.limit (F.pre self.now.part) (F.post self.now.part) }
        ensures { Gives result (comma_list (shape self.now.limit Conditional) symbols.now) }
    {
        between_commas(
            self.alloc,
            symbols,
            |part| self.inner(Level::Conditional, part),
        )
    }

    /// The arguments of a call, up to the bracket that closes them.
    pub fn arguments(&self, symbols: &[Symbol]) -> Result<Items<(Option<Name>, Shape)>, ExprFault>
        requires { Parts self.now.limit (F.pre self.now.part) (F.post self.now.part) }
        ensures { Gives result (arguments_in (shape self.now.limit) symbols.now) }
    {
        let content = inside(Bracket::Round, symbols)?;
        between_commas(self.alloc, content, |part| self.argument(part))
    }

    /// The bracket that opens arguments, and those.
    pub fn called(&self, symbols: &[Symbol]) -> Result<Items<(Option<Name>, Shape)>, ExprFault>
        requires { Parts self.now.limit (F.pre self.now.part) (F.post self.now.part) }
        ensures { Gives result (called (shape self.now.limit) symbols.now) }
    {
        match eat_open(symbols) {
            None => Err(ExprFault::Refused),
            Some(rest) => self.arguments(rest),
        }
    }

    /// An argument, with its name if it has one.
    fn argument(&self, symbols: &[Symbol]) -> Result<(Option<Name>, Shape), ExprFault>
        requires { Parts self.now.limit (F.pre self.now.part) (F.post self.now.part) }
        ensures { Gives result (argument (shape self.now.limit) symbols.now) }
    {
        let Some((name, value)) = eat_name(symbols) else {
            return Ok((None, self.inner(Level::Conditional, symbols)?));
        };
        let name = name.to_owned(self.alloc)?;
        Ok((Some(name), self.inner(Level::Conditional, value)?))
    }

    /// The keys and values of a dict.
    pub fn entries(&self, symbols: &[Symbol]) -> Result<Items<(Shape, Shape)>, ExprFault>
        requires { Parts self.now.limit (F.pre self.now.part) (F.post self.now.part) }
        ensures { Gives result (comma_list (entry (shape self.now.limit)) symbols.now) }
    {
        between_commas(self.alloc, symbols, |part| self.entry(part))
    }

    /// A key, a colon and a value.
    fn entry(&self, symbols: &[Symbol]) -> Result<(Shape, Shape), ExprFault>
        requires { Parts self.now.limit (F.pre self.now.part) (F.post self.now.part) }
        ensures { Gives result (entry (shape self.now.limit) symbols.now) }
    {
        let Some((key, value)) = colon_cut(symbols) else {
            return Err(ExprFault::Refused);
        };
        let key = self.inner(Level::Conditional, key)?;
        Ok((key, self.inner(Level::Conditional, value)?))
    }

    /// The operands of `and` or `or`: the first one, and those after it from a separator on.
    pub fn operands(
        &self,
        level: Level,
        front: &[Symbol],
        separator: Separator,
        others: &[Symbol],
    ) -> Result<Items<Shape>, ExprFault>
        requires parts { Parts self.now.limit (F.pre self.now.part) (F.post self.now.part) }
        requires anew { begins_anew separator ≡ true }
        ensures { Gives result (operands (shape self.now.limit) (level_of level) front.now (pieces_from separator others.now)) }
    {
        let mut all = Items::new(self.alloc);
        all.push(self.inner(level, front)?)?;
        after_separators(
            all,
            separator,
            others,
            |_symbol, part| self.inner(level, part),
        )
    }

    /// A comparison, with the operand after it.
    fn comparand(&self, symbol: &Symbol, part: &[Symbol]) -> Result<(CmpOp, Shape), ExprFault>
        requires { Parts self.now.limit (F.pre self.now.part) (F.post self.now.part) }
        ensures { Gives result (comparand (shape self.now.limit) (symbol.now, part.now)) }
    {
        Ok((comparator(symbol), self.inner(Level::Sum, part)?))
    }

    /// The comparisons, each with the operand after it.
    pub fn comparands(&self, symbols: &[Symbol]) -> Result<Items<(CmpOp, Shape)>, ExprFault>
        requires { Parts self.now.limit (F.pre self.now.part) (F.post self.now.part) }
        ensures { Gives result (each (comparand (shape self.now.limit)) (pieces_from Separator.Comparison symbols.now)) }
    {
        let none = Items::new(self.alloc);
        after_separators(none, Separator::Comparison, symbols, |symbol, part| {
            self.comparand(symbol, part)
        })
    }
}
