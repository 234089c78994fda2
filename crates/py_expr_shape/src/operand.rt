// Operands: names, literals and brackets, and the groups after them (Language Reference, 6.2 and 6.3).
ghost use Rattle.std.specs.Prelude.{Some};
ghost use Rattle.py_language.specs.declared.shape.Symbol.TheVariants as symbol;
ghost use Rattle.py_language.specs.Trees.{shape, rounded, group, bound, subscript, postfix};
ghost use Rattle.py_language.specs.Trees.{atom as atom_of};
ghost use Rattle.py_language.specs.declared.shape.Shape.TheVariants as e;
ghost use Rattle.py_expr_shape.specs.Levels.{Parts};
ghost use Rattle.py_expr_shape.specs.Reads.{Gives, on, display};

use crate::ExprFault;
use crate::cut::{Separator, colon_cut, first, inside, last_cut};
use crate::lists::has_comma;
use crate::node::{copied, node};
use crate::operators::{Level, Reader};
use py_language::{Atom, Bracket, Shape, Symbol};
use pyn_base::Name;
use sqlite_items::{Boxed, Items};
use std::alloc::Global;

impl<F: Fn(Global, Level, &[Symbol], usize) -> Result<Boxed<Shape>, ExprFault>> Reader<F> {
    /// An operand with groups after it.
    #[tactic(auto, unfolding(py_language::specs::Trees::postfix))]
    pub fn postfix(&self, symbols: &[Symbol]) -> Result<Boxed<Shape>, ExprFault>
        requires { Parts self.now.limit (F.pre self.now.part) (F.post self.now.part) }
        ensures { Gives result (postfix (shape self.now.limit) symbols.now) }
    {
        match last_cut(Separator::Group, symbols) {
            None => self.atom(symbols),
            Some((object, symbol, group)) => {
                let object = self.part(Level::Postfix, object)?;
                self.group(object, symbol, group)
            }
        }
    }

    /// What a group, by its first symbol and the others, makes of the object before it.
    fn group(
        &self,
        object: Boxed<Shape>,
        symbol: &Symbol,
        symbols: &[Symbol],
    ) -> Result<Boxed<Shape>, ExprFault>
        requires { Parts self.now.limit (F.pre self.now.part) (F.post self.now.part) }
        ensures { Gives result (on object (group (shape self.now.limit) symbol.now symbols.now)) }
    {
        match symbol {
            Symbol::Attribute(name) => self.attribute(object, name, symbols),
            Symbol::Method(name) => {
                let args = self.called(symbols)?;
                let name = name.to_owned(self.alloc)?;
                Ok(node(self.alloc, Shape::Method(object, name, args))?)
            }
            Symbol::Open(Bracket::Round) => {
                let args = self.arguments(symbols)?;
                Ok(node(self.alloc, Shape::Call(object, args))?)
            }
            Symbol::Open(Bracket::Square) => {
                let content = inside(Bracket::Square, symbols)?;
                self.subscript(object, content)
            }
            _ => Err(ExprFault::Refused),
        }
    }

    /// A name after a dot.
    fn attribute(
        &self,
        object: Boxed<Shape>,
        name: &Name,
        symbols: &[Symbol],
    ) -> Result<Boxed<Shape>, ExprFault>
        ensures { Gives result (on object (group (shape self.now.limit) (symbol.Attribute name.now) symbols.now)) }
    {
        if let Some(_) = first(symbols) {
            return Err(ExprFault::Refused);
        }
        let name = name.to_owned(self.alloc)?;
        Ok(node(self.alloc, Shape::Attr(object, name))?)
    }

    /// The index of an object, or the bounds of a slice.
    fn subscript(&self, object: Boxed<Shape>, symbols: &[Symbol]) -> Result<Boxed<Shape>, ExprFault>
        requires { Parts self.now.limit (F.pre self.now.part) (F.post self.now.part) }
        ensures { Gives result (on object (subscript (shape self.now.limit) symbols.now)) }
    {
        let Some((low, high)) = colon_cut(symbols) else {
            let index = self.part(Level::Listed, symbols)?;
            return Ok(node(self.alloc, Shape::Index(object, index))?);
        };
        let low = self.bound(low)?;
        let high = self.bound(high)?;
        Ok(node(self.alloc, Shape::Slice(object, low, high))?)
    }

    fn bound(&self, symbols: &[Symbol]) -> Result<Option<Boxed<Shape>>, ExprFault>
        requires { Parts self.now.limit (F.pre self.now.part) (F.post self.now.part) }
        ensures { Gives result (bound (shape self.now.limit) symbols.now) }
    {
        let Some(_) = first(symbols) else {
            return Ok(None);
        };
        Ok(Some(self.part(Level::Conditional, symbols)?))
    }

    /// A name, a literal or what is in brackets.
    fn atom(&self, symbols: &[Symbol]) -> Result<Boxed<Shape>, ExprFault>
        requires { Parts self.now.limit (F.pre self.now.part) (F.post self.now.part) }
        ensures { Gives result (atom_of (shape self.now.limit) symbols.now) }
    {
        let Some((symbol, rest)) = first(symbols) else {
            return Err(ExprFault::Refused);
        };
        match symbol {
            Symbol::Atom(atom) => match first(rest) {
                None => self.leaf(atom),
                Some(_) => Err(ExprFault::Refused),
            },
            Symbol::Super(name) => {
                let args = self.called(rest)?;
                let name = name.to_owned(self.alloc)?;
                Ok(node(self.alloc, Shape::Super(name, args))?)
            }
            Symbol::Open(bracket) => {
                let content = inside(*bracket, rest)?;
                self.display(*bracket, content)
            }
            _ => Err(ExprFault::Refused),
        }
    }

    /// A name or a literal.
    pub fn leaf(&self, atom: &Atom) -> Result<Boxed<Shape>, ExprFault>
        ensures { Gives result (Some (e.Atom atom.now)) }
    {
        let atom = copied(self.alloc, atom)?;
        Ok(node(self.alloc, Shape::Atom(atom))?)
    }

    /// What brackets make of the symbols in them.
    fn display(&self, bracket: Bracket, symbols: &[Symbol]) -> Result<Boxed<Shape>, ExprFault>
        requires { Parts self.now.limit (F.pre self.now.part) (F.post self.now.part) }
        ensures { Gives result (display (shape self.now.limit) bracket symbols.now) }
    {
        match bracket {
            Bracket::Round => self.parenthesized(symbols),
            Bracket::Square => {
                let all = self.expressions(symbols)?;
                Ok(node(self.alloc, Shape::ListLit(all))?)
            }
            Bracket::Brace => {
                let all = self.entries(symbols)?;
                Ok(node(self.alloc, Shape::DictLit(all))?)
            }
        }
    }

    /// What is in round brackets, which are a tuple's own.
    fn parenthesized(&self, symbols: &[Symbol]) -> Result<Boxed<Shape>, ExprFault>
        requires { Parts self.now.limit (F.pre self.now.part) (F.post self.now.part) }
        ensures { Gives result (rounded (shape self.now.limit) symbols.now) }
    {
        let Some(_) = first(symbols) else {
            return Ok(node(self.alloc, Shape::TupleLit(Items::new(self.alloc)))?);
        };
        if has_comma(symbols) {
            let all = self.expressions(symbols)?;
            return Ok(node(self.alloc, Shape::TupleLit(all))?);
        }
        self.part(Level::Conditional, symbols)
    }
}
