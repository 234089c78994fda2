// A list of symbols that grows at its front.
ghost use Rattle.std.specs.Prelude.{◌≡◌, [], ◌∷◌, ◌++◌, OnOk, IfOk, MatchOption};
ghost use Rattle.py_expr.specs.Stacks.{Begins, begins_in, begins_not, begins_opened, begins_called, Strings};

use py_language::{Atom, Bracket, Symbol};
use py_syntax::CmpOp;
use pyn_base::Text;
use sqlite_items::Items;
use std::alloc::{AllocError, Global};
use std::marker::Model;

/// A list of symbols, of which a contract sees the one that was pushed last first.
#[derive(Drop)]
pub struct Stack {
    items: Items<Symbol>,
}

impl Model for Stack {
    ghost use Rattle.std.specs.Prelude.{List, reverse};
    ghost use Rattle.py_language.specs.declared.shape.Symbol.{Symbol as SymbolValue};

    ghost Value = { List SymbolValue };

    ghost view = { λ s. reverse s.items };
}

impl Stack {
    pub fn new(alloc: Global) -> Stack
        ensures { result ≡ [] }
    {
        Stack {
            items: Items::new(alloc),
        }
    }

    /// Adds a symbol at the front.
    pub fn push(&mut self, symbol: Symbol) -> Result<(), AllocError>
        ensures { OnOk result (self.new ≡ symbol ∷ self.old) }
    {
        self.items.push(symbol)
    }

    /// Takes the first symbol.
    pub fn pop(&mut self) -> Option<Symbol>
        ensures { MatchOption result ((self.old ≡ []) × (self.new ≡ [])) (λ x. self.old ≡ x ∷ self.new) }
    {
        self.items.pop()
    }

    /// The first symbol.
    pub fn first(&self) -> Option<&Symbol>
        ensures { MatchOption result (self.now ≡ []) (λ x. Begins x.now self.now) }
    {
        let (last, _before) = self.items.as_slice().split_last()?;
        Some(last)
    }

    /// Whether `in` is first.
    pub fn begins_in(&self) -> bool
        ensures { result ≡ begins_in self.now }
    {
        match self.first() {
            None => false,
            Some(symbol) => match symbol {
                Symbol::Compare(op) => *op == CmpOp::Contained,
                _ => false,
            },
        }
    }

    /// Whether `not` is first.
    pub fn begins_not(&self) -> bool
        ensures { result ≡ begins_not self.now }
    {
        match self.first() {
            None => false,
            Some(symbol) => match symbol {
                Symbol::Not => true,
                _ => false,
            },
        }
    }

    /// Whether a round bracket opens first.
    pub fn begins_opened(&self) -> bool
        ensures { result ≡ begins_opened self.now }
    {
        match self.first() {
            None => false,
            Some(symbol) => match symbol {
                Symbol::Open(bracket) => *bracket == Bracket::Round,
                _ => false,
            },
        }
    }

    /// Whether `().name(` is first.
    pub fn begins_called(&self) -> bool
        ensures { result ≡ begins_called self.now }
    {
        let Some((opens, rest)) = self.items.as_slice().split_last() else {
            return false;
        };
        let Some((closes, rest)) = rest.split_last() else {
            return false;
        };
        let Some((method, _rest)) = rest.split_last() else {
            return false;
        };
        match (opens, closes, method) {
            (Symbol::Open(Bracket::Round), Symbol::Close(Bracket::Round), Symbol::Method(_)) =>
                true,
            _ => false,
        }
    }

    /// Takes a string, if one is first.
    pub fn take_string(&mut self) -> Option<Text>
        ensures { Strings self.old self.new result }
    {
        match self.first() {
            Some(Symbol::Atom(Atom::StrLit(_))) => {}
            _ => return None,
        }
        match self.pop() {
            Some(Symbol::Atom(Atom::StrLit(text))) => Some(text),
            _ => None,
        }
    }

    /// The symbols from the first to the last.
    pub fn into_items(self, alloc: Global) -> Result<Items<Symbol>, AllocError>
        ensures { IfOk result (λ all. all ≡ self) }
    {
        let mut stack = self;
        let mut all = Items::new(alloc);
        while let Some(symbol) = stack.pop() {
            all.push(symbol)?;
        }
        Ok(all)
    }
}
