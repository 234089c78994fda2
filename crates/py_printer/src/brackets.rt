// The brackets that are open.
ghost use Rattle.std.specs.Prelude.{◌≡◌, List, [], ◌∷◌, drop, reverse, OnOk};
ghost use Rattle.py_printer.specs.declared.kinds.Opened.{Opened};
ghost use Rattle.py_printer.specs.Spaces.{is_in_call, is_in_square, is_annotated, annotated, next_parameter};

use crate::kinds::Opened;
use pyn_base::Memory;
use std::alloc::Global;
use std::marker::Model;

/// The brackets that are open. A contract sees them as a list, the innermost first.
#[derive(Drop)]
pub struct Brackets {
    items: Vec<Opened>,
}

impl Model for Brackets {
    ghost use Rattle.std.specs.Prelude.{List, reverse};
    ghost use Rattle.py_printer.specs.declared.kinds.Opened.{Opened};

    ghost Value = { List Opened };

    ghost view = { λ b. reverse b.items.items };
}

impl Brackets {
    /// None is open.
    pub fn new(alloc: Global) -> Self
        ensures { result ≡ [] }
    {
        Brackets {
            items: Vec::new(alloc),
        }
    }

    /// One more is open.
    pub fn open(&mut self, bracket: Opened) -> Result<(), Memory>
        ensures { OnOk result (self.new ≡ bracket ∷ self.old) }
    {
        Ok(self.items.push(bracket)?)
    }

    /// The innermost is closed, if there is one.
    pub fn close(&mut self)
        ensures { self.new ≡ drop 1 self.old }
    {
        let _ = self.items.pop();
    }

    /// Whether the innermost is round, without an annotation before.
    pub fn is_in_call(&self) -> bool
        ensures { result ≡ is_in_call self.now }
    {
        match self.items.last() {
            Some(Opened::Round) => true,
            _ => false,
        }
    }

    /// Whether the innermost is square.
    pub fn is_in_square(&self) -> bool
        ensures { result ≡ is_in_square self.now }
    {
        match self.items.last() {
            Some(Opened::Square) => true,
            _ => false,
        }
    }

    /// Whether the innermost is round, with an annotation before.
    pub fn is_annotated(&self) -> bool
        ensures { result ≡ is_annotated self.now }
    {
        match self.items.last() {
            Some(Opened::Annotated) => true,
            _ => false,
        }
    }

    /// An annotation begins here, if the innermost is round.
    pub fn annotate(&mut self) -> Result<(), Memory>
        ensures { OnOk result (self.new ≡ annotated self.old) }
    {
        if self.is_in_call() {
            self.close();
            self.open(Opened::Annotated)?;
        }
        Ok(())
    }

    /// The next parameter begins here, if the innermost holds one with an annotation.
    pub fn next_parameter(&mut self) -> Result<(), Memory>
        ensures { OnOk result (self.new ≡ next_parameter self.old) }
    {
        if self.is_annotated() {
            self.close();
            self.open(Opened::Round)?;
        }
        Ok(())
    }
}
