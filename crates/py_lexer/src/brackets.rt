// The brackets that are open.
ghost use Rattle.std.specs.Prelude.{◌≡◌, ◌<◌, [], ◌∷◌, length, OnOk, MatchOption};

use pyn_base::Memory;
use sqlite_items::Items;
use std::alloc::Global;
use std::marker::Model;

/// The lines and the characters of the brackets that are open, which a contract sees with the innermost first.
#[derive(Debug, Drop)]
pub struct Brackets {
    open: Items<(u64, u8)>,
}

impl Model for Brackets {
    ghost use Rattle.std.specs.Prelude.{ℕ, List, reverse};

    ghost Value = { List (ℕ × ℕ) };

    ghost view = { λ b. reverse b.open };
}

impl Brackets {
    pub fn new(alloc: Global) -> Self
        ensures { result ≡ [] }
    {
        Brackets {
            open: Items::new(alloc),
        }
    }

    pub fn len(&self) -> usize
        ensures { result ≡ length self.now }
    {
        self.open.len()
    }

    pub fn push(&mut self, line: u64, bracket: u8) -> Result<(), Memory>
        ensures { OnOk result (self.new ≡ (line, bracket) ∷ self.old) }
    {
        Ok(self.open.push((line, bracket))?)
    }

    /// Takes the innermost.
    pub fn pop(&mut self) -> Option<(u64, u8)>
        ensures { MatchOption result ((self.old ≡ []) × (self.new ≡ [])) (λ last. self.old ≡ last ∷ self.new) }
    {
        self.open.pop()
    }
}
