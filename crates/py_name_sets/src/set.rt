// A set of names.
ghost use Rattle.std.specs.Prelude.{◌≡◌, [], ◌∷◌, ◌++◌, IfOk, OnOk, OnErr};
ghost use Rattle.py_meaning.specs.Methods.{is_among};

use crate::map::NameMap;
use pyn_base::{Memory, Name};
use std::alloc::Global;
use std::marker::Model;

/// Names in order.
#[derive(Drop)]
pub struct NameSet<'m> {
    rows: NameMap<'m, ()>,
}

impl<'m> Model for NameSet<'m> {
    ghost use Rattle.std.specs.Prelude.{ℕ, List, map};

    ghost Value = { List (List ℕ) };

    ghost view = { λ s. map (λ row. row.0) s.rows };
}

impl<'m> NameSet<'m> {
    /// No names. It takes no memory.
    pub fn new(alloc: Global) -> NameSet<'m>
        ensures { result ≡ [] }
    {
        NameSet {
            rows: NameMap::new(alloc),
        }
    }

    /// Whether a name is there.
    pub fn has(&self, name: &Name) -> bool
        ensures { result ≡ is_among self.now name.now }
    {
        self.rows.has(name)
    }

    /// Adds a name, and tells whether it was there already.
    pub fn insert(&mut self, name: &'m Name) -> Result<bool, Memory>
        ensures added { OnOk result (self.new ≡ self.old ++ name.now ∷ []) }
        ensures was_there { IfOk result (λ was_there. was_there ≡ is_among self.old name.now) }
        ensures err { OnErr result (self.new ≡ self.old) }
    {
        self.rows.insert(name, ())
    }
}
