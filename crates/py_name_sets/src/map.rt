// A map from names to values.
ghost use Rattle.std.specs.Prelude.{◌≡◌, [], ◌∷◌, ◌++◌, is_some, IfOk, OnOk, OnErr};
ghost use Rattle.py_meaning.specs.Methods.{named};

use pyn_base::{Memory, Name};
use std::alloc::Global;
use std::collections::BTreeMap;
use std::marker::Model;

/// Names with a value for each, in order. A name has the value that it came with first.
#[derive(Drop)]
pub struct NameMap<'m, V> {
    rows: Vec<(&'m Name, V)>,
    first: BTreeMap<&'m str, V>,
}

impl<'m, V> Model for NameMap<'m, V> {
    ghost use Rattle.std.specs.Prelude.{ℕ, List, map};
    ghost use Rattle.std.specs.Coded.{coded_list, coded_ℕ, coded×};
    ghost use Rattle.py_name_sets.specs.Agrees.{Agrees};

    ghost Value = { List (List ℕ × V) };

    ghost coded = { coded_list (coded× (coded_list coded_ℕ) V.code) };

    ghost view = { λ m. map (λ row. (row.0.now, row.1)) m.rows.items };

    ghost invariant = { λ m. Agrees m.first (map (λ row. (row.0.now, row.1)) m.rows.items) };
}

impl<'m, V: Copy> NameMap<'m, V> {
    /// No names. It takes no memory.
    pub fn new(alloc: Global) -> NameMap<'m, V>
        ensures { result ≡ [] }
    {
        NameMap {
            rows: Vec::new(alloc),
            first: BTreeMap::new(alloc),
        }
    }

    /// The value with which a name came first.
    pub fn get(&self, name: &Name) -> Option<V>
        ensures { result ≡ named self.now name.now }
    {
        self.first.get(name.as_str()).copied()
    }

    /// Whether a name is there.
    pub fn has(&self, name: &Name) -> bool
        ensures { result ≡ is_some (named self.now name.now) }
    {
        self.first.contains_key(name.as_str())
    }

    /// Adds a name with a value, and tells whether the name was there already, which keeps its first value.
    pub fn insert(&mut self, name: &'m Name, value: V) -> Result<bool, Memory>
        ensures added { OnOk result (self.new ≡ self.old ++ (name.now, value) ∷ []) }
        ensures was_there { IfOk result (λ was_there. was_there ≡ is_some (named self.old name.now)) }
        ensures err { OnErr result (self.new ≡ self.old) }
    {
        let key = name.as_str();
        let was_there = self.first.contains_key(key);
        let len = self.rows.len();
        self.rows.push((name, value))?;
        if !was_there {
            match self.first.insert(key, value) {
                Ok(_) => {}
                Err(_) => {
                    self.rows.truncate(len);
                    return Err(Memory);
                }
            }
        }
        Ok(was_there)
    }
}
