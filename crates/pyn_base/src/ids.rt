// Numbers that name things, and lists of them.
ghost use Rattle.std.specs.Prelude.{◌≡◌, ℕ, List, [], ◌∷◌, ◌++◌, length, IfOk, OnOk, OnErr};

use crate::Memory;
use std::alloc::Global;
use std::marker::Model;

/// A node of a module, by its number in the order of reading.
#[derive(Clone, Copy, Debug, PartialEq, Eq)]
pub struct NodeId(pub u32);

/// A goal of a module.
#[derive(Clone, Copy, Debug, PartialEq, Eq)]
pub struct GoalId(pub u32);

/// A mutant of a module.
#[derive(Clone, Copy, Debug, PartialEq, Eq)]
pub struct MutantId(pub u32);

/// A function of a module, by its place in the order of their lines.
#[derive(Clone, Copy, Debug, PartialEq, Eq)]
pub struct FuncId(pub u32);

/// A test of a suite or of a journal.
#[derive(Clone, Copy, Debug, PartialEq, Eq)]
pub struct TestId(pub u32);

/// An object of a table, by its place in it.
#[derive(Clone, Copy, Debug, PartialEq, Eq)]
pub struct ObjId(pub u64);

/// A list of numbers of one kind of thing, which a contract sees as the list.
#[derive(Debug, Drop)]
pub struct Ids {
    ids: Vec<u32>,
}

impl Model for Ids {
    ghost Value = { List ℕ };

    ghost view = { λ i. i.ids.items };
}

impl Ids {
    /// No numbers. It takes no memory.
    pub fn new(alloc: Global) -> Self
        ensures { result ≡ [] }
    {
        Ids {
            ids: Vec::new(alloc),
        }
    }

    /// Adds a number at the end, or leaves what was there.
    pub fn push(&mut self, id: u32) -> Result<(), Memory>
        ensures ok { OnOk result (self.new ≡ self.old ++ id ∷ []) }
        ensures err { OnErr result (self.new ≡ self.old) }
    {
        Ok(self.ids.push(id)?)
    }

    /// How many numbers there are.
    pub fn len(&self) -> usize
        ensures { result ≡ length self.now }
    {
        self.ids.len()
    }

    /// The numbers as a slice.
    pub fn as_slice(&self) -> &[u32]
        ensures { result.now ≡ self.now }
    {
        self.ids.as_slice()
    }

    /// A copy.
    pub fn to_owned(&self, alloc: Global) -> Result<Self, Memory>
        ensures { IfOk result (λ ids. ids ≡ self.now) }
    {
        Ok(Ids {
            ids: Vec::from_slice(alloc, self.ids.as_slice())?,
        })
    }
}
