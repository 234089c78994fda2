// What a line of a test is, as it is spelled: nothing is looked up yet.

use pyn_base::{Ids, Name};
use sqlite_items::Items;
use suite_model::{Primitive, Shown, Subject};

/// What a step makes.
#[derive(Drop)]
pub enum Right {
    Prim(Primitive),
    ListOf(Ids),
    DictOf(Items<(u32, u32)>),
    /// `module_0.NAME(..)`
    OfModule(Name, Ids),
    /// `var_0.NAME(..)`
    Method(u32, Name, Ids),
}

/// A class.
#[derive(Drop)]
pub enum Named {
    Bare(Name),
    /// `module_0.NAME`
    OfModule(Name),
}

/// What an assertion asks.
#[derive(Drop)]
pub enum Asked {
    Is(Primitive),
    Equals(Shown),
    Kind(Named),
}

/// A statement of a test.
#[derive(Drop)]
pub enum Spelled {
    /// The number of the variable that is assigned, and what.
    Assigns(u32, Right),
    Asserts(Subject, Asked),
}
