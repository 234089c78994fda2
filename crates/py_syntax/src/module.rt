// Modules, classes and functions (Language Reference 8.7, 8.8 and 9.2).
ghost use Rattle.std.specs.Prelude.{◌≡◌, option_copied};
ghost use Rattle.py_syntax.specs.Functions.{function_in};

use crate::{Annotation, Expr, Line, Stmt};
use pyn_base::{Name, NodeId};
use sqlite_items::Items;

#[derive(Drop)]
pub struct Module {
    pub items: Items<Item>,
    /// Whether it has `from __future__ import annotations`.
    pub future: bool,
    /// How many nodes it has: they are numbered from 0.
    pub nodes: u32,
}

/// What stands at the module's level.
#[derive(Drop)]
pub enum Item {
    Func(Func),
    Class(Class),
    /// A line that imports names from `typing`; the future line has no names.
    Import(Line, Items<Name>),
    Other(Stmt),
}

impl Item {
    /// The function that the item is, if it is one.
    pub fn function(&self) -> Option<&Func>
        ensures { option_copied result ≡ function_in self.now }
    {
        match self {
            Item::Func(func) => Some(func),
            Item::Class(_) => None,
            Item::Import(_, _) => None,
            Item::Other(_) => None,
        }
    }
}

#[derive(Drop)]
pub struct Class {
    pub name: Name,
    pub base: Option<Name>,
    pub line: Line,
    pub members: Items<Member>,
}

/// What stands in a class.
#[derive(Drop)]
pub enum Member {
    Func(Func),
    Other(Stmt),
}

#[derive(Drop)]
pub struct Func {
    pub node: NodeId,
    pub name: Name,
    /// The line of its `def`.
    pub line: Line,
    pub params: Items<Param>,
    pub returns: Option<Annotation>,
    pub body: Items<Stmt>,
}

#[derive(Drop)]
pub struct Param {
    pub name: Name,
    pub annotation: Option<Annotation>,
    pub default: Option<Expr>,
    pub line: Line,
}
