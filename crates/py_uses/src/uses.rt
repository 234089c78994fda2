// The list of what a text does with names.
ghost use Rattle.std.specs.Prelude.{◌≡◌, [], ◌++◌, OnOk};
ghost use Rattle.py_scopes.specs.Uses.{at};
ghost use Rattle.py_uses.specs.Seen.{seen};

use py_syntax::{Annotation, Line};
use pyn_base::{Memory, Name};
use std::alloc::Global;
use std::marker::Model;

/// What a text does with a name, or does where it may not.
#[derive(Clone, Copy)]
pub enum Use<'m> {
    Reads(&'m Name),
    /// By a target, a `for`, or `as`.
    Binds(&'m Name),
    /// An attribute, read or set, also as a method that is called.
    Attribute(&'m Name),
    /// `super().NAME(..)`
    Super(&'m Name),
    /// The name of a named argument.
    Argument(&'m Name),
    /// A class that a clause handles.
    Catches(&'m Name),
    /// The name of a `def`.
    Defines(&'m Name),
    /// The base of a class.
    Based(&'m Name),
    /// A name that is imported from typing.
    Imported(&'m Name),
    Annotated(&'m Annotation),
    /// A plain argument after a named one, or a name twice.
    MixedArguments,
    /// `break` or `continue` outside of a loop.
    NoLoop,
    /// `raise` alone outside of a clause.
    NoClause,
}

/// A use and its line.
#[derive(Drop)]
pub struct Used<'m> {
    line: Line,
    use_: Use<'m>,
}

impl<'m> Model for Used<'m> {
    ghost use Rattle.std.specs.Coded.{codes};
    ghost use Rattle.py_syntax.specs.contracts.stmt.Annotation as annotation;
    ghost use Rattle.py_scopes.specs.Uses.{Used as OneUse};

    ghost Value = { OneUse };

    ghost coded = { Prim.hlevel (codes, annotation.the_row.coded) };

    ghost use Rattle.py_uses.specs.Seen.{seen};

    ghost view = { λ u. record { line = u.line; use' = seen u.use_ } };
}

impl<'m> Used<'m> {
    pub fn line(&self) -> Line
        ensures { result ≡ self.now.line }
    {
        self.line
    }

    pub fn use_(&self) -> Use<'m>
        ensures { seen result ≡ self.now.use' }
    {
        self.use_
    }
}

/// Uses in the order of the text.
#[derive(Drop)]
pub struct Uses<'m> {
    alloc: Global,
    all: Vec<Used<'m>>,
}

impl<'m> Model for Uses<'m> {
    ghost use Rattle.std.specs.Prelude.{List};
    ghost use Rattle.std.specs.Coded.{codes};
    ghost use Rattle.py_syntax.specs.contracts.stmt.Annotation as annotation;
    ghost use Rattle.py_scopes.specs.Uses.{Used as OneUse};

    ghost Value = { List OneUse };

    ghost coded = { Prim.hlevel (codes, annotation.the_row.coded) };

    ghost view = { λ u. u.all.items };
}

impl<'m> Uses<'m> {
    /// An empty list.
    pub fn new(alloc: Global) -> Uses<'m>
        ensures { result ≡ [] }
    {
        Uses {
            alloc,
            all: Vec::new(alloc),
        }
    }

    pub fn as_slice(&self) -> &[Used<'m>]
        ensures { result.now ≡ self.now }
    {
        self.all.as_slice()
    }

    /// The allocator of the list.
    pub(crate) fn allocator(&self) -> Global {
        self.alloc
    }

    pub(crate) fn add(&mut self, line: Line, use_: Use<'m>) -> Result<(), Memory>
        ensures { OnOk result (self.new ≡ self.old ++ at line (seen use_.entry)) }
    {
        self.all.push(Used { line, use_ })?;
        Ok(())
    }
}
