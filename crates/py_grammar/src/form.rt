// The form of a logical line (Language Reference, chapters 7 and 8).

use py_syntax::{Annotation, Expr, Param, Stmt};
use pyn_base::Name;
use sqlite_items::Items;

/// What a logical line is. Statements, parameters and whole expressions have the line's number; a statement has node 0, and the
/// nodes of each expression are numbered from 0.
#[derive(Drop)]
pub enum Form {
    /// Small statements.
    Simple(Items<Stmt>),
    /// The header of a compound statement, with its block where that is on the header's line.
    Compound(Header, Option<Items<Stmt>>),
    /// `from __future__ import annotations`
    Future,
    /// A line that imports these names from `typing`.
    Typing(Items<Name>),
}

/// The header of a compound statement, without its colon.
#[derive(Drop)]
pub enum Header {
    If(Expr),
    Elif(Expr),
    Else,
    While(Expr),
    /// The names, whether they are a tuple, and what is walked.
    For(Items<Name>, bool, Expr),
    Try,
    /// The classes that it handles, all where none are named, and the name after `as`.
    Except(Option<Items<Name>>, Option<Name>),
    Finally,
    Def(Name, Items<Param>, Option<Annotation>),
    /// The name, and the base where one is named.
    Class(Name, Option<Name>),
}
