// Statements (Language Reference, chapters 7 and 8) and annotations.

use crate::{BinOp, Expr, Line};
use pyn_base::{Name, NodeId};
use sqlite_items::{Boxed, Items};

/// An annotation of a parameter, a result or an assignment.
#[derive(Drop)]
pub enum Annotation {
    /// A name, with the parts in its brackets.
    Named(Name, Items<Annotation>),
    /// `None`
    NoneType,
    /// `annotation | None`
    OrNone(Boxed<Annotation>),
    /// An annotation in a string.
    Quoted(Boxed<Annotation>),
}

/// What an assignment binds or stores to.
#[derive(Drop)]
pub enum Target {
    Name(Name),
    Attr(Expr, Name),
    Index(Expr, Expr),
}

/// A statement, with the number of its node and the line on which it begins.
#[cycle(stmt)]
#[derive(Drop)]
pub struct Stmt {
    pub node: NodeId,
    pub line: Line,
    pub kind: StmtKind,
}

#[cycle(stmt)]
#[derive(Drop)]
pub enum StmtKind {
    Pass,
    Break,
    Continue,
    Return(Option<Expr>),
    Raise(Option<Expr>),
    /// The test and the message.
    Assert(Expr, Option<Expr>),
    /// `del object[index]`
    Del(Expr, Expr),
    /// The targets, whether they are a tuple, the annotation and the value.
    Assign(Items<Target>, bool, Option<Annotation>, Expr),
    Augment(Target, BinOp, Expr),
    /// An expression alone.
    Bare(Expr),
    /// Each test with its block, and the `else` block.
    If(Items<(Expr, Items<Stmt>)>, Option<Items<Stmt>>),
    While(Expr, Items<Stmt>),
    /// The names, whether they are a tuple, what is walked, and the block.
    For(Items<Name>, bool, Expr, Items<Stmt>),
    /// The body, the clauses, the `else` block and the `finally` block.
    Try(Items<Stmt>, Items<Clause>, Option<Items<Stmt>>, Option<Items<Stmt>>),
}

/// An `except` clause.
#[cycle(stmt)]
#[derive(Drop)]
pub struct Clause {
    pub node: NodeId,
    pub line: Line,
    /// The classes that it handles; all, where none are named.
    pub classes: Option<Items<Name>>,
    /// The name after `as`.
    pub name: Option<Name>,
    pub body: Items<Stmt>,
}
