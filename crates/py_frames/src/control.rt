// The stack's entries, and what is done now.
use crate::{Pending, Tail};
use py_meaning::Value;
use py_plain::{Abrupt, Frame, Judged, Walk};
use py_syntax::{Clause, Expr, Stmt};
use pyn_base::{Name, NodeId};
use sqlite_items::Items;

/// What is still to be done when a part has ended.
#[derive(Drop)]
pub enum Control<'s> {
    /// What a value is waited for by; any other end is handed on.
    Then(Pending<'s>),
    /// Back to the frame of the caller.
    Leave(Frame),
    /// The other turns of a `while`.
    WhileBody(&'s Expr, &'s Items<Stmt>),
    /// The other turns of a `for`, from here on.
    ForBody(NodeId, &'s Items<Name>, bool, &'s Items<Stmt>, Walk),
    /// The clauses and the `else` block of a `try`.
    TryBody(&'s Items<Clause>, &'s Option<Items<Stmt>>),
    /// The end of a clause, which binds this name.
    ClauseBody(&'s Option<Name>),
    /// The `finally` block.
    TryLast(&'s Option<Items<Stmt>>),
    /// The end before a `finally` block.
    Keep(Result<(Value, Judged), Abrupt>),
}

/// What the machine does next.
#[derive(Drop)]
pub enum Doing<'s> {
    Eval(&'s Expr),
    Exec(&'s Stmt),
    Block(Tail<'s, Stmt>),
    Finished(Result<(Value, Judged), Abrupt>),
}
