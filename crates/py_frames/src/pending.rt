// What is still to be done with the value of a part, in five families.
use crate::Tail;
use py_meaning::{Sequence, Value};
use py_plain::{Callee, Judged};
use py_syntax::{Args, BinOp, CmpOp, Expr, Sign, Stmt, Target};
use pyn_base::{Name, NodeId, ObjId};
use sqlite_items::{Boxed, Items};

/// What a part's value is waited for by.
#[derive(Drop)]
pub enum Pending<'s> {
    Operand(Operand<'s>),
    Decision(Decision<'s>),
    Argument(Argument<'s>),
    Store(Store<'s>),
    Step(Step<'s>),
}

/// Operators, subscriptions, attributes and displays.
#[derive(Drop)]
pub enum Operand<'s> {
    /// The index of `object[index]`, whose object comes.
    Index(&'s Boxed<Expr>),
    /// The item of this object.
    ItemOf(Value),
    /// The bounds of a slice, whose object comes.
    Bounds(&'s Option<Boxed<Expr>>, &'s Option<Boxed<Expr>>),
    /// The upper bound of a slice of this object, whose lower bound comes.
    High(Value, &'s Option<Boxed<Expr>>),
    /// The slice of this object from this lower bound.
    SliceOf(Value, Value),
    Sign(Sign),
    /// The right operand.
    Right(BinOp, &'s Boxed<Expr>),
    /// The operator, whose left operand is known.
    Apply(BinOp, Value),
    Attribute(&'s Name),
    /// The other items of a list display, after those that are known.
    ListItem(Sequence<Value>, Tail<'s, Expr>),
    TuplePart(Sequence<Value>, Tail<'s, Expr>),
    /// The value of a dict display's key, which comes, and the other pairs.
    DictKey(Sequence<(Value, Value)>, &'s (Expr, Expr), Tail<'s, (Expr, Expr)>),
    DictValue(Sequence<(Value, Value)>, Value, Tail<'s, (Expr, Expr)>),
}

/// What is decided within an expression.
#[derive(Drop)]
pub enum Decision<'s> {
    Not,
    /// The other parts of `and`, after those that were judged.
    And(Items<Judged>, Tail<'s, Expr>),
    Or(Items<Judged>, Tail<'s, Expr>),
    /// The comparisons of the first operand, which comes.
    Compare(&'s Items<(CmpOp, Expr)>),
    /// The comparison of this operand with the one that comes, and those after it.
    Link(Items<Judged>, CmpOp, Value, Tail<'s, (CmpOp, Expr)>),
    /// Either value of a conditional, whose test comes.
    Choose(&'s Boxed<Expr>, &'s Boxed<Expr>),
    Chosen,
}

/// Calls.
#[derive(Drop)]
pub enum Argument<'s> {
    /// The arguments of a call, whose callee comes.
    Callee(&'s Args),
    /// The method of this name, whose receiver comes, and its arguments.
    Receiver(&'s Name, &'s Args),
    /// The other plain arguments, after those that are known, and the named ones.
    Plain(Callee, Sequence<Value>, Tail<'s, Expr>, &'s Items<(Name, Expr)>),
    /// The other named arguments; the one of this name comes.
    Named(Callee, Sequence<Value>, Sequence<(Name, Value)>, &'s Name, Tail<'s, (Name, Expr)>),
    /// The new instance, whose `__init__` has run.
    Initialized(ObjId),
}

/// Assignments, augmented assignments and deletions.
#[derive(Drop)]
pub enum Store<'s> {
    /// The targets, whether they are a tuple, of the value that comes.
    Targets(&'s Items<Target>, bool),
    /// The other targets and their values, once a target is stored to.
    Others(Tail<'s, Target>, Sequence<Value>),
    /// The attribute that gets this value, whose object comes.
    AttributeOf(&'s Name, Value),
    /// The index of what gets this value, whose object comes.
    IndexOf(&'s Expr, Value),
    /// The item of this object that gets this value, whose index comes.
    ItemAt(Value, Value),
    /// The name whose old value is known.
    AugmentName(&'s Name, BinOp, Value),
    AugmentAttributeOf(&'s Name, BinOp, &'s Expr),
    AugmentAttribute(Value, &'s Name, BinOp, Value),
    AugmentIndexOf(&'s Expr, BinOp, &'s Expr),
    AugmentItemAt(Value, BinOp, &'s Expr),
    AugmentItem(Value, Value, BinOp, Value),
    /// The index of `del object[index]`, whose object comes.
    DeleteIndex(&'s Expr),
    DeleteOf(Value),
}

/// Statements.
#[derive(Drop)]
pub enum Step<'s> {
    Bare,
    Return,
    Raise,
    /// The new exception is raised.
    RaiseMade,
    /// The other statements of a block.
    Block(Tail<'s, Stmt>),
    /// The arm of an `if`, by its test's node, and the arms after it.
    If(NodeId, &'s Items<Stmt>, Tail<'s, (Expr, Items<Stmt>)>, &'s Option<Items<Stmt>>),
    While(&'s Expr, &'s Items<Stmt>),
    For(NodeId, &'s Items<Name>, bool, &'s Items<Stmt>),
    /// The message of an `assert`, by its test's node.
    Assert(NodeId, &'s Option<Expr>),
    Message,
}
