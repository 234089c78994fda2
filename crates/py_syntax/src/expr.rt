// Expressions (Language Reference, chapter 6).

use crate::{BinOp, CmpOp, Line, Sign};
use pyn_base::{Name, NodeId, PyInt, Text};
use sqlite_items::{Boxed, Items};

/// An expression, with the number of its node and the line on which its logical line begins.
#[cycle(expr)]
#[derive(Drop)]
pub struct Expr {
    pub node: NodeId,
    pub line: Line,
    pub kind: ExprKind,
}

#[cycle(expr)]
#[derive(Drop)]
pub enum ExprKind {
    NoneLit,
    BoolLit(bool),
    IntLit(PyInt),
    /// Adjacent strings are one.
    StrLit(Text),
    Name(Name),
    ListLit(Items<Expr>),
    TupleLit(Items<Expr>),
    DictLit(Items<(Expr, Expr)>),
    /// `object.name`, where no call follows
    Attr(Boxed<Expr>, Name),
    /// `object[index]`
    Index(Boxed<Expr>, Boxed<Expr>),
    /// `object[low:high]`
    Slice(Boxed<Expr>, Option<Boxed<Expr>>, Option<Boxed<Expr>>),
    Call(Boxed<Expr>, Args),
    /// `object.name(args)`
    Method(Boxed<Expr>, Name, Args),
    /// `super().name(args)`
    Super(Name, Args),
    Unary(Sign, Boxed<Expr>),
    Not(Boxed<Expr>),
    Binary(BinOp, Boxed<Expr>, Boxed<Expr>),
    And(Items<Expr>),
    Or(Items<Expr>),
    /// The first operand, and each comparison with the operand behind it.
    Compare(Boxed<Expr>, Items<(CmpOp, Expr)>),
    /// The value, the test and the other value.
    Cond(Boxed<Expr>, Boxed<Expr>, Boxed<Expr>),
}

/// The arguments of a call.
#[cycle(expr)]
#[derive(Drop)]
pub struct Args {
    pub plain: Items<Expr>,
    pub named: Items<(Name, Expr)>,
}
