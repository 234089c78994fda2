// Expressions as they are read: their symbols, and their shape before the nodes are numbered.

use py_syntax::{BinOp, CmpOp, Sign};
use pyn_base::{Name, PyInt, Text};
use sqlite_items::{Boxed, Items};

/// A name or a literal (Language Reference 6.2).
#[derive(Debug, Drop)]
pub enum Atom {
    NoneLit,
    BoolLit(bool),
    IntLit(PyInt),
    StrLit(Text),
    Name(Name),
}

/// The kinds of brackets: `()`, `[]` and `{}`.
#[derive(Clone, Copy, Debug, PartialEq, Eq)]
pub enum Bracket {
    Round,
    Square,
    Brace,
}

/// What the tokens of an expression are for its grammar. Some of them stand for several tokens.
#[derive(Debug, Drop)]
pub enum Symbol {
    /// Adjacent strings are one.
    Atom(Atom),
    /// `super().name`, where a round bracket opens behind it
    Super(Name),
    /// `.name`, where a round bracket opens behind it
    Method(Name),
    /// `.name` elsewhere
    Attribute(Name),
    /// `-` or `+`, before an operand or between two
    Sign(Sign),
    /// `*`, `//` or `%`
    Factor(BinOp),
    /// A comparison: `not in` and `is not` are one each.
    Compare(CmpOp),
    Or,
    And,
    Not,
    If,
    Else,
    Comma,
    Colon,
    /// `=`, as between an argument's name and its value
    Equal,
    Open(Bracket),
    Close(Bracket),
    /// Any other token: no expression has one.
    Other,
}

/// An expression without its numbers: the arguments of a call stand in their order, each with its name if it has one.
#[derive(Drop)]
pub enum Shape {
    Atom(Atom),
    ListLit(Items<Shape>),
    TupleLit(Items<Shape>),
    DictLit(Items<(Shape, Shape)>),
    Attr(Boxed<Shape>, Name),
    Index(Boxed<Shape>, Boxed<Shape>),
    Slice(Boxed<Shape>, Option<Boxed<Shape>>, Option<Boxed<Shape>>),
    Call(Boxed<Shape>, Items<(Option<Name>, Shape)>),
    Method(Boxed<Shape>, Name, Items<(Option<Name>, Shape)>),
    Super(Name, Items<(Option<Name>, Shape)>),
    Unary(Sign, Boxed<Shape>),
    Not(Boxed<Shape>),
    Binary(BinOp, Boxed<Shape>, Boxed<Shape>),
    And(Items<Shape>),
    Or(Items<Shape>),
    Compare(Boxed<Shape>, Items<(CmpOp, Shape)>),
    /// The value, the test and the other value.
    Cond(Boxed<Shape>, Boxed<Shape>, Boxed<Shape>),
}
