// Operators, by the names of the Language Reference's grammar.

/// A binary arithmetic operator (Language Reference 6.7).
#[derive(Clone, Copy, Debug, PartialEq, Eq)]
pub enum BinOp {
    Add,
    Sub,
    Mul,
    FloorDiv,
    Mod,
}

/// A comparison (Language Reference 6.10).
#[derive(Clone, Copy, Debug, PartialEq, Eq)]
pub enum CmpOp {
    Lt,
    Gt,
    Eq,
    Ge,
    Le,
    Ne,
    /// `in`
    Contained,
    /// `not in`
    NotContained,
    /// `is`
    Same,
    /// `is not`
    NotSame,
}

/// A sign before an operand (Language Reference 6.6).
#[derive(Clone, Copy, Debug, PartialEq, Eq)]
pub enum Sign {
    Minus,
    Plus,
}
