// Tokens and logical lines (Language Reference, chapter 2).

use py_syntax::Line;
use pyn_base::{Construct, Name, PyInt, Text};
use sqlite_items::Items;

/// A token of a logical line.
#[derive(Debug, Drop)]
pub enum Token {
    Name(Name),
    Keyword(Keyword),
    Int(PyInt),
    Str(Text),
    Mark(Mark),
}

/// The keywords (Language Reference 2.3.1). Those that are values are named as their literals.
#[derive(Clone, Copy, Debug, PartialEq, Eq)]
pub enum Keyword {
    FalseLit,
    NoneLit,
    TrueLit,
    And,
    As,
    Assert,
    Async,
    Await,
    Break,
    Class,
    Continue,
    Def,
    Del,
    Elif,
    Else,
    Except,
    Finally,
    For,
    From,
    Global,
    If,
    Import,
    In,
    Is,
    Lambda,
    Nonlocal,
    Not,
    Or,
    Pass,
    Raise,
    Return,
    Try,
    While,
    With,
    Yield,
}

/// The operators and delimiters (Language Reference 2.5 and 2.6), and `...`.
#[derive(Clone, Copy, Debug, PartialEq, Eq)]
pub enum Mark {
    /// `+`
    Plus,
    /// `-`
    Minus,
    /// `*`
    Star,
    /// `**`
    DoubleStar,
    /// `/`
    Slash,
    /// `//`
    DoubleSlash,
    /// `%`
    Percent,
    /// `@`
    At,
    /// `<<`
    LeftShift,
    /// `>>`
    RightShift,
    /// `&`
    Ampersand,
    /// `|`
    Pipe,
    /// `^`
    Caret,
    /// `~`
    Tilde,
    /// `:=`
    Walrus,
    /// `<`
    Less,
    /// `>`
    Greater,
    /// `<=`
    LessEqual,
    /// `>=`
    GreaterEqual,
    /// `==`
    EqualEqual,
    /// `!=`
    NotEqual,
    /// `(`
    LeftParen,
    /// `)`
    RightParen,
    /// `[`
    LeftBracket,
    /// `]`
    RightBracket,
    /// `{`
    LeftBrace,
    /// `}`
    RightBrace,
    /// `,`
    Comma,
    /// `:`
    Colon,
    /// `.`
    Dot,
    /// `;`
    Semicolon,
    /// `=`
    Equal,
    /// `->`
    Arrow,
    /// `...`
    Ellipsis,
    /// `+=`
    PlusEqual,
    /// `-=`
    MinusEqual,
    /// `*=`
    StarEqual,
    /// `/=`
    SlashEqual,
    /// `//=`
    DoubleSlashEqual,
    /// `%=`
    PercentEqual,
    /// `@=`
    AtEqual,
    /// `&=`
    AmpersandEqual,
    /// `|=`
    PipeEqual,
    /// `^=`
    CaretEqual,
    /// `>>=`
    RightShiftEqual,
    /// `<<=`
    LeftShiftEqual,
    /// `**=`
    DoubleStarEqual,
}

/// A logical line: the number of its first line, the number of its leading spaces, and its tokens.
#[derive(Debug, Drop)]
pub struct Logical {
    pub line: Line,
    pub column: u32,
    pub tokens: Items<Token>,
}

/// The logical lines of a text, up to the first lexical fault if it has one.
#[derive(Debug, Drop)]
pub struct Tokens {
    pub lines: Items<Logical>,
    pub fault: Option<(Line, Construct)>,
}
