// What tokens are to their neighbours on a line, and how keywords and marks are spelled.
ghost use Rattle.std.specs.Prelude.{◌≡◌};
ghost use Rattle.py_spelling.specs.Spelling.{keyword_text, mark_text};
ghost use Rattle.py_printer.specs.Kinds.{mark_kind, keyword_kind};

use py_language::{Keyword, Mark};

/// A bracket that is open. A round one may hold parameters, of which the last has an annotation.
#[derive(Clone, Copy)]
pub enum Opened {
    Round,
    Annotated,
    Square,
    Brace,
}

/// What a token is to its neighbours.
#[derive(Clone, Copy)]
pub enum Kind {
    /// an opening bracket
    Opening(Opened),
    /// a closing bracket
    Closing,
    Comma,
    Colon,
    Dot,
    Equal,
    /// a sign, before an operand or between two
    Sign,
    /// any other mark, or a keyword that is no value
    Operator,
    /// a name, a number, a string or a keyword that is a value
    Operand,
}

/// What a text ends in, as far as it may go on.
#[derive(Clone, Copy)]
pub enum Last {
    Nothing,
    Word,
    Number,
    Quoted,
    Dot,
    Mark,
}

/// Where the next token is.
#[derive(Clone, Copy)]
pub enum Place {
    /// at the start of a line
    Start,
    /// after an operand
    Operand,
    /// after what holds it without a space
    Tight,
    /// after what has a space behind it
    Loose,
}

/// The kind of a mark.
pub fn mark_kind(mark: Mark) -> Kind
    ensures { result ≡ mark_kind mark }
{
    match mark {
        Mark::LeftParen => Kind::Opening(Opened::Round),
        Mark::LeftBracket => Kind::Opening(Opened::Square),
        Mark::LeftBrace => Kind::Opening(Opened::Brace),
        Mark::RightParen => Kind::Closing,
        Mark::RightBracket => Kind::Closing,
        Mark::RightBrace => Kind::Closing,
        Mark::Comma => Kind::Comma,
        Mark::Colon => Kind::Colon,
        Mark::Dot => Kind::Dot,
        Mark::Equal => Kind::Equal,
        Mark::Plus => Kind::Sign,
        Mark::Minus => Kind::Sign,
        _ => Kind::Operator,
    }
}

/// The kind of a keyword.
pub fn keyword_kind(keyword: Keyword) -> Kind
    ensures { result ≡ keyword_kind keyword }
{
    match keyword {
        Keyword::NoneLit => Kind::Operand,
        Keyword::TrueLit => Kind::Operand,
        Keyword::FalseLit => Kind::Operand,
        _ => Kind::Operator,
    }
}

/// How a keyword is spelled (Language Reference 2.3.1).
pub fn keyword_text(keyword: Keyword) -> &'static str
    ensures { result.now ≡ keyword_text keyword }
{
    match keyword {
        Keyword::As => "as",
        Keyword::If => "if",
        Keyword::In => "in",
        Keyword::Is => "is",
        Keyword::Or => "or",
        Keyword::And => "and",
        Keyword::Def => "def",
        Keyword::Del => "del",
        Keyword::For => "for",
        Keyword::Not => "not",
        Keyword::Try => "try",
        Keyword::NoneLit => "None",
        Keyword::TrueLit => "True",
        Keyword::Elif => "elif",
        Keyword::Else => "else",
        Keyword::From => "from",
        Keyword::Pass => "pass",
        Keyword::With => "with",
        Keyword::FalseLit => "False",
        Keyword::Async => "async",
        Keyword::Await => "await",
        Keyword::Break => "break",
        Keyword::Class => "class",
        Keyword::Raise => "raise",
        Keyword::While => "while",
        Keyword::Yield => "yield",
        Keyword::Assert => "assert",
        Keyword::Except => "except",
        Keyword::Global => "global",
        Keyword::Import => "import",
        Keyword::Lambda => "lambda",
        Keyword::Return => "return",
        Keyword::Finally => "finally",
        Keyword::Continue => "continue",
        Keyword::Nonlocal => "nonlocal",
    }
}

/// How a mark is spelled (Language Reference 2.5 and 2.6).
pub fn mark_text(mark: Mark) -> &'static str
    ensures { result.now ≡ mark_text mark }
{
    match mark {
        Mark::Plus => "+",
        Mark::Minus => "-",
        Mark::Star => "*",
        Mark::DoubleStar => "**",
        Mark::Slash => "/",
        Mark::DoubleSlash => "//",
        Mark::Percent => "%",
        Mark::At => "@",
        Mark::LeftShift => "<<",
        Mark::RightShift => ">>",
        Mark::Ampersand => "&",
        Mark::Pipe => "|",
        Mark::Caret => "^",
        Mark::Tilde => "~",
        Mark::Walrus => ":=",
        Mark::Less => "<",
        Mark::Greater => ">",
        Mark::LessEqual => "<=",
        Mark::GreaterEqual => ">=",
        Mark::EqualEqual => "==",
        Mark::NotEqual => "!=",
        Mark::LeftParen => "(",
        Mark::RightParen => ")",
        Mark::LeftBracket => "[",
        Mark::RightBracket => "]",
        Mark::LeftBrace => "{",
        Mark::RightBrace => "}",
        Mark::Comma => ",",
        Mark::Colon => ":",
        Mark::Dot => ".",
        Mark::Semicolon => ";",
        Mark::Equal => "=",
        Mark::Arrow => "->",
        Mark::Ellipsis => "...",
        Mark::PlusEqual => "+=",
        Mark::MinusEqual => "-=",
        Mark::StarEqual => "*=",
        Mark::SlashEqual => "/=",
        Mark::DoubleSlashEqual => "//=",
        Mark::PercentEqual => "%=",
        Mark::AtEqual => "@=",
        Mark::AmpersandEqual => "&=",
        Mark::PipeEqual => "|=",
        Mark::CaretEqual => "^=",
        Mark::RightShiftEqual => ">>=",
        Mark::LeftShiftEqual => "<<=",
        Mark::DoubleStarEqual => "**=",
    }
}
