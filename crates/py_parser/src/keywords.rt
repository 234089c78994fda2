// How a logical line begins and ends.
ghost use Rattle.std.specs.Prelude.{◌≡◌};
ghost use Rattle.py_grammar.specs.Refusals as spec;

use py_language::{Keyword, Logical, Mark, Token};

/// The keyword that a line begins with, if it begins with one.
pub fn first_word(line: &Logical) -> Option<Keyword>
    ensures { result ≡ spec.first_word line.now.tokens }
{
    match line.tokens.as_slice().split_first() {
        None => None,
        Some((token, _rest)) => match token {
            Token::Keyword(word) => Some(*word),
            Token::Name(_) | Token::Int(_) | Token::Str(_) | Token::Mark(_) => None,
        },
    }
}

/// Whether it begins a statement that has a block and may be in any other one.
pub fn opens_block(word: Option<Keyword>) -> bool
    ensures { result ≡ spec.opens_block word }
{
    match word {
        Some(
            Keyword::If
            | Keyword::Elif
            | Keyword::Else
            | Keyword::While
            | Keyword::For
            | Keyword::Try
            | Keyword::Except
            | Keyword::Finally,
        ) => true,
        _ => false,
    }
}

/// Whether it continues a compound statement.
pub fn is_continuing(word: Option<Keyword>) -> bool
    ensures { result ≡ spec.is_continuing word }
{
    match word {
        Some(Keyword::Elif | Keyword::Else | Keyword::Except | Keyword::Finally) => true,
        _ => false,
    }
}

/// Whether a `try` needs it.
pub fn is_clause(word: Option<Keyword>) -> bool
    ensures { result ≡ spec.is_clause word }
{
    match word {
        Some(Keyword::Except | Keyword::Finally) => true,
        _ => false,
    }
}

pub fn is_def(word: Option<Keyword>) -> bool
    ensures { result ≡ spec.is_def word }
{
    match word {
        Some(Keyword::Def) => true,
        _ => false,
    }
}

pub fn is_class(word: Option<Keyword>) -> bool
    ensures { result ≡ spec.is_class word }
{
    match word {
        Some(Keyword::Class) => true,
        _ => false,
    }
}

/// Whether the last token is a colon.
pub fn ends_in_colon(line: &Logical) -> bool
    ensures { result ≡ spec.ends_in_colon line.now.tokens }
{
    match line.tokens.as_slice().last() {
        Some(Token::Mark(Mark::Colon)) => true,
        _ => false,
    }
}
