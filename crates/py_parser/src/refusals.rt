// Why a logical line is refused.
ghost use Rattle.std.specs.Prelude.{◌≡◌, ◌∷◌, [], MatchOption};
ghost use Rattle.py_grammar.specs.Refusals as spec;

use crate::keywords::{ends_in_colon, first_word, is_class, is_def, opens_block};
use py_grammar::Place;
use py_language::{Keyword, Logical, Mark, Token};
use py_syntax::Refusal;
use pyn_base::Construct;

/// The construct that a keyword is of, if the grammar has it in no line, or not there.
fn foreign_word(word: Keyword) -> Option<Construct>
    ensures { result ≡ spec.foreign_word word }
{
    match word {
        Keyword::Lambda => Some(Construct::Lambda),
        Keyword::Async => Some(Construct::Async),
        Keyword::Await => Some(Construct::Await),
        Keyword::Yield => Some(Construct::Yield),
        Keyword::Global => Some(Construct::Global),
        Keyword::Nonlocal => Some(Construct::Nonlocal),
        Keyword::Import => Some(Construct::Import),
        Keyword::From => Some(Construct::From),
        Keyword::With => Some(Construct::With),
        Keyword::For => Some(Construct::Comprehension),
        _ => None,
    }
}

/// The construct that an operator or a delimiter is of, if the grammar has it in no line, or not there.
fn foreign_mark(mark: Mark) -> Option<Construct>
    ensures { result ≡ spec.foreign_mark mark }
{
    match mark {
        Mark::Walrus => Some(Construct::Walrus),
        Mark::At | Mark::AtEqual => Some(Construct::AtSign),
        Mark::Slash | Mark::SlashEqual => Some(Construct::Division),
        Mark::DoubleStar | Mark::DoubleStarEqual => Some(Construct::Power),
        Mark::Ampersand
        | Mark::Pipe
        | Mark::Caret
        | Mark::Tilde
        | Mark::LeftShift
        | Mark::RightShift
        | Mark::AmpersandEqual
        | Mark::PipeEqual
        | Mark::CaretEqual
        | Mark::LeftShiftEqual
        | Mark::RightShiftEqual => Some(Construct::BitOperator),
        Mark::Ellipsis => Some(Construct::Ellipsis),
        _ => None,
    }
}

fn foreign(token: &Token) -> Option<Construct>
    ensures { result ≡ spec.foreign token.now }
{
    match token {
        Token::Keyword(word) => foreign_word(*word),
        Token::Mark(mark) => foreign_mark(*mark),
        Token::Name(_) | Token::Int(_) | Token::Str(_) => None,
    }
}

/// The first token, and those after it.
fn first(tokens: &[Token]) -> Option<(&Token, &[Token])>
    ensures { MatchOption result (tokens.now ≡ []) (λ r. tokens.now ≡ r.0.now ∷ r.1.now) }
{
    tokens.split_first()
}

/// By the first token that the grammar has in no line, or not there.
fn by_tokens(tokens: &[Token]) -> Construct
    ensures { result ≡ spec.by_tokens tokens.now }
{
    let mut rest = tokens;
    while let Some((token, others)) = first(rest) {
        match foreign(token) {
            Some(construct) => return construct,
            None => rest = others,
        }
    }
    Construct::Syntax
}

/// The same for a whole line, which may begin with `for`.
fn by_line(tokens: &[Token]) -> Construct
    ensures { result ≡ spec.by_line tokens.now }
{
    match tokens.split_first() {
        Some((Token::Keyword(Keyword::For), others)) => by_tokens(others),
        _ => by_tokens(tokens),
    }
}

fn has_classes(place: Place) -> bool
    ensures { result ≡ spec.has_classes place }
{
    match place {
        Place::Module => true,
        Place::Class | Place::Block => false,
    }
}

fn has_defs(place: Place) -> bool
    ensures { result ≡ spec.has_defs place }
{
    match place {
        Place::Module | Place::Class => true,
        Place::Block => false,
    }
}

/// The first row of the table that holds of the line.
#[tactic(auto, unfolding(py_grammar::specs::Refusals::construct_of))]
fn construct_of(place: Place, room: usize, line: &Logical) -> Construct
    ensures { result ≡ spec.construct_of place room line.now.tokens }
{
    let word = first_word(line);
    if room == 0 && opens_block(word) && !ends_in_colon(line) {
        Construct::Nesting
    } else if is_def(word) && !has_defs(place) {
        Construct::NestedDef
    } else if is_class(word) && !has_classes(place) {
        Construct::NestedClass
    } else {
        by_line(line.tokens.as_slice())
    }
}

/// The refusal of a line at a place where so many blocks may still be inside one another.
pub fn refusal(place: Place, room: usize, line: &Logical) -> Refusal
    ensures { result ≡ spec.refusal place room line.now }
{
    Refusal::Refused {
        line: line.line,
        construct: construct_of(place, room, line),
    }
}
