// Cutting tokens at separators, outside brackets.
ghost use Rattle.std.specs.Prelude.{◌≡◌, ◌<◌, ◌≤◌, ◌+◌, [], ◌∷◌, MatchOption};
ghost use Rattle.py_language.specs.declared.token.Token.TheVariants as token;
ghost use Rattle.py_grammar.specs.Separators.{opened, marks, front, back, inside, closed, has};
ghost use Rattle.py_grammar.specs.Statements.{name};
ghost use Rattle.py_line.specs.Reads.{IsNextBefore, IsLastCut, GivesSlice, Named};

use py_expr::ExprFault;
use py_grammar::Separator;
use py_language::{Bracket, Keyword, Mark, Token};
use pyn_base::Name;

/// How many brackets are open after a mark.
fn opened_by(depth: usize, mark: Mark) -> usize
    requires { depth < 18446744073709551615 }
    ensures count { result ≡ opened depth (token.Mark mark) }
    ensures at_most { result ≤ depth + 1 }
{
    match mark {
        Mark::LeftParen | Mark::LeftBracket | Mark::LeftBrace => depth + 1,
        Mark::RightParen | Mark::RightBracket | Mark::RightBrace => depth.saturating_sub(1),
        _ => depth,
    }
}

/// How many brackets are open after the token.
fn opened(depth: usize, token: &Token) -> usize
    requires { depth < 18446744073709551615 }
    ensures count { result ≡ opened depth token.now }
    ensures at_most { result ≤ depth + 1 }
{
    match token {
        Token::Mark(mark) => opened_by(depth, *mark),
        _ => depth,
    }
}

/// Whether the token is the separator.
fn marks(separator: Separator, token: &Token) -> bool
    ensures { result ≡ marks separator token.now }
{
    match token {
        Token::Mark(mark) => match (separator, mark) {
            (Separator::Semicolon, Mark::Semicolon) => true,
            (Separator::Comma, Mark::Comma) => true,
            (Separator::Colon, Mark::Colon) => true,
            (Separator::Equal | Separator::Assign, Mark::Equal) => true,
            (Separator::Assign, Mark::PlusEqual | Mark::MinusEqual | Mark::StarEqual) => true,
            (Separator::Assign, Mark::DoubleSlashEqual | Mark::PercentEqual) => true,
            (Separator::Pipe, Mark::Pipe) => true,
            (Separator::Part, Mark::Dot | Mark::LeftBracket) => true,
            (Separator::Closing, Mark::RightParen | Mark::RightBracket | Mark::RightBrace) => true,
            _ => false,
        },
        Token::Keyword(word) => match (separator, word) {
            (Separator::In, Keyword::In) | (Separator::As, Keyword::As) => true,
            _ => false,
        },
        _ => false,
    }
}

/// The first token, and those after it.
pub fn first(tokens: &[Token]) -> Option<(&Token, &[Token])>
    ensures { MatchOption result (tokens.now ≡ []) (λ r. tokens.now ≡ r.0.now ∷ r.1.now) }
{
    tokens.split_first()
}

/// The first token and those after it, unless it is the separator.
#[tactic(auto, unfolding(py_grammar::specs::Separators::outside))]
fn next_before(separator: Separator, depth: usize, tokens: &[Token]) -> Option<(&Token, &[Token])>
    ensures { IsNextBefore separator depth tokens.now result }
{
    let (token, others) = first(tokens)?;
    if depth == 0 && marks(separator, token) {
        return None;
    }
    Some((token, others))
}

/// The tokens before the first separator, and those from it on.
pub fn cut(separator: Separator, tokens: &[Token]) -> (&[Token], &[Token])
    ensures front { result.0.now ≡ front separator tokens.now }
    ensures back { result.1.now ≡ back separator tokens.now }
{
    let mut depth: usize = 0;
    let mut rest = tokens;
    while let Some((token, others)) = next_before(separator, depth, rest) {
        depth = opened(depth, token);
        rest = others;
    }
    let (before, _from) = tokens.split_at(tokens.len() - rest.len());
    (before, rest)
}

/// The tokens before the last separator, that separator, and those after it.
#[tactic(auto, unfolding(py_grammar::specs::Separators::outside))]
pub fn last_cut(separator: Separator, tokens: &[Token]) -> Option<(&[Token], &Token, &[Token])>
    ensures { IsLastCut separator tokens.now result }
{
    let mut depth: usize = 0;
    let mut rest = tokens;
    let mut found = None;
    while let Some((token, others)) = first(rest) {
        if depth == 0 && marks(separator, token) {
            found = Some((token, others));
        }
        depth = opened(depth, token);
        rest = others;
    }
    let Some((token, behind)) = found else {
        return None;
    };
    let (before, _from) = tokens.split_at(tokens.len() - behind.len() - 1);
    Some((before, token, behind))
}

/// Whether the separator is outside brackets.
pub fn has(separator: Separator, tokens: &[Token]) -> bool
    ensures { result ≡ has separator tokens.now }
{
    let (_before, rest) = cut(separator, tokens);
    match first(rest) {
        None => false,
        Some(_) => true,
    }
}

/// What is in a bracket that was opened just before the tokens, if the bracket that closes it is the last token.
pub fn inside(bracket: Bracket, tokens: &[Token]) -> Result<&[Token], ExprFault>
    ensures { GivesSlice result (inside bracket tokens.now) }
{
    let (content, rest) = cut(Separator::Closing, tokens);
    let Some((token, after)) = first(rest) else {
        return Err(ExprFault::Refused);
    };
    let Some(_) = first(after) else {
        return closed(bracket, content, token);
    };
    Err(ExprFault::Refused)
}

/// The content, if the token closes a bracket of the kind.
fn closed<'a>(
    bracket: Bracket,
    content: &'a [Token],
    token: &Token,
) -> Result<&'a [Token], ExprFault>
    ensures { GivesSlice result (closed bracket content.now (token.now ∷ [])) }
{
    match (bracket, token) {
        (Bracket::Round, Token::Mark(Mark::RightParen)) => Ok(content),
        (Bracket::Square, Token::Mark(Mark::RightBracket)) => Ok(content),
        _ => Err(ExprFault::Refused),
    }
}

/// The name that is alone.
pub fn lone_name(tokens: &[Token]) -> Option<&Name>
    ensures { Named (name tokens.now) result }
{
    let (token, rest) = first(tokens)?;
    match (token, first(rest)) {
        (Token::Name(name), None) => Some(name),
        _ => None,
    }
}
