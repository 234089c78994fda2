// What is read so far, and how a piece joins it.
ghost use Rattle.std.specs.Prelude.{◌≡◌, ◌<◌, ◌+◌, ◌^◌, Some, None, IfOk};
ghost use Rattle.py_lexer.specs.Steps as steps;

use crate::brackets::Brackets;
use crate::piece::Piece;
use py_language::{Logical, Mark, Token, Tokens};
use pyn_base::{Construct, Memory};
use sqlite_items::Items;
use std::alloc::Global;

#[derive(Debug, Drop)]
pub struct Reader {
    /// The logical lines that have ended.
    pub lines: Items<Logical>,
    /// The one that has begun.
    pub begun: Option<Logical>,
    pub brackets: Brackets,
    pub line: u64,
    /// The blanks right before.
    pub column: u32,
    /// No token and no encoding declaration came before.
    pub undeclared: bool,
}

#[derive(Debug, Drop)]
pub enum Step {
    On(Reader),
    End(Tokens),
}

fn stopped(reader: Reader, lines: u32, construct: Construct) -> Step
    requires { reader.line < 2 ^ 62 }
    ensures { result ≡ steps.stopped reader lines construct }
{
    Step::End(Tokens {
        lines: reader.lines,
        fault: Some((reader.line + lines as u64, construct)),
    })
}

fn joined(
    alloc: Global,
    begun: Option<Logical>,
    line: u64,
    column: u32,
    token: Token,
) -> Result<Logical, Memory>
    ensures { IfOk result (λ l. Some l ≡ steps.joined begun line column token) }
{
    let mut logical = match begun {
        Some(logical) => logical,
        None => Logical {
            line,
            column,
            tokens: Items::new(alloc),
        },
    };
    logical.tokens.push(token)?;
    Ok(logical)
}

#[tactic(auto, unfolding(crate::specs::Steps::with_token))]
fn with_token(alloc: Global, mut reader: Reader, token: Token) -> Result<Reader, Memory>
    ensures { IfOk result (λ r. r ≡ steps.with_token reader token) }
{
    let begun = reader.begun.take();
    reader.begun = Some(joined(alloc, begun, reader.line, reader.column, token)?);
    reader.column = 0;
    reader.undeclared = false;
    Ok(reader)
}

fn opening(alloc: Global, mut reader: Reader, mark: Mark, bracket: u8) -> Result<Step, Memory>
    requires { reader.line < 2 ^ 62 }
    ensures { IfOk result (λ s. s ≡ steps.opening reader mark bracket) }
{
    if reader.brackets.len() >= 50 {
        return Ok(stopped(reader, 0, Construct::Nesting));
    }
    let line = reader.line;
    reader.brackets.push(line, bracket)?;
    Ok(Step::On(with_token(alloc, reader, Token::Mark(mark))?))
}

fn closes(bracket: u8, opener: u8) -> bool
    ensures { result ≡ steps.closes bracket opener }
{
    (opener == b'(' && bracket == b')')
        || ((opener == b'[' && bracket == b']') || (opener == b'{' && bracket == b'}'))
}

fn closing(alloc: Global, mut reader: Reader, mark: Mark, bracket: u8) -> Result<Step, Memory>
    requires { reader.line < 2 ^ 62 }
    ensures { IfOk result (λ s. s ≡ steps.closing reader mark bracket reader.brackets) }
{
    match reader.brackets.pop() {
        Some((_, open)) if closes(bracket, open) => Ok(Step::On(with_token(
            alloc,
            reader,
            Token::Mark(mark),
        )?)),
        _ => Ok(stopped(reader, 0, Construct::Bracket)),
    }
}

fn blanks(mut reader: Reader, len: u32, has_tab: bool) -> Step
    requires { reader.line < 2 ^ 62 }
    ensures { result ≡ steps.blanks reader len has_tab }
{
    if has_tab && reader.begun.is_none() {
        return stopped(reader, 0, Construct::Tab);
    }
    reader.column = len;
    Step::On(reader)
}

fn comment(
    mut reader: Reader,
    declares: bool,
    is_accepted: bool,
    refused: Option<Construct>,
) -> Step
    requires { reader.line < 2 ^ 62 }
    ensures { result ≡ steps.comment reader declares is_accepted refused }
{
    if reader.line <= 2 && reader.undeclared && declares && !is_accepted {
        return stopped(reader, 0, Construct::Encoding);
    }
    if let Some(construct) = refused {
        return stopped(reader, 0, construct);
    }
    reader.column = 0;
    reader.undeclared = !declares && reader.undeclared;
    Step::On(reader)
}

fn line_end(mut reader: Reader) -> Result<Reader, Memory>
    ensures { IfOk result (λ r. r ≡ steps.line_end reader reader.brackets) }
{
    reader.column = 0;
    if reader.brackets.len() > 0 {
        return Ok(reader);
    }
    if let Some(logical) = reader.begun.take() {
        reader.lines.push(logical)?;
    }
    Ok(reader)
}

/// Joins a piece to what is read, but for the line ends in it.
#[tactic(auto, unfolding(crate::specs::Steps::step))]
pub fn take_in(alloc: Global, reader: Reader, piece: Piece) -> Result<Step, Memory>
    requires { reader.line < 2 ^ 62 }
    ensures { IfOk result (λ s. s ≡ steps.step reader piece) }
{
    match piece {
        Piece::Blanks { len, has_tab } => Ok(blanks(reader, len, has_tab)),
        Piece::Comment {
            declares,
            is_accepted,
            refused,
        } => Ok(comment(reader, declares, is_accepted, refused)),
        Piece::LineEnd => Ok(Step::On(line_end(reader)?)),
        Piece::Token(token) => Ok(Step::On(with_token(alloc, reader, token)?)),
        Piece::Opening(mark, bracket) => opening(alloc, reader, mark, bracket),
        Piece::Closing(mark, bracket) => closing(alloc, reader, mark, bracket),
        Piece::Fault(lines, construct) => Ok(stopped(reader, lines, construct)),
    }
}
