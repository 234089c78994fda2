// The piece at the front of a text, by its first byte.
ghost use Rattle.std.specs.Prelude.{◌≡◌, ◌<◌, ◌+◌, ◌-◌, ◌^◌, ◌==◌, ◌∷◌, ◌&&◌, ◌||◌, Bool, true, false, if◌then◌else◌, Some, None, length, IfOk, IsAscii};
ghost use Rattle.py_language.specs.TokensCharacters as spec;
ghost use Rattle.py_language.specs.TokensNames.{is_string_prefix};
ghost use Rattle.py_lexer.specs.Found as is;
ghost use Rattle.py_lexer.specs.Scan as scan;
ghost use Rattle.pyn_base.specs.declared.construct.Construct.TheVariants as fault;
ghost use Rattle.py_lexer.specs.declared.piece.Piece.TheVariants as piece;

use crate::bytes::{
    begins_digit, begins_quote, blank_len, contains, is_blank, is_letter, is_quote, is_word,
    word_len,
};
use crate::comment::{declared_encoding, is_accepted, line_len, refused_in};
use crate::content::{character_at, string_content};
use crate::mark::mark_at;
use crate::name::{is_string_prefix, name_token};
use crate::number::{integer, integer_more};
use crate::quoted::string_len;
use py_language::{Mark, Token};
use pyn_base::{Construct, Memory, Text};
use std::alloc::Global;

/// What is at the front of a text.
#[derive(Debug, Drop)]
pub enum Piece {
    /// Spaces and tabs: how many, and whether a tab is among them and something after them on their line.
    Blanks {
        len: u32,
        has_tab: bool,
    },
    /// Whether a comment declares an encoding, whether that is accepted, and what may not be in it.
    Comment {
        declares: bool,
        is_accepted: bool,
        refused: Option<Construct>,
    },
    LineEnd,
    Token(Token),
    Opening(Mark, u8),
    Closing(Mark, u8),
    /// A fault, and the line ends before it.
    Fault(u32, Construct),
}

/// Whether a word is the prefix of a string. That is asked only where a quote follows.
fn is_prefix(word: &[u8], after: &[u8]) -> bool
    ensures { result ≡ (is_string_prefix word.now && spec.begins spec.is_quote after.now) }
{
    begins_quote(after) && is_string_prefix(word)
}

#[tactic(auto, unfolding(crate::specs::Found::name_found, py_language::specs::TokensFaults::name_fault))]
fn name_found(alloc: Global, word: &[u8], after: &[u8]) -> Result<Piece, Memory>
    requires { IsAscii word.now }
    ensures { IfOk result (λ p. p ≡ is.name_found word.now after.now) }
{
    if is_prefix(word, after) {
        return Ok(Piece::Fault(0, Construct::StringPrefix));
    }
    Ok(Piece::Token(name_token(alloc, word)?))
}

fn spoils_number(after: &[u8]) -> bool
    ensures { result ≡ spec.begins (λ c. spec.is_word c || c == 46) after.now }
{
    match after.split_first() {
        Some((b, _)) => is_word(*b) || *b == b'.',
        None => false,
    }
}

#[tactic(auto, unfolding(crate::specs::Found::number_found, py_language::specs::TokensFaults::number_fault))]
fn number_found(digits: &[u8], after: &[u8]) -> Piece
    ensures { result ≡ is.number_found digits.now after.now }
{
    if spoils_number(after) {
        return Piece::Fault(0, Construct::Number);
    }
    match integer(digits) {
        Some(n) => Piece::Token(Token::Int(n)),
        None => Piece::Fault(0, Construct::IntegerRange),
    }
}

/// Whether a line end or a comment is here.
fn stops_here(text: &[u8]) -> bool
    ensures { result ≡ spec.begins (λ c. c == 10 || c == 35) text.now }
{
    match text.split_first() {
        Some((b, _)) => *b == b'\n' || *b == b'#',
        None => false,
    }
}

fn blanks_found(blanks: &[u8], after: &[u8]) -> Piece
    requires { length blanks.now < 2 ^ 32 }
    ensures { result ≡ is.blanks_found blanks.now after.now }
{
    Piece::Blanks {
        len: blanks.len() as u32,
        has_tab: contains(blanks, b'\t') && !stops_here(after),
    }
}

fn comment_found(has_mark: bool, text: &[u8]) -> Piece
    ensures { result ≡ is.comment_found has_mark text.now }
{
    let name = declared_encoding(text);
    Piece::Comment {
        declares: !name.is_empty(),
        is_accepted: is_accepted(has_mark, name),
        refused: refused_in(text),
    }
}

fn bracket_found(first: u8, mark: Mark) -> Piece
    ensures { result ≡ is.bracket_found first mark }
{
    match first {
        b'(' | b'[' | b'{' => Piece::Opening(mark, first),
        b')' | b']' | b'}' => Piece::Closing(mark, first),
        _ => Piece::Token(Token::Mark(mark)),
    }
}

fn content_found(content: Result<Text, (u32, Construct)>) -> Piece
    ensures { result ≡ is.content_found content }
{
    match content {
        Ok(text) => Piece::Token(Token::Str(text)),
        Err((lines, construct)) => Piece::Fault(lines, construct),
    }
}

fn string_piece(alloc: Global, first: u8, rest: &[u8]) -> Result<(Piece, usize), Memory>
    requires first { spec.is_quote first ≡ true }
    requires short { length rest.now < 2 ^ 31 }
    ensures { IfOk result (λ r. (h : Bool) → is.FoundAt h first rest.now r.0 r.1) }
{
    let Some(len) = string_len(first, rest) else {
        return Ok((Piece::Fault(0, Construct::String), 0));
    };
    let content = string_content(alloc, first, rest.split_at(len - 1).0)?;
    Ok((content_found(content), len - 1))
}

fn name_piece(alloc: Global, first: u8, rest: &[u8], text: &[u8]) -> Result<(Piece, usize), Memory>
    requires text { text.now ≡ first ∷ rest.now }
    requires first { spec.is_letter first ≡ true }
    ensures { IfOk result (λ r. (h : Bool) → is.FoundAt h first rest.now r.0 r.1) }
{
    let more = word_len(rest);
    let word = text.split_at(more + 1).0;
    Ok((name_found(alloc, word, rest.split_at(more).1)?, more))
}

fn number_piece(first: u8, rest: &[u8], text: &[u8]) -> (Piece, usize)
    requires text { text.now ≡ first ∷ rest.now }
    requires first { spec.is_digit first ≡ true }
    ensures { (h : Bool) → is.FoundAt h first rest.now result.0 result.1 }
{
    let more = integer_more(first, rest);
    let digits = text.split_at(more + 1).0;
    (number_found(digits, rest.split_at(more).1), more)
}

fn blank_piece(first: u8, rest: &[u8], text: &[u8]) -> (Piece, usize)
    requires text { text.now ≡ first ∷ rest.now }
    requires first { spec.is_blank first ≡ true }
    requires short { length text.now < 2 ^ 32 }
    ensures { (h : Bool) → is.FoundAt h first rest.now result.0 result.1 }
{
    let more = blank_len(rest);
    let blanks = text.split_at(more + 1).0;
    (blanks_found(blanks, rest.split_at(more).1), more)
}

fn comment_piece(has_mark: bool, rest: &[u8], text: &[u8]) -> (Piece, usize)
    requires { text.now ≡ 35 ∷ rest.now }
    ensures { is.FoundAt has_mark 35 rest.now result.0 result.1 }
{
    let more = line_len(rest);
    (comment_found(has_mark, text.split_at(more + 1).0), more)
}

/// Why no piece begins here.
fn stray_fault(first: u8, text: &[u8]) -> Construct
    requires { 0 < length text.now }
    ensures { result ≡ scan.stray_construct first text.now }
{
    match first {
        b'\\' => Construct::Backslash,
        0..=127 => Construct::Character,
        _ => match character_at(text) {
            Some(_) => Construct::Character,
            None => Construct::Encoding,
        },
    }
}

/// What a mark is: a `.` before a digit begins a number of another form.
fn mark_found(first: u8, mark: Mark, more: usize, after: &[u8]) -> Piece
    ensures { result ≡ (if first == 46 && (more == 0 && spec.begins spec.is_digit after.now) then piece.Fault 0 fault.Number else is.bracket_found first mark) }
{
    if first == b'.' && more == 0 && begins_digit(after) {
        Piece::Fault(0, Construct::Number)
    } else {
        bracket_found(first, mark)
    }
}

fn other_piece(first: u8, rest: &[u8], text: &[u8]) -> (Piece, usize)
    requires text { text.now ≡ first ∷ rest.now }
    requires first { is.Other first }
    ensures { (h : Bool) → is.FoundAt h first rest.now result.0 result.1 }
{
    match mark_at(first, rest, text) {
        Some((mark, len)) => {
            let more = len - 1;
            (mark_found(first, mark, more, rest.split_at(more).1), more)
        }
        None => (Piece::Fault(0, stray_fault(first, text)), 0),
    }
}

/// The piece at the front of a text, and how many bytes it takes after its first.
pub fn next_piece(alloc: Global, has_mark: bool, text: &[u8]) -> Result<(Piece, usize), Memory>
    requires some { 0 < length text.now }
    requires short { length text.now < 2 ^ 31 }
    ensures { IfOk result (λ r. is.FrontIs has_mark text.now r.0 r.1) }
{
    let Some((first, rest)) = text.split_first() else {
        unreachable!();
    };
    let first = *first;
    if is_letter(first) {
        return name_piece(alloc, first, rest, text);
    }
    if first.is_ascii_digit() {
        return Ok(number_piece(first, rest, text));
    }
    if is_quote(first) {
        return string_piece(alloc, first, rest);
    }
    if is_blank(first) {
        return Ok(blank_piece(first, rest, text));
    }
    match first {
        b'#' => Ok(comment_piece(has_mark, rest, text)),
        b'\n' => Ok((Piece::LineEnd, 0)),
        _ => Ok(other_piece(first, rest, text)),
    }
}
