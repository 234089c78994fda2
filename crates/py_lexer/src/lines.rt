// The tokens of a text.
ghost use Rattle.std.specs.Prelude.{◌≡◌, ◌≤◌, [], length, true, None, IfOk};
ghost use Rattle.py_language.specs.Tokens as spec;

use crate::brackets::Brackets;
use crate::bytes::line_feeds;
use crate::normal::{has_order_mark, normalized};
use crate::piece::next_piece;
use crate::reader::{Reader, Step, take_in};
use py_language::Tokens;
use pyn_base::{Construct, Memory};
use sqlite_items::Items;
use std::alloc::Global;

fn beginning(alloc: Global) -> Reader
    ensures { result ≡ record { lines = []; begun = None; brackets = []; line = 1; column = 0; undeclared = true } }
{
    Reader {
        lines: Items::new(alloc),
        begun: None,
        brackets: Brackets::new(alloc),
        line: 1,
        column: 0,
        undeclared: true,
    }
}

/// At the end of the text the innermost bracket that is open is a fault.
fn ended(mut reader: Reader) -> Tokens
    ensures { result ≡ record { lines = reader.lines; fault = spec.unclosed reader.brackets } }
{
    let fault = match reader.brackets.pop() {
        Some((line, _)) => Some((line, Construct::Bracket)),
        None => None,
    };
    Tokens {
        lines: reader.lines,
        fault,
    }
}

/// The tokens of a text of at most 268,435,456 bytes, in logical lines, up to the first lexical fault (Language
/// Reference, chapter 2). The only error is out of memory.
pub fn tokens(alloc: Global, text: &[u8]) -> Result<Tokens, Memory>
    requires { length text.now ≤ 268435456 }
    ensures { IfOk result (λ t. t ≡ spec.tokens_of text.now) }
{
    let has_mark = has_order_mark(text);
    let lines = normalized(alloc, text)?;
    let mut reader = beginning(alloc);
    let mut rest = lines.as_slice();
    while !rest.is_empty() {
        let (piece, more) = next_piece(alloc, has_mark, rest)?;
        let (bytes, after) = rest.split_at(more + 1);
        match take_in(alloc, reader, piece)? {
            Step::On(next) => reader = next,
            Step::End(all) => return Ok(all),
        }
        reader.line += line_feeds(bytes);
        rest = after;
    }
    Ok(ended(reader))
}
