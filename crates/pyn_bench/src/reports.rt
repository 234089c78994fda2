// What is said of a text, by what it is read as.
ghost use Rattle.std.specs.Prelude.{◌≡◌, ◌≤◌, length, IfOk};
ghost use Rattle.std.specs.Option.{is_some};
ghost use Rattle.py_language.specs.Trees.{tree_of};
ghost use Rattle.pyn_bench.specs.Reports.{counted, tokens_in, counts_report, first_line, expression_report, report};

use crate::modules::module_report;
use crate::runs::run_report;
use py_expr::{ExprFault, read_expr};
use py_lexer::{Logical, Token, tokens};
use pyn_base::{Memory, Text};
use std::alloc::Global;

/// What a text is read as.
#[derive(Clone, Copy, Debug, PartialEq, Eq)]
pub enum Reading {
    /// Its tokens are counted.
    Tokens,
    /// The first logical line is read as one expression.
    Expression,
    /// The whole text is read as a module.
    Module,
    /// The whole text is read as a module, and its first function is called so many times.
    Run(u32),
}

fn token_count(lines: &[Logical]) -> u64
    ensures { result ≡ counted (tokens_in lines.now) }
{
    let mut count: u64 = 0;
    let mut rest = lines;
    while let Some((line, more)) = rest.split_first() {
        count = count.saturating_add(line.tokens.len() as u64);
        rest = more;
    }
    count
}

fn counts_report(alloc: Global, lines: &[Logical]) -> Result<Text, Memory>
    ensures { IfOk result (λ t. t ≡ counts_report lines.now) }
{
    let mut text = Text::new(alloc);
    text.push_ascii(b"lines ")?;
    text.push_number(lines.len() as u64)?;
    text.push_ascii(b"\ntokens ")?;
    text.push_number(token_count(lines))?;
    text.push_ascii(b"\n")?;
    Ok(text)
}

/// The tokens of the first logical line.
fn first_line(lines: &[Logical]) -> &[Token]
    ensures { result.now ≡ first_line lines.now }
{
    match lines.split_first() {
        Some((line, _others)) => line.tokens.as_slice(),
        None => &[],
    }
}

/// Whether the tokens are one expression, which is found by reading it.
fn is_expression(alloc: Global, tokens: &[Token]) -> Result<bool, Memory>
    ensures { IfOk result (λ found. found ≡ is_some (tree_of tokens.now)) }
{
    match read_expr(alloc, tokens) {
        Ok(_tree) => Ok(true),
        Err(ExprFault::Refused) => Ok(false),
        Err(ExprFault::Memory) => Err(Memory),
    }
}

fn expression_report(alloc: Global, tokens: &[Token]) -> Result<Text, Memory>
    ensures { IfOk result (λ t. t ≡ expression_report tokens.now) }
{
    let mut text = Text::new(alloc);
    text.push_ascii(b"tokens ")?;
    text.push_number(tokens.len() as u64)?;
    if is_expression(alloc, tokens)? {
        text.push_ascii(b"\nread\n")?;
    } else {
        text.push_ascii(b"\nrefused\n")?;
    }
    Ok(text)
}

/// What is said of a text of at most 268,435,456 bytes.
pub fn report(alloc: Global, reading: Reading, text: &[u8]) -> Result<Text, Memory>
    requires { length text.now ≤ 268435456 }
    ensures { IfOk result (λ t. t ≡ report reading text.now) }
{
    match reading {
        Reading::Tokens => counts_report(alloc, tokens(alloc, text)?.lines.as_slice()),
        Reading::Expression => {
            expression_report(alloc, first_line(tokens(alloc, text)?.lines.as_slice()))
        }
        Reading::Module => module_report(alloc, text),
        Reading::Run(times) => run_report(alloc, times, text),
    }
}
