// The lines of a block, cut into statements.
ghost use Rattle.std.specs.Prelude.{◌≡◌, ◌≤◌, ℕ, [], length, not, MatchOption};
ghost use Rattle.std.specs.List.{prefix_len};
ghost use Rattle.py_grammar.specs.Blocks as blocks;
ghost use Rattle.py_grammar.specs.Blocks.{members, groups};
ghost use Rattle.py_parser.specs.Lines.{is_at, begins_anew, FirstMember, FirstGroup};

use crate::keywords::{first_word, is_continuing};
use py_language::Logical;
use py_syntax::Refusal;

/// A line, and the deeper lines after it.
#[derive(Clone, Copy)]
pub struct Member<'a> {
    pub line: &'a Logical,
    pub deeper: &'a [Logical],
}

/// A statement in a block with this column: its first member, and the lines that continue it.
#[derive(Clone, Copy)]
pub struct Group<'a> {
    pub column: u32,
    pub first: Member<'a>,
    pub others: &'a [Logical],
}

/// Whether the line continues a compound statement in a block with this column.
fn continues(column: u32, line: &Logical) -> bool
    ensures { result ≡ blocks.continues column line.now }
{
    line.column == column && is_continuing(first_word(line))
}

fn is_at(column: u32, line: &Logical) -> bool
    ensures { result ≡ is_at column line.now }
{
    line.column <= column
}

fn begins_anew(column: u32, line: &Logical) -> bool
    ensures { result ≡ begins_anew column line.now }
{
    line.column <= column && !continues(column, line)
}

/// How many lines are deeper than the column, up to the first that is not.
fn deeper_len(column: u32, lines: &[Logical]) -> usize
    ensures value { result ≡ prefix_len (λ l. not (is_at column l)) lines.now }
    ensures within { result ≤ length lines.now }
{
    lines.iter().take_while(|line| !is_at(column, line)).count()
}

/// How many lines are up to the first that begins another statement.
fn statement_len(column: u32, lines: &[Logical]) -> usize
    ensures value { result ≡ prefix_len (λ l. not (begins_anew column l)) lines.now }
    ensures within { result ≤ length lines.now }
{
    lines
        .iter()
        .take_while(|line| !begins_anew(column, line))
        .count()
}

/// The lines that are deeper than the column, up to the first that is not, and those from there on.
fn cut_deeper(column: u32, lines: &[Logical]) -> (&[Logical], &[Logical])
    ensures front { result.0.now ≡ blocks.front (is_at column) lines.now }
    ensures back { result.1.now ≡ blocks.back (is_at column) lines.now }
{
    lines.split_at(deeper_len(column, lines))
}

/// The lines up to the first that begins another statement, and those from there on.
fn cut_statement(column: u32, lines: &[Logical]) -> (&[Logical], &[Logical])
    ensures front { result.0.now ≡ blocks.front (begins_anew column) lines.now }
    ensures back { result.1.now ≡ blocks.back (begins_anew column) lines.now }
{
    lines.split_at(statement_len(column, lines))
}

/// The first line and the deeper ones after it, and the lines after those.
pub fn next_member(column: u32, lines: &[Logical]) -> Option<(Member<'_>, &[Logical])>
    ensures { MatchOption result (lines.now ≡ []) (FirstMember column lines.now) }
{
    let (line, others) = lines.split_first()?;
    let (deeper, rest) = cut_deeper(column, others);
    Some((Member { line, deeper }, rest))
}

/// The first statement, and the lines after it.
pub fn next_group(column: u32, lines: &[Logical]) -> Option<(Group<'_>, &[Logical])>
    ensures { MatchOption result (lines.now ≡ []) (FirstGroup column lines.now) }
{
    let (line, after) = lines.split_first()?;
    let (whole, rest) = cut_statement(column, after);
    let (deeper, others) = cut_deeper(column, whole);
    let first = Member { line, deeper };
    Some((
        Group {
            column,
            first,
            others,
        },
        rest,
    ))
}

/// What is behind lines that have these behind them: a fault only where there are none.
pub fn behind(others: &[Logical], end: Option<Refusal>) -> Option<Refusal>
    ensures members { (column : ℕ) → result ≡ blocks.behind (members column others.now) end }
    ensures groups { (column : ℕ) → result ≡ blocks.behind (groups column others.now) end }
{
    match others.split_first() {
        None => end,
        Some(_) => None,
    }
}
