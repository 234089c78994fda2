// Statements and their blocks (Language Reference, chapter 8).
ghost use Rattle.std.specs.Prelude.{◌≡◌, true, OnOk};
ghost use Rattle.std.specs.List.{flat_map};
ghost use Rattle.py_layout.specs.Rows.{block_rows, rows_of, rows_of_clause, rows_of_kind};
ghost use Rattle.py_annotation_layout.specs.Annotations.{annotation_tokens};
ghost use Rattle.module_printer.specs.Blocks.{deeper as deeper_rows, is_if, maybe_rows, word_rows};
ghost use Rattle.module_printer.specs.Pages.{onto};

use crate::page::{INDENT, Page};
use crate::rows::{except_line, for_line, small_line, tested_line, word_line};
use py_language::Keyword;
use py_syntax::{Clause, Stmt, StmtKind};
use pyn_base::Memory;
use sqlite_items::Items;
use std::alloc::Global;

/// Adds the lines of a statement.
#[cycle(blocks)]
#[tactic(auto, using(crate::proofs::Pages::onto_append, crate::proofs::StatementRows::statement_levels))]
pub fn statement(alloc: Global, page: &mut Page, column: usize, x: &Stmt) -> Result<(), Memory>
    ensures { OnOk result (page.new ≡ onto page.old (rows_of annotation_tokens x.now column)) }
{
    match &x.kind {
        StmtKind::If(_, _) => branches(alloc, page, column, &x.kind),
        StmtKind::While(test, body) => {
            tested_line(alloc, page, column, Keyword::While, test)?;
            deeper(alloc, page, column, body.as_slice())
        }
        StmtKind::For(names, is_tuple, walked, body) => {
            for_line(alloc, page, column, names.as_slice(), *is_tuple, walked)?;
            deeper(alloc, page, column, body.as_slice())
        }
        StmtKind::Try(body, all, other, last) => {
            worded(alloc, page, column, Keyword::Try, body.as_slice())?;
            clauses(alloc, page, column, all.as_slice())?;
            maybe(alloc, page, column, Keyword::Else, other)?;
            maybe(alloc, page, column, Keyword::Finally, last)
        }
        _ => small_line(alloc, page, column, &x.kind),
    }
}

/// Adds the lines of a block.
#[cycle(blocks)]
pub fn block(alloc: Global, page: &mut Page, column: usize, body: &[Stmt]) -> Result<(), Memory>
    ensures { OnOk result (page.new ≡ onto page.old (block_rows annotation_tokens column body.now)) }
{
    for x in body {
        statement(alloc, page, column, x)?;
    }
    Ok(())
}

/// Adds the lines of a block that is deeper than the column. No memory has a line whose column isn't a number of this type.
#[cycle(blocks)]
pub fn deeper(alloc: Global, page: &mut Page, column: usize, body: &[Stmt]) -> Result<(), Memory>
    ensures { OnOk result (page.new ≡ onto page.old (deeper_rows column body.now)) }
{
    match column.checked_add(INDENT) {
        Some(inner) => block(alloc, page, inner, body),
        None => Err(Memory),
    }
}

/// Adds a keyword alone, and its block.
#[cycle(blocks)]
#[tactic(auto, using(crate::proofs::Pages::onto_cons))]
fn worded(
    alloc: Global,
    page: &mut Page,
    column: usize,
    keyword: Keyword,
    body: &[Stmt],
) -> Result<(), Memory>
    ensures { OnOk result (page.new ≡ onto page.old (word_rows column keyword body.now)) }
{
    word_line(alloc, page, column, keyword)?;
    deeper(alloc, page, column, body)
}

/// Adds a keyword alone, and its block, if there is one.
#[cycle(blocks)]
fn maybe(
    alloc: Global,
    page: &mut Page,
    column: usize,
    keyword: Keyword,
    body: &Option<Items<Stmt>>,
) -> Result<(), Memory>
    ensures { OnOk result (page.new ≡ onto page.old (maybe_rows column keyword body.now)) }
{
    match body {
        None => Ok(()),
        Some(body) => worded(alloc, page, column, keyword, body.as_slice()),
    }
}

/// Adds the arms of an `if`, and its `else`, if there is one.
#[cycle(blocks)]
fn branches(alloc: Global, page: &mut Page, column: usize, kind: &StmtKind) -> Result<(), Memory>
    requires { is_if kind.now ≡ true }
    ensures { OnOk result (page.new ≡ onto page.old (rows_of_kind annotation_tokens kind.now column)) }
{
    match kind {
        StmtKind::If(all, other) => {
            let arms = all.as_slice();
            let mut keyword = Keyword::If;
            for arm in arms {
                tested_line(alloc, page, column, keyword, &arm.0)?;
                deeper(alloc, page, column, arm.1.as_slice())?;
                keyword = Keyword::Elif;
            }
            maybe(alloc, page, column, Keyword::Else, other)
        }
        _ => unreachable!(),
    }
}

/// Adds the lines of an `except` clause.
#[cycle(blocks)]
#[tactic(auto, using(crate::proofs::Pages::onto_cons, crate::proofs::StatementRows::clause_is))]
fn clause(alloc: Global, page: &mut Page, column: usize, x: &Clause) -> Result<(), Memory>
    ensures { OnOk result (page.new ≡ onto page.old (rows_of_clause annotation_tokens x.now column)) }
{
    except_line(alloc, page, column, &x.classes, &x.name)?;
    deeper(alloc, page, column, x.body.as_slice())
}

/// Adds the lines of the clauses of a `try`.
#[cycle(blocks)]
fn clauses(alloc: Global, page: &mut Page, column: usize, all: &[Clause]) -> Result<(), Memory>
    ensures { OnOk result (page.new ≡ onto page.old (flat_map (λ x. rows_of_clause annotation_tokens x column) all.now)) }
{
    for x in all {
        clause(alloc, page, column, x)?;
    }
    Ok(())
}
