// The line of each header, and of a small statement.
ghost use Rattle.std.specs.Prelude.{◌≡◌, ◌∷◌, [], ◌++◌, OnOk};
ghost use Rattle.py_language.specs.declared.token.Token.TheVariants as t;
ghost use Rattle.py_language.specs.TreesPlaces.{Conditional};
ghost use Rattle.py_grammar.specs.declared.form.Header.TheVariants as h;
ghost use Rattle.py_printing.specs.Expressions.{expr_tokens};
ghost use Rattle.py_layout.specs.Headers.{colon, header_tokens};
ghost use Rattle.py_layout.specs.Rows.{row};
ghost use Rattle.py_layout.specs.Small.{small_tokens};
ghost use Rattle.py_printer.specs.Style.{fresh};
ghost use Rattle.py_annotation_layout.specs.Annotations.{annotation_tokens};
ghost use Rattle.module_printer.specs.Pages.{onto};

use crate::headers::{except, for_in, tested, word};
use crate::page::Page;
use crate::small::small_statement;
use py_language::Keyword;
use py_printer::Pen;
use py_syntax::{Expr, StmtKind};
use pyn_base::{Memory, Name, Text};
use sqlite_items::Items;
use std::alloc::Global;

/// At the start of a line.
pub fn new_pen(alloc: Global) -> Pen
    ensures { result ≡ fresh [] }
{
    Pen::new(alloc, Text::new(alloc))
}

/// Adds a small statement on a line.
pub fn small_line(
    alloc: Global,
    page: &mut Page,
    column: usize,
    kind: &StmtKind,
) -> Result<(), Memory>
    ensures { OnOk result (page.new ≡ onto page.old (row column (small_tokens annotation_tokens kind.now) ∷ [])) }
{
    let mut pen = new_pen(alloc);
    small_statement(alloc, &mut pen, kind)?;
    page.line(column, &pen.text)
}

/// Adds the line of a keyword with a test.
pub fn tested_line(
    alloc: Global,
    page: &mut Page,
    column: usize,
    keyword: Keyword,
    test: &Expr,
) -> Result<(), Memory>
    ensures { OnOk result (page.new ≡ onto page.old (row column ((t.Keyword keyword ∷ expr_tokens Conditional test.now) ++ colon) ∷ [])) }
{
    let mut pen = new_pen(alloc);
    tested(&mut pen, keyword, test)?;
    page.line(column, &pen.text)
}

/// Adds the line of a keyword alone.
pub fn word_line(
    alloc: Global,
    page: &mut Page,
    column: usize,
    keyword: Keyword,
) -> Result<(), Memory>
    ensures { OnOk result (page.new ≡ onto page.old (row column ((t.Keyword keyword ∷ []) ++ colon) ∷ [])) }
{
    let mut pen = new_pen(alloc);
    word(&mut pen, keyword)?;
    page.line(column, &pen.text)
}

/// Adds the line of a `for`.
pub fn for_line(
    alloc: Global,
    page: &mut Page,
    column: usize,
    all: &[Name],
    is_tuple: bool,
    walked: &Expr,
) -> Result<(), Memory>
    ensures { OnOk result (page.new ≡ onto page.old (row column (header_tokens annotation_tokens (h.For all.now is_tuple walked.now)) ∷ [])) }
{
    let mut pen = new_pen(alloc);
    for_in(&mut pen, all, is_tuple, walked)?;
    page.line(column, &pen.text)
}

/// Adds the line of an `except` clause.
pub fn except_line(
    alloc: Global,
    page: &mut Page,
    column: usize,
    all: &Option<Items<Name>>,
    name: &Option<Name>,
) -> Result<(), Memory>
    ensures { OnOk result (page.new ≡ onto page.old (row column (header_tokens annotation_tokens (h.Except all.now name.now)) ∷ [])) }
{
    let mut pen = new_pen(alloc);
    except(&mut pen, all, name)?;
    page.line(column, &pen.text)
}
