// The steps of a test, with their assertions.
ghost use Rattle.std.specs.Prelude.{◌≡◌, ◌+◌, ◌∷◌, [], IfOk, MatchOption, OnOk};
ghost use Rattle.py_language.specs.TreesPlaces.{Listed};
ghost use Rattle.py_printing.specs.Expressions.{expr_tokens};
ghost use Rattle.py_layout.specs.Rows.{row};
ghost use Rattle.module_printer.specs.Pages.{onto};
ghost use Rattle.suite_text.specs.SuiteText.{asserts_after, assertion_rows, asserts_later, raised_class};
ghost use Rattle.suite_printer.specs.Bodies.{body_rows, last_rows, value_rows};

use crate::raises::with_line;
use module_printer::{INDENT, Page, new_pen, statement};
use py_syntax::{Expr, Line, Stmt, StmtKind};
use py_tables::Tables;
use pyn_base::{ClassId, Memory};
use std::alloc::Global;
use suite_model::Assert;
use suite_syntax::assertion;

/// The first of a list, and the others.
fn first_of<T>(items: &[T]) -> Option<(&T, &[T])>
    ensures { MatchOption result (items.now ≡ []) (λ next. items.now ≡ next.0.now ∷ next.1.now) }
{
    items.split_first()
}

/// Adds an expression alone on a line.
fn bare_line(alloc: Global, page: &mut Page, column: usize, x: &Expr) -> Result<(), Memory>
    ensures { OnOk result (page.new ≡ onto page.old (row column (expr_tokens Listed x.now) ∷ [])) }
{
    let mut pen = new_pen(alloc);
    pen.listed(x)?;
    page.line(column, &pen.text)
}

/// Adds what an assignment assigns, alone.
fn value(alloc: Global, page: &mut Page, column: usize, kind: &StmtKind) -> Result<(), Memory>
    ensures { OnOk result (page.new ≡ onto page.old (value_rows column kind.now)) }
{
    match kind {
        StmtKind::Assign(_targets, _is_tuple, _of_type, x) => bare_line(alloc, page, column, x),
        _ => Ok(()),
    }
}

/// Adds a step, in a block if it has to raise.
#[tactic(auto, using(crate::proofs::Pages::onto_cons))]
fn step(
    alloc: Global,
    page: &mut Page,
    tables: &Tables,
    class: Option<ClassId>,
    stmt: &Stmt,
) -> Result<(), Memory>
    ensures { OnOk result (page.new ≡ onto page.old (last_rows tables.now class stmt.now)) }
{
    match class {
        None => statement(alloc, page, INDENT, stmt),
        Some(class) => {
            with_line(alloc, page, tables, class)?;
            value(alloc, page, INDENT + INDENT, &stmt.kind)
        }
    }
}

/// The class that a step before these has to raise: the last step, where the test ends by raising.
fn raised_class(raises: &Option<(Line, ClassId)>, rest: &[Stmt]) -> Option<ClassId>
    ensures { result ≡ raised_class raises.now rest.now }
{
    match raises {
        None => None,
        Some((_line, class)) => { if rest.is_empty() { Some(*class) } else { None } }
    }
}

/// Adds an assertion.
fn assertion_line(alloc: Global, page: &mut Page, tables: &Tables, x: &Assert) -> Result<(), Memory>
    ensures { OnOk result (page.new ≡ onto page.old (assertion_rows tables.now (x.now ∷ []))) }
{
    let stmt = assertion(alloc, tables, x)?;
    statement(alloc, page, INDENT, &stmt)
}

/// Adds the assertions at the front that are after a step, and gives the others.
fn assertions<'a>(
    alloc: Global,
    page: &mut Page,
    tables: &Tables,
    k: u32,
    asserts: &'a [Assert],
) -> Result<&'a [Assert], Memory>
    ensures page { OnOk result (page.new ≡ onto page.old (assertion_rows tables.now (asserts_after k asserts.now))) }
    ensures rest { IfOk result (λ rest. rest.now ≡ asserts_later k asserts.now) }
{
    let mut left = asserts;
    loop {
        let Some((x, rest)) = first_of(left) else {
            return Ok(left);
        };
        if x.after != k {
            return Ok(left);
        }
        assertion_line(alloc, page, tables, x)?;
        left = rest;
    }
}

/// The number after one. No test has room for more.
fn next(number: u32) -> Result<u32, Memory>
    ensures { IfOk result (λ n. n ≡ number + 1) }
{
    match number.checked_add(1) {
        Some(next) => Ok(next),
        None => Err(Memory),
    }
}

/// Adds the steps of a test, each with the assertions after it.
pub fn steps(
    alloc: Global,
    page: &mut Page,
    tables: &Tables,
    raises: &Option<(Line, ClassId)>,
    asserts: &[Assert],
    stmts: &[Stmt],
) -> Result<(), Memory>
    ensures { OnOk result (page.new ≡ onto page.old (body_rows tables.now raises.now 0 asserts.now stmts.now)) }
{
    let mut k = 0;
    let mut asserts = asserts;
    let mut stmts = stmts;
    loop {
        let Some((stmt, rest)) = first_of(stmts) else {
            return Ok(());
        };
        step(alloc, page, tables, raised_class(raises, rest), stmt)?;
        asserts = assertions(alloc, page, tables, k, asserts)?;
        stmts = rest;
        k = next(k)?;
    }
}
