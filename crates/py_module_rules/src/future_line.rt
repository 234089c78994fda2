// Where the future line may stand (PEP 563 and Language Reference 7.11.1).
ghost use Rattle.std.specs.Prelude.{◌≡◌, IfOk};
ghost use Rattle.py_syntax.specs.declared.stmt.StmtKind.{out-StmtKind};
ghost use Rattle.py_scopes.specs.ModuleRows.{is_string, is_text, is_text_by, import_lines};
ghost use Rattle.py_scopes.specs.Refusals.{least};
ghost use Rattle.py_module_rules.specs.Pieces.{after_docstring, future_of};

use crate::lines::Lines;
use py_syntax::{Expr, ExprKind, Item, Line, Stmt, StmtKind};
use pyn_base::Memory;
use std::alloc::Global;

/// Whether an expression is a string.
#[tactic(auto, using(crate::proofs::Variants::expression_kinds))]
pub(crate) fn is_string(x: &Expr) -> bool
    ensures { result ≡ is_string x.now }
{
    match &x.kind {
        ExprKind::StrLit(_) => true,
        _ => false,
    }
}

#[tactic(auto, using(crate::proofs::Variants::statement_kinds))]
fn is_text_stmt(stmt: &Stmt) -> bool
    ensures { result ≡ is_text_by (out-StmtKind stmt.now.kind) }
{
    match &stmt.kind {
        StmtKind::Bare(x) => is_string(x),
        _ => false,
    }
}

/// Whether an item is a string alone.
fn is_text(item: &Item) -> bool
    ensures { result ≡ is_text item.now }
{
    match item {
        Item::Other(stmt) => is_text_stmt(stmt),
        _ => false,
    }
}

/// The items after the docstring, or all.
fn after_docstring(items: &[Item]) -> &[Item]
    ensures { result.now ≡ after_docstring items.now }
{
    match items.first() {
        Some(first) => {
            if is_text(first) {
                let (_, rest) = items.split_at(1);
                rest
            } else {
                items
            }
        }
        None => items,
    }
}

/// The line of a future line.
fn future_line(item: &Item) -> Option<Line>
    ensures { result ≡ future_of item.now }
{
    match item {
        Item::Import(line, names) => { if names.is_empty() { Some(*line) } else { None } }
        _ => None,
    }
}

/// The line of the first future line that stands after anything but a docstring or another such line.
pub(crate) fn import_order(alloc: Global, items: &[Item]) -> Result<Option<Line>, Memory>
    ensures { IfOk result (λ line. line ≡ least (import_lines items.now)) }
{
    let mut lines = Lines::new(alloc);
    let mut late = false;
    let rest = after_docstring(items);
    for item in rest {
        match future_line(item) {
            Some(line) => lines.add_if(late, line)?,
            None => late = true,
        }
    }
    Ok(lines.least())
}
