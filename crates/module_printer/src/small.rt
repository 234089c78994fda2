// Small statements (Language Reference, chapter 7).
ghost use Rattle.std.specs.Prelude.{◌≡◌, OnOk};
ghost use Rattle.py_language.specs.TreesPlaces.{Listed, Conditional};
ghost use Rattle.py_layout.specs.Small.{maybe_tokens, message_tokens, small_tokens};
ghost use Rattle.py_printer.specs.Style.{write};
ghost use Rattle.py_annotation_layout.specs.Annotations.{annotation_tokens};

use crate::targets::{assignment, augmented, subscript};
use py_language::{Keyword, Mark};
use py_printer::Pen;
use py_syntax::{Expr, StmtKind};
use pyn_base::Memory;
use std::alloc::Global;

fn maybe_listed(pen: &mut Pen, x: &Option<Expr>) -> Result<(), Memory>
    ensures { OnOk result (pen.new ≡ write pen.old (maybe_tokens Listed x.now)) }
{
    match x {
        None => Ok(()),
        Some(x) => pen.listed(x),
    }
}

fn maybe_conditional(pen: &mut Pen, x: &Option<Expr>) -> Result<(), Memory>
    ensures { OnOk result (pen.new ≡ write pen.old (maybe_tokens Conditional x.now)) }
{
    match x {
        None => Ok(()),
        Some(x) => pen.conditional(x),
    }
}

/// Adds a comma and a message, if there is one.
fn message(pen: &mut Pen, x: &Option<Expr>) -> Result<(), Memory>
    ensures { OnOk result (pen.new ≡ write pen.old (message_tokens x.now)) }
{
    match x {
        None => Ok(()),
        Some(x) => {
            pen.mark(Mark::Comma)?;
            pen.conditional(x)
        }
    }
}

/// Adds a small statement; a compound one adds nothing.
#[tactic(auto, using(crate::proofs::Writes::write_append, crate::proofs::SmallLevels::small_levels))]
pub fn small_statement(alloc: Global, pen: &mut Pen, kind: &StmtKind) -> Result<(), Memory>
    ensures { OnOk result (pen.new ≡ write pen.old (small_tokens annotation_tokens kind.now)) }
{
    match kind {
        StmtKind::Pass => pen.keyword(Keyword::Pass),
        StmtKind::Break => pen.keyword(Keyword::Break),
        StmtKind::Continue => pen.keyword(Keyword::Continue),
        StmtKind::Return(x) => {
            pen.keyword(Keyword::Return)?;
            maybe_listed(pen, x)
        }
        StmtKind::Raise(x) => {
            pen.keyword(Keyword::Raise)?;
            maybe_conditional(pen, x)
        }
        StmtKind::Assert(test, said) => {
            pen.keyword(Keyword::Assert)?;
            pen.conditional(test)?;
            message(pen, said)
        }
        StmtKind::Del(of, at) => {
            pen.keyword(Keyword::Del)?;
            subscript(pen, of, at)
        }
        StmtKind::Assign(all, is_tuple, of_type, value) => {
            assignment(alloc, pen, all.as_slice(), *is_tuple, of_type, value)
        }
        StmtKind::Augment(changed, op, value) => augmented(pen, changed, *op, value),
        StmtKind::Bare(x) => pen.listed(x),
        _ => Ok(()),
    }
}
