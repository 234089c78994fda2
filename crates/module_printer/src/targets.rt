// Targets, and what assigns to them (Language Reference 7.2).
ghost use Rattle.std.specs.Prelude.{◌≡◌, ◌++◌, ◌∷◌, map, true, OnOk};
ghost use Rattle.py_language.specs.declared.token.Token.TheVariants as t;
ghost use Rattle.py_language.specs.declared.token.Mark.TheVariants as m;
ghost use Rattle.py_language.specs.TreesPlaces.{Listed};
ghost use Rattle.py_printing.specs.Expressions.{expr_tokens};
ghost use Rattle.py_layout.specs.Small.{indexed, target_tokens, list_tokens, typed_tokens, augmenting_token};
ghost use Rattle.py_printer.specs.Style.{write};
ghost use Rattle.py_annotation_layout.specs.Annotations.{annotation_tokens};
ghost use Rattle.module_printer.specs.Lines.{commas};

use crate::annotations::annotation;
use crate::lists::{comma, end_tuple};
use py_language::Mark;
use py_printer::Pen;
use py_syntax::{Annotation, BinOp, Expr, Target};
use pyn_base::Memory;
use std::alloc::Global;

/// Adds an object and an index.
#[tactic(auto, using(crate::proofs::Writes::write_append))]
pub fn subscript(pen: &mut Pen, of: &Expr, at: &Expr) -> Result<(), Memory>
    ensures { OnOk result (pen.new ≡ write pen.old (indexed of.now at.now)) }
{
    pen.postfix(of)?;
    pen.mark(Mark::LeftBracket)?;
    pen.listed(at)?;
    pen.mark(Mark::RightBracket)
}

/// Adds a target.
#[tactic(auto, using(crate::proofs::Writes::write_append))]
pub fn target(pen: &mut Pen, x: &Target) -> Result<(), Memory>
    ensures { OnOk result (pen.new ≡ write pen.old (target_tokens x.now)) }
{
    match x {
        Target::Name(name) => pen.name(name),
        Target::Attr(of, name) => {
            pen.postfix(of)?;
            pen.mark(Mark::Dot)?;
            pen.name(name)
        }
        Target::Index(of, at) => subscript(pen, of, at),
    }
}

/// Adds targets with commas between them.
fn targets(pen: &mut Pen, all: &[Target]) -> Result<(), Memory>
    ensures { OnOk result (pen.new ≡ write pen.old (commas true (map target_tokens all.now))) }
{
    let mut first = true;
    for x in all {
        comma(pen, first)?;
        target(pen, x)?;
        first = false;
    }
    Ok(())
}

/// Adds targets, with a comma after the only one of a tuple.
#[tactic(auto, using(crate::proofs::Writes::write_append, crate::proofs::Commas::list_of))]
fn target_list(pen: &mut Pen, is_tuple: bool, all: &[Target]) -> Result<(), Memory>
    ensures { OnOk result (pen.new ≡ write pen.old (list_tokens is_tuple (map target_tokens all.now))) }
{
    targets(pen, all)?;
    end_tuple(pen, is_tuple, all.len())
}

/// Adds a colon and an annotation, if there is one.
pub fn typed(alloc: Global, pen: &mut Pen, x: &Option<Annotation>) -> Result<(), Memory>
    ensures { OnOk result (pen.new ≡ write pen.old (typed_tokens annotation_tokens x.now)) }
{
    match x {
        None => Ok(()),
        Some(x) => {
            pen.mark(Mark::Colon)?;
            annotation(alloc, pen, x)
        }
    }
}

/// Adds an assignment.
#[tactic(auto, using(crate::proofs::Writes::write_append))]
pub fn assignment(
    alloc: Global,
    pen: &mut Pen,
    all: &[Target],
    is_tuple: bool,
    of_type: &Option<Annotation>,
    value: &Expr,
) -> Result<(), Memory>
    ensures { OnOk result (pen.new ≡ write pen.old (list_tokens is_tuple (map target_tokens all.now) ++ (typed_tokens annotation_tokens of_type.now ++ t.Mark m.Equal ∷ expr_tokens Listed value.now))) }
{
    target_list(pen, is_tuple, all)?;
    typed(alloc, pen, of_type)?;
    pen.mark(Mark::Equal)?;
    pen.listed(value)
}

fn augmenting_mark(op: BinOp) -> Mark
    ensures { t.Mark result ≡ augmenting_token op }
{
    match op {
        BinOp::Add => Mark::PlusEqual,
        BinOp::Sub => Mark::MinusEqual,
        BinOp::Mul => Mark::StarEqual,
        BinOp::FloorDiv => Mark::DoubleSlashEqual,
        BinOp::Mod => Mark::PercentEqual,
    }
}

/// Adds an augmented assignment.
#[tactic(auto, using(crate::proofs::Writes::write_append))]
pub fn augmented(pen: &mut Pen, changed: &Target, op: BinOp, value: &Expr) -> Result<(), Memory>
    ensures { OnOk result (pen.new ≡ write pen.old (target_tokens changed.now ++ augmenting_token op ∷ expr_tokens Listed value.now)) }
{
    target(pen, changed)?;
    pen.mark(augmenting_mark(op))?;
    pen.listed(value)
}
