// Headers of compound statements (Language Reference, chapter 8).
ghost use Rattle.std.specs.Prelude.{◌≡◌, ◌∷◌, ◌++◌, [], map, true, OnOk};
ghost use Rattle.py_language.specs.declared.token.Token.TheVariants as t;
ghost use Rattle.py_language.specs.TreesPlaces.{Conditional};
ghost use Rattle.py_grammar.specs.declared.form.Header.TheVariants as h;
ghost use Rattle.py_printing.specs.Expressions.{expr_tokens};
ghost use Rattle.py_layout.specs.Small.{list_tokens};
ghost use Rattle.py_layout.specs.Headers.{as_tokens, base_tokens, classes_tokens, colon, header_tokens, lone, param_tokens, returns_tokens};
ghost use Rattle.py_printer.specs.Style.{write};
ghost use Rattle.py_annotation_layout.specs.Annotations.{annotation_tokens};
ghost use Rattle.module_printer.specs.Lines.{classes_by, commas, default_tokens, handled_tokens};

use crate::annotations::annotation;
use crate::lists::{comma, end_tuple, names};
use crate::targets::typed;
use py_language::{Keyword, Mark};
use py_printer::Pen;
use py_syntax::{Annotation, Expr, Param};
use pyn_base::{Memory, Name};
use sqlite_items::Items;
use std::alloc::Global;

/// Adds a keyword, a test and a colon.
#[tactic(auto, using(crate::proofs::Writes::write_append))]
pub fn tested(pen: &mut Pen, keyword: Keyword, test: &Expr) -> Result<(), Memory>
    ensures { OnOk result (pen.new ≡ write pen.old ((t.Keyword keyword ∷ expr_tokens Conditional test.now) ++ colon)) }
{
    pen.keyword(keyword)?;
    pen.conditional(test)?;
    pen.mark(Mark::Colon)
}

/// Adds a keyword and a colon.
pub fn word(pen: &mut Pen, keyword: Keyword) -> Result<(), Memory>
    ensures { OnOk result (pen.new ≡ write pen.old ((t.Keyword keyword ∷ []) ++ colon)) }
{
    pen.keyword(keyword)?;
    pen.mark(Mark::Colon)
}

/// Adds names, with a comma after the only one of a tuple.
#[tactic(auto, using(crate::proofs::Writes::write_append, crate::proofs::Commas::list_of))]
fn name_list(pen: &mut Pen, is_tuple: bool, all: &[Name]) -> Result<(), Memory>
    ensures { OnOk result (pen.new ≡ write pen.old (list_tokens is_tuple (map lone all.now))) }
{
    names(pen, all)?;
    end_tuple(pen, is_tuple, all.len())
}

/// Adds the header of a `for`.
#[tactic(auto, using(crate::proofs::Writes::write_append))]
pub fn for_in(pen: &mut Pen, all: &[Name], is_tuple: bool, walked: &Expr) -> Result<(), Memory>
    ensures { OnOk result (pen.new ≡ write pen.old (header_tokens annotation_tokens (h.For all.now is_tuple walked.now))) }
{
    pen.keyword(Keyword::For)?;
    name_list(pen, is_tuple, all)?;
    pen.keyword(Keyword::In)?;
    pen.listed(walked)?;
    pen.mark(Mark::Colon)
}

/// Adds one class alone, or classes in brackets.
#[tactic(auto, using(crate::proofs::Writes::write_append))]
fn classes_in(pen: &mut Pen, alone: bool, all: &[Name]) -> Result<(), Memory>
    ensures { OnOk result (pen.new ≡ write pen.old (classes_by alone all.now)) }
{
    if alone {
        return names(pen, all);
    }
    pen.mark(Mark::LeftParen)?;
    names(pen, all)?;
    pen.mark(Mark::RightParen)
}

/// Adds one class, or several in brackets.
#[tactic(auto, using(crate::proofs::HeaderForms::classes_are))]
fn classes(pen: &mut Pen, all: &[Name]) -> Result<(), Memory>
    ensures { OnOk result (pen.new ≡ write pen.old (classes_tokens all.now)) }
{
    classes_in(pen, all.len() == 1, all)
}

/// Adds the name after `as`, if there is one.
fn as_name(pen: &mut Pen, name: &Option<Name>) -> Result<(), Memory>
    ensures { OnOk result (pen.new ≡ write pen.old (as_tokens name.now)) }
{
    match name {
        None => Ok(()),
        Some(name) => {
            pen.keyword(Keyword::As)?;
            pen.name(name)
        }
    }
}

/// Adds the classes of an `except` clause and the name after `as`, if there are any.
#[tactic(auto, using(crate::proofs::Writes::write_append))]
fn handled(pen: &mut Pen, all: &Option<Items<Name>>, name: &Option<Name>) -> Result<(), Memory>
    ensures { OnOk result (pen.new ≡ write pen.old (handled_tokens all.now name.now)) }
{
    match all {
        None => Ok(()),
        Some(all) => {
            classes(pen, all.as_slice())?;
            as_name(pen, name)
        }
    }
}

/// Adds the header of an `except` clause.
#[tactic(auto, using(crate::proofs::Writes::write_append, crate::proofs::HeaderForms::except_is))]
pub fn except(pen: &mut Pen, all: &Option<Items<Name>>, name: &Option<Name>) -> Result<(), Memory>
    ensures { OnOk result (pen.new ≡ write pen.old (header_tokens annotation_tokens (h.Except all.now name.now))) }
{
    pen.keyword(Keyword::Except)?;
    handled(pen, all, name)?;
    pen.mark(Mark::Colon)
}

/// Adds the default of a parameter, if there is one.
fn default(pen: &mut Pen, x: &Option<Expr>) -> Result<(), Memory>
    ensures { OnOk result (pen.new ≡ write pen.old (default_tokens x.now)) }
{
    match x {
        None => Ok(()),
        Some(x) => {
            pen.mark(Mark::Equal)?;
            pen.conditional(x)
        }
    }
}

/// Adds a parameter.
#[tactic(auto, using(crate::proofs::Writes::write_append, crate::proofs::HeaderForms::default_after))]
fn param(alloc: Global, pen: &mut Pen, x: &Param) -> Result<(), Memory>
    ensures { OnOk result (pen.new ≡ write pen.old (param_tokens annotation_tokens x.now)) }
{
    pen.name(&x.name)?;
    typed(alloc, pen, &x.annotation)?;
    default(pen, &x.default)
}

/// Adds parameters with commas between them.
fn params(alloc: Global, pen: &mut Pen, all: &[Param]) -> Result<(), Memory>
    ensures { OnOk result (pen.new ≡ write pen.old (commas true (map (param_tokens annotation_tokens) all.now))) }
{
    let mut first = true;
    for x in all {
        comma(pen, first)?;
        param(alloc, pen, x)?;
        first = false;
    }
    Ok(())
}

/// Adds the annotation of a result, if there is one.
fn annotated_result(alloc: Global, pen: &mut Pen, x: &Option<Annotation>) -> Result<(), Memory>
    ensures { OnOk result (pen.new ≡ write pen.old (returns_tokens annotation_tokens x.now)) }
{
    match x {
        None => Ok(()),
        Some(x) => {
            pen.mark(Mark::Arrow)?;
            annotation(alloc, pen, x)
        }
    }
}

/// Adds the header of a `def`.
#[tactic(auto, using(crate::proofs::Writes::write_append, crate::proofs::Commas::commas_joined))]
pub fn def(
    alloc: Global,
    pen: &mut Pen,
    name: &Name,
    all: &[Param],
    of_result: &Option<Annotation>,
) -> Result<(), Memory>
    ensures { OnOk result (pen.new ≡ write pen.old (header_tokens annotation_tokens (h.Def name.now all.now of_result.now))) }
{
    pen.keyword(Keyword::Def)?;
    pen.name(name)?;
    pen.mark(Mark::LeftParen)?;
    params(alloc, pen, all)?;
    pen.mark(Mark::RightParen)?;
    annotated_result(alloc, pen, of_result)?;
    pen.mark(Mark::Colon)
}

/// Adds the base of a class in brackets, if there is one.
fn base_class(pen: &mut Pen, base: &Option<Name>) -> Result<(), Memory>
    ensures { OnOk result (pen.new ≡ write pen.old (base_tokens base.now)) }
{
    match base {
        None => Ok(()),
        Some(base) => {
            pen.mark(Mark::LeftParen)?;
            pen.name(base)?;
            pen.mark(Mark::RightParen)
        }
    }
}

/// Adds the header of a `class`.
#[tactic(auto, using(crate::proofs::Writes::write_append))]
pub fn class(pen: &mut Pen, name: &Name, base: &Option<Name>) -> Result<(), Memory>
    ensures { OnOk result (pen.new ≡ write pen.old (header_tokens annotation_tokens (h.Class name.now base.now))) }
{
    pen.keyword(Keyword::Class)?;
    pen.name(name)?;
    base_class(pen, base)?;
    pen.mark(Mark::Colon)
}
