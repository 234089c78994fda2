// Annotations (Language Reference 7.2.2 and 8.7).
ghost use Rattle.std.specs.Prelude.{◌≡◌, map, true, OnOk};
ghost use Rattle.py_printer.specs.Style.{write};
ghost use Rattle.py_annotation_layout.specs.Annotations.{annotation_tokens};
ghost use Rattle.module_printer.specs.Lines.{commas, parts_tokens};

use crate::lists::comma;
use py_language::{Keyword, Mark};
use py_printer::Pen;
use py_syntax::Annotation;
use pyn_base::{Memory, Text};
use std::alloc::Global;

/// Adds an annotation. One in a string is the text of its own tokens.
#[cycle(annotations)]
#[tactic(auto, using(crate::proofs::AnnotationLevels::annotation_levels, crate::proofs::Writes::write_append))]
pub fn annotation(alloc: Global, pen: &mut Pen, x: &Annotation) -> Result<(), Memory>
    ensures { OnOk result (pen.new ≡ write pen.old (annotation_tokens x.now)) }
{
    match x {
        Annotation::Named(name, all) => {
            pen.name(name)?;
            in_brackets(alloc, pen, all.as_slice())
        }
        Annotation::NoneType => pen.keyword(Keyword::NoneLit),
        Annotation::OrNone(part) => {
            annotation(alloc, pen, part.get())?;
            pen.mark(Mark::Pipe)?;
            pen.keyword(Keyword::NoneLit)
        }
        Annotation::Quoted(part) => {
            let mut inner = Pen::new(alloc, Text::new(alloc));
            annotation(alloc, &mut inner, part.get())?;
            pen.string(&inner.text)
        }
    }
}

/// Adds the parts of a name in brackets, if there are any.
#[cycle(annotations)]
#[tactic(auto, using(crate::proofs::Writes::write_append))]
fn in_brackets(alloc: Global, pen: &mut Pen, all: &[Annotation]) -> Result<(), Memory>
    ensures { OnOk result (pen.new ≡ write pen.old (parts_tokens all.now)) }
{
    if all.is_empty() {
        return Ok(());
    }
    pen.mark(Mark::LeftBracket)?;
    parts(alloc, pen, all)?;
    pen.mark(Mark::RightBracket)
}

/// Adds annotations with commas between them.
#[cycle(annotations)]
fn parts(alloc: Global, pen: &mut Pen, all: &[Annotation]) -> Result<(), Memory>
    ensures { OnOk result (pen.new ≡ write pen.old (commas true (map annotation_tokens all.now))) }
{
    let mut first = true;
    for x in all {
        comma(pen, first)?;
        annotation(alloc, pen, x)?;
        first = false;
    }
    Ok(())
}
