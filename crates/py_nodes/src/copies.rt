// Copies of names and annotations.
ghost use Rattle.std.specs.Prelude.{◌≡◌, IfOk};

use py_syntax::Annotation;
use pyn_base::{Memory, Name};
use sqlite_items::{Boxed, Items};
use std::alloc::Global;

pub fn names_copy(alloc: Global, names: &[Name]) -> Result<Items<Name>, Memory>
    ensures { IfOk result (λ all. all ≡ names.now) }
{
    let mut all = Items::new(alloc);
    for name in names {
        all.push(name.to_owned(alloc)?)?;
    }
    Ok(all)
}

pub fn maybe_names(
    alloc: Global,
    names: &Option<Items<Name>>,
) -> Result<Option<Items<Name>>, Memory>
    ensures { IfOk result (λ all. all ≡ names.now) }
{
    match names {
        None => Ok(None),
        Some(names) => Ok(Some(names_copy(alloc, names.as_slice())?)),
    }
}

pub fn maybe_name(alloc: Global, name: &Option<Name>) -> Result<Option<Name>, Memory>
    ensures { IfOk result (λ copy. copy ≡ name.now) }
{
    match name {
        None => Ok(None),
        Some(name) => Ok(Some(name.to_owned(alloc)?)),
    }
}

#[cycle(copies)]
fn annotation(alloc: Global, one: &Annotation) -> Result<Annotation, Memory>
    ensures { IfOk result (λ copy. copy ≡ one.now) }
{
    match one {
        Annotation::NoneType => Ok(Annotation::NoneType),
        Annotation::Named(name, parts) => {
            let parts = annotations(alloc, parts.as_slice())?;
            Ok(Annotation::Named(name.to_owned(alloc)?, parts))
        }
        Annotation::OrNone(part) => {
            let part = annotation(alloc, part.get())?;
            Ok(Annotation::OrNone(Boxed::new(alloc, part)?))
        }
        Annotation::Quoted(part) => {
            let part = annotation(alloc, part.get())?;
            Ok(Annotation::Quoted(Boxed::new(alloc, part)?))
        }
    }
}

#[cycle(copies)]
fn annotations(alloc: Global, parts: &[Annotation]) -> Result<Items<Annotation>, Memory>
    ensures { IfOk result (λ all. all ≡ parts.now) }
{
    let mut all = Items::new(alloc);
    for part in parts {
        let copy = annotation(alloc, part)?;
        all.push(copy)?;
    }
    Ok(all)
}

pub fn maybe_annotation(
    alloc: Global,
    one: &Option<Annotation>,
) -> Result<Option<Annotation>, Memory>
    ensures { IfOk result (λ copy. copy ≡ one.now) }
{
    match one {
        None => Ok(None),
        Some(one) => Ok(Some(annotation(alloc, one)?)),
    }
}
