// The types that annotations name.
ghost use Rattle.std.specs.Prelude.{◌≡◌, map, IfOk};
ghost use Rattle.std.specs.Option.{option_map};
ghost use Rattle.py_meaning.specs.Methods.{named};
ghost use Rattle.py_plain.specs.BuiltNames.{built_classes};
ghost use Rattle.suite_model.specs.Types.{type_of_annotation, annotated, type_named, named_types, first_of, second_of, built_type, is_built_exception};
ghost use Rattle.test_chromosome.specs.Formers.{formed, exception_of};

use py_syntax::Annotation;
use py_tables::{Tables, built_class_named};
use pyn_base::{BuiltClass, ClassId, Memory, Name};
use sqlite_items::{Boxed, Items};
use std::alloc::Global;
use suite_model::Ty;

/// The type of an annotation; nothing is known where there is none.
pub fn type_of_annotation(
    alloc: Global,
    tables: &Tables,
    annotation: &Option<Annotation>,
) -> Result<Ty, Memory>
    ensures { IfOk result (λ t. t ≡ type_of_annotation tables.now.classes annotation.now) }
{
    match annotation {
        None => Ok(Ty::Any),
        Some(annotation) => annotated(alloc, tables, annotation),
    }
}

#[cycle(annotated)]
#[tactic(auto, using(crate::proofs::AnnotationLevels::levels))]
fn annotated(alloc: Global, tables: &Tables, annotation: &Annotation) -> Result<Ty, Memory>
    ensures { IfOk result (λ t. t ≡ annotated tables.now.classes annotation.now) }
{
    match annotation {
        Annotation::Named(name, parts) => {
            let types = all_annotated(alloc, tables, parts.as_slice())?;
            type_named(alloc, tables, name, types)
        }
        Annotation::NoneType => Ok(Ty::NoneType),
        Annotation::OrNone(inner) => {
            let inner = annotated(alloc, tables, inner.get())?;
            Ok(Ty::OrNone(Boxed::new(alloc, inner)?))
        }
        Annotation::Quoted(inner) => annotated(alloc, tables, inner.get()),
    }
}

#[cycle(annotated)]
fn all_annotated(alloc: Global, tables: &Tables, parts: &[Annotation]) -> Result<Items<Ty>, Memory>
    ensures { IfOk result (λ types. types ≡ map (annotated tables.now.classes) parts.now) }
{
    let mut types = Items::new(alloc);
    for part in parts {
        types.push(annotated(alloc, tables, part)?)?;
    }
    Ok(types)
}

/// A class of the module, else a type of the language, else a built-in exception.
fn type_named(alloc: Global, tables: &Tables, name: &Name, parts: Items<Ty>) -> Result<Ty, Memory>
    ensures { IfOk result (λ t. t ≡ type_named tables.now.classes name.now parts) }
{
    if let Some(class) = tables.class_named(name) {
        return Ok(Ty::Class(class));
    }
    if let Some(former) = former_named(name) {
        return formed(alloc, former, parts);
    }
    match exception_named(tables, name) {
        Some(class) => Ok(Ty::Class(ClassId::Built(class))),
        None => Ok(Ty::Any),
    }
}

/// What a name of the language makes of the types in its brackets.
#[derive(Clone, Copy)]
pub(crate) enum Former {
    Int,
    Bool,
    Str,
    List,
    Dict,
    Optional,
}

#[tactic(auto, unfolding(std::specs::Prelude::chars))]
fn former_named(name: &Name) -> Option<Former>
    ensures { option_map formed result ≡ named named_types name.now }
{
    if name.is("int") {
        return Some(Former::Int);
    }
    if name.is("bool") {
        return Some(Former::Bool);
    }
    if name.is("str") {
        return Some(Former::Str);
    }
    if name.is("list") {
        return Some(Former::List);
    }
    if name.is("List") {
        return Some(Former::List);
    }
    if name.is("dict") {
        return Some(Former::Dict);
    }
    if name.is("Dict") {
        return Some(Former::Dict);
    }
    if name.is("Optional") {
        return Some(Former::Optional);
    }
    None
}

fn formed(alloc: Global, former: Former, parts: Items<Ty>) -> Result<Ty, Memory>
    ensures { IfOk result (λ t. t ≡ formed former parts) }
{
    match former {
        Former::Int => Ok(Ty::Int),
        Former::Bool => Ok(Ty::Bool),
        Former::Str => Ok(Ty::Str),
        Former::List => {
            let (first, _) = first_two(parts);
            Ok(Ty::List(Boxed::new(alloc, first)?))
        }
        Former::Dict => {
            let (key, value) = first_two(parts);
            let key = Boxed::new(alloc, key)?;
            Ok(Ty::Dict(key, Boxed::new(alloc, value)?))
        }
        Former::Optional => {
            let (first, _) = first_two(parts);
            Ok(Ty::OrNone(Boxed::new(alloc, first)?))
        }
    }
}

/// The first two types; nothing is known of one that isn't there.
#[tactic(auto, using(crate::proofs::AnnotationLevels::first_is, crate::proofs::AnnotationLevels::second_is))]
fn first_two(parts: Items<Ty>) -> (Ty, Ty)
    ensures first { result.0 ≡ first_of parts }
    ensures second { result.1 ≡ second_of parts }
{
    let mut parts = parts;
    if parts.len() == 0 {
        return (Ty::Any, Ty::Any);
    }
    let first = parts.remove(0);
    if parts.len() == 0 {
        return (first, Ty::Any);
    }
    (first, parts.remove(0))
}

/// The built-in exception of a name.
fn exception_named(tables: &Tables, name: &Name) -> Option<BuiltClass>
    ensures { option_map exception_of result ≡ built_type (named built_classes name.now) }
{
    match built_class_named(name) {
        None => None,
        Some(class) => {
            if is_built_exception(tables, class) {
                Some(class)
            } else {
                None
            }
        }
    }
}

#[tactic(auto, using(crate::proofs::AnnotationLevels::exception_is))]
fn is_built_exception(tables: &Tables, class: BuiltClass) -> bool
    ensures { result ≡ is_built_exception class }
{
    tables.is_exception(ClassId::Built(class))
}
