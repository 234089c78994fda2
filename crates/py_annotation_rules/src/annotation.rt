// Faults of one annotation (PEP 484, 563 and 604).
ghost use Rattle.std.specs.Prelude.{◌≡◌, ◌&&◌, ◌||◌};
ghost use Rattle.std.specs.List.{list_any};
ghost use Rattle.py_meaning.specs.Methods.{is_among};
ghost use Rattle.py_scopes.specs.Annotations.{inner, in_quotes, is_late as is_late_name, is_faulty as is_faulty_annotation, name_faulty, none_of, quoted_of, takes_parts, whole_names};
ghost use Rattle.py_annotation_rules.specs.Found.{faulty_at, generic_takes};
ghost use Rattle.py_annotation_rules.specs.Seen.{where_seen};

use crate::parts::{built_parts, is_allowed, is_whole, takes_none, typing_parts};
use crate::scope::Scope;
use py_syntax::Annotation;
use pyn_base::Name;

/// Where an annotation is: in another one's brackets or before `| None`, in quotes, and whether it is evaluated.
#[derive(Clone, Copy)]
pub(crate) struct Where {
    inside: bool,
    quoted: bool,
    evaluated: bool,
}

impl Where {
    fn inner(self) -> Where
        ensures { where_seen result ≡ inner (where_seen self) }
    {
        Where {
            inside: true,
            quoted: self.quoted,
            evaluated: self.evaluated,
        }
    }

    fn in_quotes(self) -> Where
        ensures { where_seen result ≡ in_quotes (where_seen self) }
    {
        Where {
            inside: self.inside,
            quoted: true,
            evaluated: false,
        }
    }
}

/// Whether a name that isn't a class of the module may have so many parts.
fn takes_generic(scope: &Scope, name: &Name, count: usize) -> bool
    ensures { result ≡ generic_takes scope.now name.now count }
{
    if takes_none(name) {
        return count == 0;
    }
    if is_allowed(built_parts(name), count) {
        return true;
    }
    scope.is_import(name) && is_allowed(typing_parts(name), count)
}

/// Whether a name may have so many parts in brackets.
#[tactic(auto, using(crate::proofs::GenericParts::generic_is))]
fn takes_parts(scope: &Scope, name: &Name, count: usize) -> bool
    ensures { result ≡ takes_parts scope.now.whole.items scope.now.front name.now count }
{
    if scope.is_class(name) {
        count == 0
    } else {
        takes_generic(scope, name, count)
    }
}

/// Whether a name is that of a class that hasn't ended, or isn't imported yet.
fn is_late(scope: &Scope, name: &Name) -> bool
    ensures { result ≡ is_late_name scope.now.whole.items scope.now.front name.now }
{
    if scope.is_class(name) {
        !scope.is_earlier_class(name)
    } else {
        scope.is_import(name) && !scope.is_earlier_import(name)
    }
}

fn is_misplaced(name: &Name, at: Where) -> bool
    ensures { result ≡ (is_among whole_names name.now && (at.inside || at.quoted)) }
{
    is_whole(name) && (at.inside || at.quoted)
}

fn is_evaluated_early(scope: &Scope, name: &Name, at: Where) -> bool
    ensures { result ≡ (at.evaluated && is_late_name scope.now.whole.items scope.now.front name.now) }
{
    at.evaluated && is_late(scope, name)
}

/// Whether a name may not stand in an annotation with so many parts.
fn is_name_faulty(scope: &Scope, name: &Name, count: usize, at: Where) -> bool
    ensures { result ≡ name_faulty scope.now.whole.items scope.now.front name.now count (where_seen at) }
{
    !takes_parts(scope, name, count)
        || is_misplaced(name, at)
        || is_evaluated_early(scope, name, at)
}

#[tactic(auto, using(crate::proofs::AnnotationLevels::none_levels))]
fn is_none(annotation: &Annotation, scope: &Scope) -> bool
    ensures { result ≡ none_of scope.now.whole.items scope.now.front annotation.now }
{
    match annotation {
        Annotation::Named(_, _) => false,
        Annotation::NoneType => true,
        Annotation::OrNone(_) => false,
        Annotation::Quoted(_) => false,
    }
}

#[tactic(auto, using(crate::proofs::AnnotationLevels::quoted_levels))]
fn is_quoted(annotation: &Annotation, scope: &Scope) -> bool
    ensures { result ≡ quoted_of scope.now.whole.items scope.now.front annotation.now }
{
    match annotation {
        Annotation::Named(_, _) => false,
        Annotation::NoneType => false,
        Annotation::OrNone(_) => false,
        Annotation::Quoted(_) => true,
    }
}

/// Whether an annotation has a fault where it is.
#[cycle(annotations)]
#[tactic(auto, using(crate::proofs::AnnotationLevels::faulty_levels))]
fn is_faulty_at(annotation: &Annotation, scope: &Scope, at: Where) -> bool
    ensures { result ≡ faulty_at scope.now (where_seen at) annotation.now }
{
    match annotation {
        Annotation::Named(name, parts) => {
            is_name_faulty(scope, name, parts.len(), at)
                || any_faulty(parts.as_slice(), scope, at.inner())
        }
        Annotation::NoneType => false,
        Annotation::OrNone(part) => {
            is_wrong_before_none(part.get(), scope, at)
                || is_faulty_at(part.get(), scope, at.inner())
        }
        Annotation::Quoted(part) => is_faulty_at(part.get(), scope, at.in_quotes()),
    }
}

#[cycle(annotations)]
#[tactic(auto, using(crate::proofs::AnnotationLevels::faulty_levels))]
fn any_faulty(parts: &[Annotation], scope: &Scope, at: Where) -> bool
    ensures { result ≡ list_any (faulty_at scope.now (where_seen at)) parts.now }
{
    for part in parts {
        if is_faulty_at(part, scope, at) {
            return true;
        }
    }
    false
}

/// Whether `| None` may not stand after an annotation.
fn is_wrong_before_none(part: &Annotation, scope: &Scope, at: Where) -> bool
    ensures { result ≡ (none_of scope.now.whole.items scope.now.front part.now || (at.evaluated && quoted_of scope.now.whole.items scope.now.front part.now)) }
{
    is_none(part, scope) || (at.evaluated && is_quoted(part, scope))
}

/// Whether an annotation by itself has a fault, where it is evaluated or isn't.
pub(crate) fn is_faulty(scope: &Scope, evaluated: bool, annotation: &Annotation) -> bool
    ensures { result ≡ is_faulty_annotation scope.now.whole.items scope.now.front evaluated annotation.now }
{
    is_faulty_at(
        annotation,
        scope,
        Where {
            inside: false,
            quoted: false,
            evaluated,
        },
    )
}
