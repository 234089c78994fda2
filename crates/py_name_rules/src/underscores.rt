// Names that underscores make special or private.
ghost use Rattle.std.specs.Prelude.{◌≡◌};
ghost use Rattle.std.specs.List.{list_any};
ghost use Rattle.py_scopes.specs.NameRows.{begins_private, ends_special, mentioned, named_in};
ghost use Rattle.py_uses.specs.Seen.{seen};
ghost use Rattle.py_name_rules.specs.Underscores.{is_spelled, any_spelled};

use py_syntax::Annotation;
use py_uses::Use;
use pyn_base::Name;

/// How a name with two underscores before it is spelled.
#[derive(Clone, Copy)]
pub(crate) enum Spelling {
    /// With two underscores at its end too, which may be the same ones.
    Special,
    /// Without.
    Private,
}

fn begins_private(name: &Name) -> bool
    ensures { result ≡ begins_private name.now }
{
    name.as_str().starts_with("__")
}

fn ends_special(name: &Name) -> bool
    ensures { result ≡ ends_special name.now }
{
    name.as_str().ends_with("__")
}

/// Whether a name is spelled so.
pub(crate) fn is_spelled(spelling: Spelling, name: &Name) -> bool
    ensures { result ≡ is_spelled spelling name.now }
{
    match spelling {
        Spelling::Special => begins_private(name) && ends_special(name),
        Spelling::Private => begins_private(name) && !ends_special(name),
    }
}

/// Whether a name in an annotation is spelled so, in quotes too.
#[cycle(annotations)]
#[tactic(auto, using(crate::proofs::Annotated::annotation_levels))]
fn any_spelled(spelling: Spelling, annotation: &Annotation) -> bool
    ensures { result ≡ any_spelled spelling annotation.now }
{
    match annotation {
        Annotation::Named(name, parts) => {
            is_spelled(spelling, name) || any_part_spelled(spelling, parts.as_slice())
        }
        Annotation::NoneType => false,
        Annotation::OrNone(part) => any_spelled(spelling, part.get()),
        Annotation::Quoted(part) => any_spelled(spelling, part.get()),
    }
}

#[cycle(annotations)]
#[tactic(auto, using(crate::proofs::Annotated::annotation_levels))]
fn any_part_spelled(spelling: Spelling, parts: &[Annotation]) -> bool
    ensures { result ≡ list_any (any_spelled spelling) parts.now }
{
    for part in parts {
        if any_spelled(spelling, part) {
            return true;
        }
    }
    false
}

/// Whether a name that is used is spelled so. The names of functions, and `__init__` after `super().`, don't count.
#[tactic(auto, using(crate::proofs::Annotated::one_name), unfolding(std::specs::Prelude::chars))]
pub(crate) fn mentions(spelling: Spelling, use_: Use<'_>) -> bool
    ensures { result ≡ list_any (is_spelled spelling) (mentioned (seen use_.entry)) }
{
    match use_ {
        Use::Reads(name) => is_spelled(spelling, name),
        Use::Binds(name) => is_spelled(spelling, name),
        Use::Attribute(name) => is_spelled(spelling, name),
        Use::Super(name) => !name.is("__init__") && is_spelled(spelling, name),
        Use::Argument(name) => is_spelled(spelling, name),
        Use::Catches(name) => is_spelled(spelling, name),
        Use::Defines(_) => false,
        Use::Based(name) => is_spelled(spelling, name),
        Use::Imported(name) => is_spelled(spelling, name),
        Use::Annotated(annotation) => any_spelled(spelling, annotation),
        Use::MixedArguments => false,
        Use::NoLoop => false,
        Use::NoClause => false,
    }
}

/// Whether a name that is used or defined is spelled so.
#[tactic(auto, using(crate::proofs::Annotated::one_name))]
pub(crate) fn names(spelling: Spelling, use_: Use<'_>) -> bool
    ensures { result ≡ list_any (is_spelled spelling) (named_in (seen use_.entry)) }
{
    match use_ {
        Use::Defines(name) => is_spelled(spelling, name),
        _ => mentions(spelling, use_),
    }
}
