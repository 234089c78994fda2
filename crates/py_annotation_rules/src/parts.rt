// How many parts in brackets a name may have in an annotation (the manual's chapter on typing).
ghost use Rattle.std.specs.Prelude.{◌≡◌, ◌||◌, chars, map};
ghost use Rattle.std.specs.Option.{option_map};
ghost use Rattle.py_meaning.specs.Methods.{named, is_among};
ghost use Rattle.py_scopes.specs.Annotations.{allows, built_generics, typing_names, whole_names, plain_names, is_exception_name};
ghost use Rattle.py_annotation_rules.specs.Found.{allowed};
ghost use Rattle.py_annotation_rules.specs.Seen.{parts_seen};

use py_module_rules::is_exception_name;
use pyn_base::Name;

/// How many parts in brackets a name may have.
#[derive(Clone, Copy)]
pub(crate) enum Parts {
    NoParts,
    NoneOr(usize),
    Exactly(usize),
    AtLeastOne,
    AnyNumber,
}

fn allows(parts: Parts, count: usize) -> bool
    ensures { result ≡ allows (parts_seen parts) count }
{
    match parts {
        Parts::NoParts => count == 0,
        Parts::NoneOr(k) => count == 0 || count == k,
        Parts::Exactly(k) => count == k,
        Parts::AtLeastOne => 1 <= count,
        Parts::AnyNumber => true,
    }
}

/// Whether a name that is in a table may have so many parts.
pub(crate) fn is_allowed(parts: Option<Parts>, count: usize) -> bool
    ensures { result ≡ allowed (option_map parts_seen parts) count }
{
    match parts {
        None => false,
        Some(parts) => allows(parts, count),
    }
}

/// What a table has under a name.
fn row_named<M: Copy>(rows: &[(&str, M)], name: &Name) -> Option<M>
    ensures { result ≡ named (map (λ row. (chars row.0.now, row.1)) rows.now) name.now }
{
    for row in rows {
        if name.is(row.0) {
            return Some(row.1);
        }
    }
    None
}

/// Of names that are there without an import.
#[tactic(auto, using(crate::proofs::TableRows::of_rows), unfolding(std::specs::Prelude::chars))]
pub(crate) fn built_parts(name: &Name) -> Option<Parts>
    ensures { option_map parts_seen result ≡ named built_generics name.now }
{
    row_named(
        &[
            ("list", Parts::NoneOr(1)),
            ("dict", Parts::NoneOr(2)),
            ("tuple", Parts::AnyNumber),
        ],
        name,
    )
}

/// Of names that may be imported from typing.
#[tactic(auto, using(crate::proofs::TableRows::of_rows), unfolding(std::specs::Prelude::chars))]
pub(crate) fn typing_parts(name: &Name) -> Option<Parts>
    ensures { option_map parts_seen result ≡ named typing_names name.now }
{
    row_named(
        &[
            ("List", Parts::NoneOr(1)),
            ("Collection", Parts::NoneOr(1)),
            ("Container", Parts::NoneOr(1)),
            ("FrozenSet", Parts::NoneOr(1)),
            ("Iterable", Parts::NoneOr(1)),
            ("Iterator", Parts::NoneOr(1)),
            ("MutableSequence", Parts::NoneOr(1)),
            ("Sequence", Parts::NoneOr(1)),
            ("Set", Parts::NoneOr(1)),
            ("Type", Parts::NoneOr(1)),
            ("Dict", Parts::NoneOr(2)),
            ("DefaultDict", Parts::NoneOr(2)),
            ("Mapping", Parts::NoneOr(2)),
            ("MutableMapping", Parts::NoneOr(2)),
            ("Tuple", Parts::AnyNumber),
            ("Optional", Parts::Exactly(1)),
            ("Union", Parts::AtLeastOne),
            ("ClassVar", Parts::NoneOr(1)),
            ("Final", Parts::NoneOr(1)),
            ("NoReturn", Parts::NoParts),
            ("Any", Parts::NoParts),
            ("Callable", Parts::NoParts),
        ],
        name,
    )
}

/// Whether a name is a whole annotation or none.
#[tactic(auto, unfolding(std::specs::Prelude::chars))]
pub(crate) fn is_whole(name: &Name) -> bool
    ensures { result ≡ is_among whole_names name.now }
{
    name.is("ClassVar") || (name.is("Final") || name.is("NoReturn"))
}

#[tactic(auto, unfolding(std::specs::Prelude::chars))]
fn is_plain(name: &Name) -> bool
    ensures { result ≡ is_among plain_names name.now }
{
    name.is("int") || (name.is("bool") || (name.is("str") || name.is("object")))
}

/// Whether a name is that of a built-in class which takes no parts.
pub(crate) fn takes_none(name: &Name) -> bool
    ensures { result ≡ (is_among plain_names name.now || is_exception_name name.now) }
{
    is_plain(name) || is_exception_name(name)
}
