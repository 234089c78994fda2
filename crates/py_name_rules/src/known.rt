// The names of a module, and those that are known without it.
ghost use Rattle.std.specs.Prelude.{◌≡◌, ◌++◌, bytes_eq, chars, IfOk, OnOk};
ghost use Rattle.std.specs.List.{flat_map, list_any};
ghost use Rattle.std.specs.Option.{option_map};
ghost use Rattle.py_scopes.specs.Annotations.{is_typing_name};
ghost use Rattle.py_scopes.specs.ModuleRows.{is_built_name};
ghost use Rattle.py_scopes.specs.Names.{module_names, imports_in, imported_in};
ghost use Rattle.py_name_rules.specs.Places.{item_names, assigned_name};

use crate::bound::{add, add_names};
use py_name_sets::NameSet;
use py_syntax::{Item, Stmt, StmtKind, Target};
use py_tables::{built_class_named, builtin_named};
use pyn_base::{Memory, Name};
use std::alloc::Global;

/// Whether a name is bound before any module is read.
pub(crate) fn is_built_name(name: &Name) -> bool
    ensures { result ≡ is_built_name name.now }
{
    built_class_named(name).is_some() || builtin_named(name).is_some()
}

fn is_one_of(names: &[&str], name: &Name) -> bool
    ensures { result ≡ list_any (λ other. bytes_eq name.now (chars other.now)) names.now }
{
    names.iter().any(|other| name.is(*other))
}

/// Whether a name may be imported from typing.
#[tactic(auto, using(crate::proofs::Typing::typing_is), unfolding(std::specs::Prelude::chars))]
pub(crate) fn is_typing_name(name: &Name) -> bool
    ensures { result ≡ is_typing_name name.now }
{
    is_one_of(
        &[
            "List",
            "Collection",
            "Container",
            "FrozenSet",
            "Iterable",
            "Iterator",
            "MutableSequence",
            "Sequence",
            "Set",
            "Type",
            "Dict",
            "DefaultDict",
            "Mapping",
            "MutableMapping",
            "Tuple",
            "Optional",
            "Union",
            "ClassVar",
            "Final",
            "NoReturn",
            "Any",
            "Callable",
        ],
        name,
    )
}

/// The names that the module binds.
pub(crate) fn module_names<'m>(alloc: Global, items: &'m [Item]) -> Result<NameSet<'m>, Memory>
    ensures { IfOk result (λ names. names ≡ module_names items.now) }
{
    let mut names = NameSet::new(alloc);
    for item in items {
        add_item(&mut names, item)?;
    }
    Ok(names)
}

#[tactic(auto, using(crate::proofs::ModuleNames::import_names_are, crate::proofs::ModuleNames::other_names_are))]
fn add_item<'m>(names: &mut NameSet<'m>, item: &'m Item) -> Result<(), Memory>
    ensures { OnOk result (names.new ≡ names.old ++ item_names item.now) }
{
    match item {
        Item::Func(f) => add(names, &f.name),
        Item::Class(c) => add(names, &c.name),
        Item::Import(_, all) => add_names(names, all.as_slice()),
        Item::Other(stmt) => match assigned_name(stmt) {
            None => Ok(()),
            Some(name) => add(names, name),
        },
    }
}

/// The name of an assignment to one name, without brackets or commas.
#[tactic(auto, using(crate::proofs::ModuleNames::assigned_kinds))]
fn assigned_name(stmt: &Stmt) -> Option<&Name>
    ensures { option_map (λ name. name.now) result ≡ assigned_name stmt.now }
{
    match &stmt.kind {
        StmtKind::Assign(targets, is_tuple, _, _) => {
            if *is_tuple {
                return None;
            }
            match targets.as_slice() {
                [Target::Name(name)] => Some(name),
                _ => None,
            }
        }
        _ => None,
    }
}

/// The names that are imported from typing.
pub(crate) fn imports_in<'m>(alloc: Global, items: &'m [Item]) -> Result<NameSet<'m>, Memory>
    ensures { IfOk result (λ names. names ≡ imports_in items.now) }
{
    let mut names = NameSet::new(alloc);
    for item in items {
        add_imported(&mut names, item)?;
    }
    Ok(names)
}

fn add_imported<'m>(names: &mut NameSet<'m>, item: &'m Item) -> Result<(), Memory>
    ensures { OnOk result (names.new ≡ names.old ++ imported_in item.now) }
{
    match item {
        Item::Func(_) => Ok(()),
        Item::Class(_) => Ok(()),
        Item::Import(_, all) => add_names(names, all.as_slice()),
        Item::Other(_) => Ok(()),
    }
}
