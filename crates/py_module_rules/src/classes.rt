// Bases of classes (Language Reference 8.8).
ghost use Rattle.std.specs.Prelude.{◌≡◌, ◌++◌, slice_get, IfOk, OnOk};
ghost use Rattle.std.specs.List.{flat_map};
ghost use Rattle.py_plain.specs.Classes.{base_of_info};
ghost use Rattle.py_scopes.specs.Annotations.{is_exception, is_exception_name};
ghost use Rattle.py_scopes.specs.ModuleRows.{chains_from, has_long_chain};
ghost use Rattle.py_scopes.specs.Names.{standing};
ghost use Rattle.py_scopes.specs.Refusals.{least};
ghost use Rattle.py_module_rules.specs.Pieces.{base_at, base_by, is_base_by, with_class};

use crate::lines::Lines;
use py_name_sets::NameSet;
use py_syntax::{Item, Line};
use py_tables::{Tables, built_class_named};
use pyn_base::{BuiltClass, ClassId, Memory, Name};
use std::alloc::Global;

/// The most classes of the module that may stand above one.
const LONGEST_CHAIN: u32 = 20;

/// Whether a built-in class is one of exceptions.
fn is_exception(class: Option<BuiltClass>) -> bool
    ensures { result ≡ is_exception class }
{
    match class {
        None => false,
        Some(class) => match class {
            BuiltClass::Object => false,
            BuiltClass::Int => false,
            BuiltClass::Bool => false,
            BuiltClass::Str => false,
            BuiltClass::List => false,
            BuiltClass::Dict => false,
            BuiltClass::Tuple => false,
            BuiltClass::Exception => true,
            BuiltClass::ArithmeticError => true,
            BuiltClass::ZeroDivisionError => true,
            BuiltClass::LookupError => true,
            BuiltClass::IndexError => true,
            BuiltClass::KeyError => true,
            BuiltClass::ValueError => true,
            BuiltClass::TypeError => true,
            BuiltClass::AttributeError => true,
            BuiltClass::NameError => true,
            BuiltClass::UnboundLocalError => true,
            BuiltClass::AssertionError => true,
            BuiltClass::RuntimeError => true,
            BuiltClass::NotImplementedError => true,
        },
    }
}

/// Whether a name is a built-in exception's.
pub fn is_exception_name(name: &Name) -> bool
    ensures { result ≡ is_exception_name name.now }
{
    is_exception(built_class_named(name))
}

#[tactic(auto, unfolding(std::specs::Prelude::chars))]
fn is_base(classes: &NameSet, base: &Option<Name>) -> bool
    ensures { result ≡ is_base_by classes.now base.now }
{
    match base {
        None => true,
        Some(name) => classes.has(name) || name.is("object") || is_exception_name(name),
    }
}

/// The line of the first class whose base is no earlier class, `object` or built-in exception.
pub(crate) fn unknown_base<'m>(alloc: Global, items: &'m [Item]) -> Result<Option<Line>, Memory>
    ensures { IfOk result (λ line. line ≡ least (flat_map base_at (standing items.now))) }
{
    let mut lines = Lines::new(alloc);
    let mut classes = NameSet::new(alloc);
    for item in items {
        add_base(&mut lines, &classes, item)?;
        add_class(&mut classes, item)?;
    }
    Ok(lines.least())
}

fn add_base(lines: &mut Lines, classes: &NameSet, item: &Item) -> Result<(), Memory>
    ensures { OnOk result (lines.new ≡ lines.old ++ base_by classes.now item.now) }
{
    match item {
        Item::Class(c) => lines.add_if(!is_base(classes, &c.base), c.line),
        _ => Ok(()),
    }
}

/// Adds the name of the class that an item is, if it is one.
pub(crate) fn add_class<'m>(classes: &mut NameSet<'m>, item: &'m Item) -> Result<(), Memory>
    ensures { OnOk result (classes.new ≡ with_class classes.old item.now) }
{
    match item {
        Item::Class(c) => {
            classes.insert(&c.name)?;
            Ok(())
        }
        _ => Ok(()),
    }
}

/// Whether more than 20 classes of the module stand above a class.
fn has_long_chain(tables: &Tables, number: usize) -> bool
    ensures { result ≡ has_long_chain tables.now number }
{
    let mut left = tables.classes().len();
    if left == 0 {
        return false;
    }
    left -= 1;
    let mut count = 0;
    let mut class = base_of(tables, number);
    loop {
        match class {
            ClassId::Built(_) => return false,
            ClassId::Own(_) => {
                if left == 0 {
                    return false;
                }
                if count == LONGEST_CHAIN {
                    return true;
                }
                count += 1;
                left -= 1;
                class = tables.base(class);
            }
        }
    }
}

/// The base of a class, by its place.
fn base_of(tables: &Tables, number: usize) -> ClassId
    ensures { result ≡ base_of_info (slice_get tables.now.classes number) }
{
    match tables.classes().get(number) {
        None => ClassId::Built(BuiltClass::Object),
        Some(row) => row.base(),
    }
}

/// The line of the first class with more than 20 classes of the module above it.
pub(crate) fn base_chain(
    alloc: Global,
    tables: &Tables,
    items: &[Item],
) -> Result<Option<Line>, Memory>
    ensures { IfOk result (λ line. line ≡ least (chains_from tables.now 0 items.now)) }
{
    let mut lines = Lines::new(alloc);
    let mut number = 0;
    for item in items {
        match item {
            Item::Class(c) => {
                lines.add_if(has_long_chain(tables, number), c.line)?;
                number += 1;
            }
            _ => {}
        }
    }
    Ok(lines.least())
}
