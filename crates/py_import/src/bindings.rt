// The module's names, in order (Language Reference 8.7 and 8.8).
ghost use Rattle.std.specs.Prelude.{◌≡◌, ◌+◌, [], ◌∷◌, ◌++◌, length, List, IfOk, OnOk};
ghost use Rattle.py_syntax.specs.declared.module.Item.{Item};
ghost use Rattle.py_plain.specs.Import.{names_from};
ghost use Rattle.py_plain.specs.Program.{bindings_from, methods_from};

use crate::constants::constant;
use py_meaning::{Sequence, Value};
use py_syntax::{Item, Member};
use py_tables::assigned_in;
use pyn_base::{ClassId, FuncId, Memory, Name};
use std::alloc::Global;

/// The number that comes so many after another. No table has room for more.
fn number_after(number: u32, more: usize) -> Result<u32, Memory>
    ensures { IfOk result (λ next. next ≡ number + more) }
{
    let Ok(more) = u32::try_from(more) else {
        return Err(Memory);
    };
    match number.checked_add(more) {
        Some(next) => Ok(next),
        None => Err(Memory),
    }
}

fn number_after_member(number: u32, member: &Member) -> Result<u32, Memory>
    ensures { IfOk result (λ next. next ≡ number + length (methods_from 0 (member.now ∷ []))) }
{
    match member {
        Member::Func(_) => number_after(number, 1),
        Member::Other(_) => Ok(number),
    }
}

fn number_after_methods(number: u32, members: &[Member]) -> Result<u32, Memory>
    ensures { IfOk result (λ next. next ≡ number + length (methods_from 0 members.now)) }
{
    let mut number = number;
    for member in members {
        let next = number_after_member(number, member)?;
        number = next;
    }
    Ok(number)
}

fn push(
    alloc: Global,
    names: &mut Sequence<(Name, Value)>,
    name: &Name,
    x: Value,
) -> Result<(), Memory>
    ensures { OnOk result (names.new ≡ names.old ++ (name.now, x) ∷ []) }
{
    let name = name.to_owned(alloc)?;
    names.push((name, x))
}

/// One item, where so many functions and classes came before; the answer is how many there are then.
fn add_item(
    alloc: Global,
    names: &mut Sequence<(Name, Value)>,
    functions: u32,
    classes: u32,
    item: &Item,
) -> Result<(u32, u32), Memory>
    ensures { IfOk result (λ next. (more : List Item) → names_from names.new (bindings_from next.0 next.1 more) ≡ names_from names.old (bindings_from functions classes (item.now ∷ more))) }
{
    match item {
        Item::Func(f) => {
            push(alloc, names, &f.name, Value::Func(FuncId(functions)))?;
            let functions = number_after(functions, 1)?;
            Ok((functions, classes))
        }
        Item::Class(c) => {
            push(alloc, names, &c.name, Value::Class(ClassId::Own(classes)))?;
            let functions = number_after_methods(functions, c.members.as_slice())?;
            let classes = number_after(classes, 1)?;
            Ok((functions, classes))
        }
        Item::Import(_, _) => Ok((functions, classes)),
        Item::Other(stmt) => match assigned_in(stmt) {
            None => Ok((functions, classes)),
            Some((name, e)) => {
                let x = constant(alloc, e, names.as_slice())?;
                push(alloc, names, name, x)?;
                Ok((functions, classes))
            }
        },
    }
}

/// The names that a module's items bind.
pub(crate) fn names_of(alloc: Global, items: &[Item]) -> Result<Sequence<(Name, Value)>, Memory>
    ensures { IfOk result (λ names. names ≡ names_from [] (bindings_from 0 0 items.now)) }
{
    let mut names = Sequence::new(alloc);
    let mut functions = 0;
    let mut classes = 0;
    for item in items {
        (functions, classes) = add_item(alloc, &mut names, functions, classes, item)?;
    }
    Ok(names)
}
