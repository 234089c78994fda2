// What a test may call of a module, in the order of the text.
ghost use Rattle.std.specs.Prelude.{◌≡◌, ◌+◌, [], ◌∷◌, ◌++◌, IfOk, OnOk};
ghost use Rattle.suite_model.specs.Callables.{is_public, where_public, methods_called, callables_of};
ghost use Rattle.test_chromosome.specs.Counts.{item_callables, functions_after, classes_after, method_count};

use py_syntax::{Class, Item, Member, Module};
use pyn_base::{FuncId, Memory, Name};
use std::alloc::Global;
use suite_model::Callable;

/// Classes, methods and functions whose names don't begin with an underscore.
pub fn callables(alloc: Global, tree: &Module) -> Result<Vec<Callable>, Memory>
    ensures { IfOk result (λ callables. callables.items ≡ callables_of tree.now) }
{
    let mut list = Vec::new(alloc);
    let mut functions = 0;
    let mut classes = 0;
    for item in tree.items.as_slice() {
        add_item(&mut list, functions, classes, item)?;
        functions = after_functions(functions, item)?;
        classes = after_classes(classes, item)?;
    }
    Ok(list)
}

/// Whether a name is one for callers: `__init__` is called by its class alone.
pub(crate) fn is_public(name: &Name) -> bool
    ensures { result ≡ is_public name.now }
{
    match name.as_str().chars().next() {
        None => true,
        Some(c) => c != '_',
    }
}

/// The number after one. No table has room for more.
fn next(number: u32) -> Result<u32, Memory>
    ensures { IfOk result (λ n. n ≡ number + 1) }
{
    match number.checked_add(1) {
        Some(next) => Ok(next),
        None => Err(Memory),
    }
}

fn after_functions(functions: u32, item: &Item) -> Result<u32, Memory>
    ensures { IfOk result (λ n. n ≡ functions_after functions item.now) }
{
    match item {
        Item::Func(_) => next(functions),
        Item::Class(c) => after_methods(functions, c.members.as_slice()),
        Item::Import(_, _) => Ok(functions),
        Item::Other(_) => Ok(functions),
    }
}

fn after_methods(functions: u32, members: &[Member]) -> Result<u32, Memory>
    ensures { IfOk result (λ n. n ≡ functions + method_count members.now) }
{
    let mut number = functions;
    for member in members {
        match member {
            Member::Func(_) => number = next(number)?,
            Member::Other(_) => {}
        }
    }
    Ok(number)
}

fn after_classes(classes: u32, item: &Item) -> Result<u32, Memory>
    ensures { IfOk result (λ n. n ≡ classes_after classes item.now) }
{
    match item {
        Item::Class(_) => next(classes),
        Item::Func(_) => Ok(classes),
        Item::Import(_, _) => Ok(classes),
        Item::Other(_) => Ok(classes),
    }
}

fn add_item(
    list: &mut Vec<Callable>,
    functions: u32,
    classes: u32,
    item: &Item,
) -> Result<(), Memory>
    ensures { OnOk result (list.new.items ≡ list.old.items ++ item_callables functions classes item.now) }
{
    match item {
        Item::Func(f) => { add_where_public(list, &f.name, Callable::Function(FuncId(functions))) }
        Item::Class(c) => add_class(list, functions, classes, c),
        Item::Import(_, _) => Ok(()),
        Item::Other(_) => Ok(()),
    }
}

fn add_where_public(list: &mut Vec<Callable>, name: &Name, callable: Callable) -> Result<(), Memory>
    ensures { OnOk result (list.new.items ≡ list.old.items ++ where_public name.now (callable ∷ [])) }
{
    if is_public(name) {
        list.push(callable)?;
    }
    Ok(())
}

fn add_class(
    list: &mut Vec<Callable>,
    functions: u32,
    class: u32,
    tree: &Class,
) -> Result<(), Memory>
    ensures { OnOk result (list.new.items ≡ list.old.items ++ where_public tree.now.name (Callable.Constructor class ∷ methods_called class functions tree.now.members)) }
{
    if is_public(&tree.name) {
        list.push(Callable::Constructor(class))?;
        add_methods(list, class, functions, tree.members.as_slice())?;
    }
    Ok(())
}

fn add_methods(
    list: &mut Vec<Callable>,
    class: u32,
    first: u32,
    members: &[Member],
) -> Result<(), Memory>
    ensures { OnOk result (list.new.items ≡ list.old.items ++ methods_called class first members.now) }
{
    let mut number = first;
    for member in members {
        match member {
            Member::Func(f) => {
                add_where_public(list, &f.name, Callable::Method(class, FuncId(number)))?;
                number = next(number)?;
            }
            Member::Other(_) => {}
        }
    }
    Ok(())
}

/// A count as a number. No table has room for more.
pub(crate) fn number_of(count: u64) -> Result<u32, Memory>
    ensures { IfOk result (λ number. number ≡ count) }
{
    match u32::try_from(count) {
        Ok(number) => Ok(number),
        Err(_) => Err(Memory),
    }
}
