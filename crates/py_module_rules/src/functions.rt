// The functions of a module, and how many it may have.
ghost use Rattle.std.specs.Prelude.{◌≡◌, [], ◌∷◌, ◌++◌, map, drop, IfOk, OnOk};
ghost use Rattle.std.specs.List.{flat_map};
ghost use Rattle.py_scopes.specs.ModuleRows.{functions_in_item, functions_in_member, most_functions};
ghost use Rattle.py_scopes.specs.Refusals.{least};
ghost use Rattle.py_module_rules.specs.Pieces.{line_of};

use crate::lines::Lines;
use py_syntax::{Func, Item, Line, Member};
use pyn_base::Memory;
use std::alloc::Global;
use std::marker::Model;

/// The most functions that a module may have, methods too.
const MOST_FUNCTIONS: usize = 2000;

/// Functions in the order of their lines.
#[derive(Drop)]
pub(crate) struct Functions<'m> {
    functions: Vec<&'m Func>,
}

impl<'m> Model for Functions<'m> {
    ghost use Rattle.std.specs.Prelude.{List, map};
    ghost use Rattle.std.specs.Coded.{codes};
    ghost use Rattle.py_syntax.specs.declared.module.Func.{Func};
    ghost use Rattle.py_syntax.specs.contracts.module.Func as func;

    ghost Value = { List Func };

    ghost coded = { Prim.hlevel (codes, func.the_row.coded) };

    ghost view = { λ f. map (λ function. function.now) f.functions.items };
}

impl<'m> Functions<'m> {
    pub(crate) fn new(alloc: Global) -> Functions<'m>
        ensures { result ≡ [] }
    {
        Functions {
            functions: Vec::new(alloc),
        }
    }

    /// Those of the items of a module.
    pub(crate) fn of_items(alloc: Global, items: &'m [Item]) -> Result<Functions<'m>, Memory>
        ensures { IfOk result (λ functions. functions ≡ flat_map functions_in_item items.now) }
    {
        let mut functions = Functions::new(alloc);
        for item in items {
            functions.add_item(item)?;
        }
        Ok(functions)
    }

    pub(crate) fn as_slice(&self) -> &[&'m Func]
        ensures { map (λ function. function.now) result.now ≡ self.now }
    {
        self.functions.as_slice()
    }

    fn push(&mut self, function: &'m Func) -> Result<(), Memory>
        ensures { OnOk result (self.new ≡ self.old ++ function.now ∷ []) }
    {
        self.functions.push(function)?;
        Ok(())
    }

    /// Adds the functions of an item.
    pub(crate) fn add_item(&mut self, item: &'m Item) -> Result<(), Memory>
        ensures { OnOk result (self.new ≡ self.old ++ functions_in_item item.now) }
    {
        match item {
            Item::Func(f) => self.push(f),
            Item::Class(c) => self.add_members(c.members.as_slice()),
            Item::Import(_, _) => Ok(()),
            Item::Other(_) => Ok(()),
        }
    }

    fn add_members(&mut self, members: &'m [Member]) -> Result<(), Memory>
        ensures { OnOk result (self.new ≡ self.old ++ flat_map functions_in_member members.now) }
    {
        for member in members {
            match member {
                Member::Func(f) => self.push(f)?,
                Member::Other(_) => {}
            }
        }
        Ok(())
    }
}

/// The functions after those that a module may have.
fn past_most<'a, 'm>(functions: &'a [&'m Func]) -> &'a [&'m Func]
    ensures { result.now ≡ drop most_functions functions.now }
{
    if functions.len() <= MOST_FUNCTIONS {
        let (front, _) = functions.split_at(0);
        front
    } else {
        let (_, rest) = functions.split_at(MOST_FUNCTIONS);
        rest
    }
}

/// The line of the first function that is too many.
pub(crate) fn too_many_functions(
    alloc: Global,
    functions: &Functions,
) -> Result<Option<Line>, Memory>
    ensures { IfOk result (λ line. line ≡ least (map line_of (drop most_functions functions.now))) }
{
    let mut lines = Lines::new(alloc);
    let rest = past_most(functions.as_slice());
    for function in rest {
        lines.add_if(true, function.line)?;
    }
    Ok(lines.least())
}
