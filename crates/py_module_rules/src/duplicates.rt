// Names that are bound twice.
ghost use Rattle.std.specs.Prelude.{◌≡◌, [], ◌∷◌, ◌++◌, IfOk, OnOk};
ghost use Rattle.std.specs.List.{flat_map};
ghost use Rattle.py_scopes.specs.ModuleRows.{again_in_class, bound_again, bound_built, is_built_name};
ghost use Rattle.py_scopes.specs.Names.{bound_by, bound_by_item, bound_by_member};
ghost use Rattle.py_scopes.specs.Refusals.{least};
ghost use Rattle.py_module_rules.specs.Duplicates.{bound_names, duplicates_in};

use crate::constants::assigned;
use crate::lines::Lines;
use py_name_sets::NameSet;
use py_syntax::{Item, Line, Member, Stmt};
use py_tables::{built_class_named, builtin_named};
use pyn_base::{Memory, Name};
use std::alloc::Global;
use std::marker::Model;

/// A name and the line on which it is bound.
#[derive(Drop)]
struct BoundName<'m> {
    name: &'m Name,
    line: Line,
}

impl<'m> Model for BoundName<'m> {
    ghost use Rattle.py_scopes.specs.Names.{Bound};

    ghost Value = { Bound };

    ghost view = { λ b. record { name = b.name.now; line = b.line } };
}

impl<'m> BoundName<'m> {
    fn new(name: &'m Name, line: Line) -> BoundName<'m>
        ensures { result ≡ record { name = name.now; line = line } }
    {
        BoundName { name, line }
    }

    fn name(&self) -> &'m Name
        ensures { result.now ≡ self.now.name }
    {
        self.name
    }

    fn line(&self) -> Line
        ensures { result ≡ self.now.line }
    {
        self.line
    }
}

type BoundNames<'m> = Vec<BoundName<'m>>;

fn add_bound<'m>(bounds: &mut BoundNames<'m>, name: &'m Name, line: Line) -> Result<(), Memory>
    ensures { OnOk result (bounds.new.items ≡ bounds.old.items ++ record { name = name.now; line = line } ∷ []) }
{
    bounds.push(BoundName::new(name, line))?;
    Ok(())
}

fn add_stmt<'m>(bounds: &mut BoundNames<'m>, stmt: &'m Stmt) -> Result<(), Memory>
    ensures { OnOk result (bounds.new.items ≡ bounds.old.items ++ bound_by stmt.now) }
{
    match assigned(stmt) {
        None => Ok(()),
        Some(a) => add_bound(bounds, a.name(), stmt.line),
    }
}

fn add_names<'m>(bounds: &mut BoundNames<'m>, names: &'m [Name], line: Line) -> Result<(), Memory>
    ensures { OnOk result (bounds.new.items ≡ bounds.old.items ++ bound_names line names.now) }
{
    for name in names {
        add_bound(bounds, name, line)?;
    }
    Ok(())
}

fn add_item<'m>(bounds: &mut BoundNames<'m>, item: &'m Item) -> Result<(), Memory>
    ensures { OnOk result (bounds.new.items ≡ bounds.old.items ++ bound_by_item item.now) }
{
    match item {
        Item::Func(f) => add_bound(bounds, &f.name, f.line),
        Item::Class(c) => add_bound(bounds, &c.name, c.line),
        Item::Import(line, names) => add_names(bounds, names.as_slice(), *line),
        Item::Other(stmt) => add_stmt(bounds, stmt),
    }
}

fn add_member<'m>(bounds: &mut BoundNames<'m>, member: &'m Member) -> Result<(), Memory>
    ensures { OnOk result (bounds.new.items ≡ bounds.old.items ++ bound_by_member member.now) }
{
    match member {
        Member::Func(f) => add_bound(bounds, &f.name, f.line),
        Member::Other(stmt) => add_stmt(bounds, stmt),
    }
}

fn bound_in_items<'m>(alloc: Global, items: &'m [Item]) -> Result<BoundNames<'m>, Memory>
    ensures { IfOk result (λ bounds. bounds.items ≡ flat_map bound_by_item items.now) }
{
    let mut bounds = Vec::new(alloc);
    for item in items {
        add_item(&mut bounds, item)?;
    }
    Ok(bounds)
}

fn bound_in_members<'m>(alloc: Global, members: &'m [Member]) -> Result<BoundNames<'m>, Memory>
    ensures { IfOk result (λ bounds. bounds.items ≡ flat_map bound_by_member members.now) }
{
    let mut bounds = Vec::new(alloc);
    for member in members {
        add_member(&mut bounds, member)?;
    }
    Ok(bounds)
}

/// Adds the lines on which a name is bound that was bound before.
fn add_again(alloc: Global, lines: &mut Lines, bounds: &[BoundName]) -> Result<(), Memory>
    ensures { OnOk result (lines.new ≡ lines.old ++ bound_again [] bounds.now) }
{
    let mut names = NameSet::new(alloc);
    for bound in bounds {
        let again = names.insert(bound.name())?;
        lines.add_if(again, bound.line())?;
    }
    Ok(())
}

/// Whether a name is a built-in's.
fn is_built_name(name: &Name) -> bool
    ensures { result ≡ is_built_name name.now }
{
    built_class_named(name).is_some() || builtin_named(name).is_some()
}

fn add_built(lines: &mut Lines, bounds: &[BoundName]) -> Result<(), Memory>
    ensures { OnOk result (lines.new ≡ lines.old ++ flat_map bound_built bounds.now) }
{
    for bound in bounds {
        lines.add_if(is_built_name(bound.name()), bound.line())?;
    }
    Ok(())
}

fn add_in_class(alloc: Global, lines: &mut Lines, item: &Item) -> Result<(), Memory>
    ensures { OnOk result (lines.new ≡ lines.old ++ again_in_class item.now) }
{
    match item {
        Item::Class(c) => {
            let bounds = bound_in_members(alloc, c.members.as_slice())?;
            add_again(alloc, lines, bounds.as_slice())
        }
        _ => Ok(()),
    }
}

/// The line of the first name that is bound twice, or is a built-in's at the module's level.
pub(crate) fn duplicate_name(alloc: Global, items: &[Item]) -> Result<Option<Line>, Memory>
    ensures { IfOk result (λ line. line ≡ least (duplicates_in items.now)) }
{
    let mut lines = Lines::new(alloc);
    let bounds = bound_in_items(alloc, items)?;
    add_again(alloc, &mut lines, bounds.as_slice())?;
    add_built(&mut lines, bounds.as_slice())?;
    for item in items {
        add_in_class(alloc, &mut lines, item)?;
    }
    Ok(lines.least())
}
