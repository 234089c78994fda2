// What may stand at a module's level and in classes.
ghost use Rattle.std.specs.Prelude.{◌≡◌, ◌++◌, IfOk, OnOk};
ghost use Rattle.std.specs.List.{flat_map};
ghost use Rattle.py_syntax.specs.declared.stmt.StmtKind.{out-StmtKind};
ghost use Rattle.py_scopes.specs.Names.{standing};
ghost use Rattle.py_scopes.specs.ModuleRows.{makes_state, is_allowed, is_allowed_by, has_constant, state_in_item, state_in_member, statement_in, statements_in_class, statement_in_member};
ghost use Rattle.py_scopes.specs.Refusals.{least};
ghost use Rattle.py_module_rules.specs.Pieces.{statement_by, statements_by, statement_at, class_statements_at};

use crate::constants::{Assignment, Constants, add_constant, assigned, is_constant};
use crate::displays::has_display;
use crate::future_line::is_string;
use crate::lines::Lines;
use py_name_sets::NameMap;
use py_syntax::{Item, Line, Member, Stmt, StmtKind};
use pyn_base::Memory;
use std::alloc::Global;

/// Whether a statement is an assignment whose value has a display.
#[tactic(auto, using(crate::proofs::Variants::statement_kinds))]
fn makes_state(stmt: &Stmt) -> bool
    ensures { result ≡ makes_state stmt.now }
{
    match &stmt.kind {
        StmtKind::Assign(_, _, _, x) => has_display(x),
        _ => false,
    }
}

/// The line of the first assignment whose value has a display.
pub(crate) fn module_state(alloc: Global, items: &[Item]) -> Result<Option<Line>, Memory>
    ensures { IfOk result (λ line. line ≡ least (flat_map state_in_item items.now)) }
{
    let mut lines = Lines::new(alloc);
    for item in items {
        add_state(&mut lines, item)?;
    }
    Ok(lines.least())
}

fn add_state(lines: &mut Lines, item: &Item) -> Result<(), Memory>
    ensures { OnOk result (lines.new ≡ lines.old ++ state_in_item item.now) }
{
    match item {
        Item::Func(_) => Ok(()),
        Item::Class(c) => add_class_state(lines, c.members.as_slice()),
        Item::Import(_, _) => Ok(()),
        Item::Other(stmt) => lines.add_if(makes_state(stmt), stmt.line),
    }
}

fn add_class_state(lines: &mut Lines, members: &[Member]) -> Result<(), Memory>
    ensures { OnOk result (lines.new ≡ lines.old ++ flat_map state_in_member members.now) }
{
    for member in members {
        match member {
            Member::Func(_) => {}
            Member::Other(stmt) => lines.add_if(makes_state(stmt), stmt.line)?,
        }
    }
    Ok(())
}

#[tactic(auto, using(crate::proofs::Variants::statement_kinds))]
fn is_plain(stmt: &Stmt) -> bool
    ensures { result ≡ is_allowed_by (out-StmtKind stmt.now.kind) }
{
    match &stmt.kind {
        StmtKind::Pass => true,
        StmtKind::Bare(x) => is_string(x),
        _ => false,
    }
}

fn has_constant(names: &Constants, assigned: &Option<Assignment>) -> bool
    ensures { result ≡ has_constant names.now assigned.now }
{
    match assigned {
        None => false,
        Some(a) => is_constant(names, a.value()),
    }
}

/// Whether a statement is `pass`, a string, or one name assigned a constant.
fn is_allowed(names: &Constants, stmt: &Stmt) -> bool
    ensures { result ≡ is_allowed names.now stmt.now }
{
    is_plain(stmt) || has_constant(names, &assigned(stmt))
}

/// The line of the first statement at the module's level that may not stand there.
pub(crate) fn module_statement<'m>(alloc: Global, items: &'m [Item]) -> Result<Option<Line>, Memory>
    ensures { IfOk result (λ line. line ≡ least (flat_map statement_at (standing items.now))) }
{
    let mut lines = Lines::new(alloc);
    let mut names = NameMap::new(alloc);
    for item in items {
        add_statement(&mut lines, &names, item)?;
        add_constant(&mut names, item)?;
    }
    Ok(lines.least())
}

fn add_statement(lines: &mut Lines, names: &Constants, item: &Item) -> Result<(), Memory>
    ensures { OnOk result (lines.new ≡ lines.old ++ statement_by names.now item.now) }
{
    match item {
        Item::Other(stmt) => lines.add_if(!is_allowed(names, stmt), stmt.line),
        _ => Ok(()),
    }
}

/// The line of the first statement in a class that may not stand there.
pub(crate) fn class_statement<'m>(alloc: Global, items: &'m [Item]) -> Result<Option<Line>, Memory>
    ensures { IfOk result (λ line. line ≡ least (flat_map class_statements_at (standing items.now))) }
{
    let mut lines = Lines::new(alloc);
    let mut names = NameMap::new(alloc);
    for item in items {
        add_class_statements(&mut lines, &names, item)?;
        add_constant(&mut names, item)?;
    }
    Ok(lines.least())
}

fn add_class_statements(lines: &mut Lines, names: &Constants, item: &Item) -> Result<(), Memory>
    ensures { OnOk result (lines.new ≡ lines.old ++ statements_by names.now item.now) }
{
    match item {
        Item::Class(c) => add_members(lines, names, c.members.as_slice()),
        _ => Ok(()),
    }
}

fn add_members(lines: &mut Lines, names: &Constants, members: &[Member]) -> Result<(), Memory>
    ensures { OnOk result (lines.new ≡ lines.old ++ flat_map (statement_in_member names.now) members.now) }
{
    for member in members {
        match member {
            Member::Func(_) => {}
            Member::Other(stmt) => lines.add_if(!is_allowed(names, stmt), stmt.line)?,
        }
    }
    Ok(())
}
