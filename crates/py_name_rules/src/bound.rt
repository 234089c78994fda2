// The names that a function's parameters and body bind.
ghost use Rattle.std.specs.Prelude.{◌≡◌, true, [], ◌∷◌, ◌++◌, IfOk, OnOk};
ghost use Rattle.std.specs.List.{flat_map, filter_map};
ghost use Rattle.py_names.specs.Bound.{target_name, names_bound, clause_names, kind_names, name_or_none, parameters};
ghost use Rattle.py_name_rules.specs.Blocks.{is_if, maybe_bound};

use py_name_sets::NameSet;
use py_syntax::{Clause, Func, Stmt, StmtKind, Target};
use pyn_base::{Memory, Name};
use sqlite_items::Items;
use std::alloc::Global;

pub(crate) fn add<'m>(names: &mut NameSet<'m>, name: &'m Name) -> Result<(), Memory>
    ensures { OnOk result (names.new ≡ names.old ++ name.now ∷ []) }
{
    names.insert(name)?;
    Ok(())
}

pub(crate) fn names_of_params<'m>(alloc: Global, func: &'m Func) -> Result<NameSet<'m>, Memory>
    ensures { IfOk result (λ names. names ≡ parameters func.now) }
{
    let mut names = NameSet::new(alloc);
    for param in func.params.as_slice() {
        add(&mut names, &param.name)?;
    }
    Ok(names)
}

/// Every name that the body binds anywhere.
pub(crate) fn names_of_body<'m>(alloc: Global, func: &'m Func) -> Result<NameSet<'m>, Memory>
    ensures { IfOk result (λ names. names ≡ flat_map names_bound func.now.body) }
{
    let mut names = NameSet::new(alloc);
    add_block(&mut names, func.body.as_slice())?;
    Ok(names)
}

fn add_target<'m>(names: &mut NameSet<'m>, target: &'m Target) -> Result<(), Memory>
    ensures { OnOk result (names.new ≡ names.old ++ name_or_none (target_name target.now)) }
{
    match target {
        Target::Name(name) => add(names, name),
        _ => Ok(()),
    }
}

fn add_targets<'m>(names: &mut NameSet<'m>, targets: &'m [Target]) -> Result<(), Memory>
    ensures { OnOk result (names.new ≡ names.old ++ filter_map target_name targets.now) }
{
    for target in targets {
        add_target(names, target)?;
    }
    Ok(())
}

pub(crate) fn add_names<'m>(names: &mut NameSet<'m>, all: &'m [Name]) -> Result<(), Memory>
    ensures { OnOk result (names.new ≡ names.old ++ all.now) }
{
    for name in all {
        add(names, name)?;
    }
    Ok(())
}

fn add_name<'m>(names: &mut NameSet<'m>, name: &'m Option<Name>) -> Result<(), Memory>
    ensures { OnOk result (names.new ≡ names.old ++ name_or_none name.now) }
{
    match name {
        None => Ok(()),
        Some(name) => add(names, name),
    }
}

#[cycle(bound)]
#[tactic(auto, using(crate::proofs::BoundLevels::levels))]
fn add_stmt<'m>(names: &mut NameSet<'m>, stmt: &'m Stmt) -> Result<(), Memory>
    ensures { OnOk result (names.new ≡ names.old ++ names_bound stmt.now) }
{
    add_kind(names, &stmt.kind)
}

#[cycle(bound)]
#[tactic(auto, using(crate::proofs::BoundLevels::levels))]
fn add_kind<'m>(names: &mut NameSet<'m>, kind: &'m StmtKind) -> Result<(), Memory>
    ensures { OnOk result (names.new ≡ names.old ++ kind_names kind.now) }
{
    match kind {
        StmtKind::Assign(targets, _, _, _) => add_targets(names, targets.as_slice()),
        StmtKind::Augment(target, _, _) => add_target(names, target),
        StmtKind::If(_, _) => add_branches(names, kind),
        StmtKind::While(_, body) => add_block(names, body.as_slice()),
        StmtKind::For(all, _, _, body) => {
            add_names(names, all.as_slice())?;
            add_block(names, body.as_slice())
        }
        StmtKind::Try(body, clauses, other, last) => {
            add_block(names, body.as_slice())?;
            add_clauses(names, clauses.as_slice())?;
            add_maybe(names, other)?;
            add_maybe(names, last)
        }
        StmtKind::Pass => Ok(()),
        StmtKind::Break => Ok(()),
        StmtKind::Continue => Ok(()),
        StmtKind::Return(_) => Ok(()),
        StmtKind::Raise(_) => Ok(()),
        StmtKind::Assert(_, _) => Ok(()),
        StmtKind::Del(_, _) => Ok(()),
        StmtKind::Bare(_) => Ok(()),
    }
}

#[cycle(bound)]
#[tactic(auto, using(crate::proofs::BoundLevels::levels))]
fn add_block<'m>(names: &mut NameSet<'m>, body: &'m [Stmt]) -> Result<(), Memory>
    ensures { OnOk result (names.new ≡ names.old ++ flat_map names_bound body.now) }
{
    for stmt in body {
        add_stmt(names, stmt)?;
    }
    Ok(())
}

#[cycle(bound)]
#[tactic(auto, using(crate::proofs::BoundLevels::levels))]
fn add_maybe<'m>(names: &mut NameSet<'m>, body: &'m Option<Items<Stmt>>) -> Result<(), Memory>
    ensures { OnOk result (names.new ≡ names.old ++ maybe_bound body.now) }
{
    match body {
        None => Ok(()),
        Some(body) => {
            let all = body.as_slice();
            for stmt in all {
                add_stmt(names, stmt)?;
            }
            Ok(())
        }
    }
}

/// Those of an `if`, in each of its arms.
#[cycle(bound)]
#[tactic(auto, using(crate::proofs::BoundLevels::levels))]
fn add_branches<'m>(names: &mut NameSet<'m>, kind: &'m StmtKind) -> Result<(), Memory>
    requires { is_if kind.now ≡ true }
    ensures { OnOk result (names.new ≡ names.old ++ kind_names kind.now) }
{
    match kind {
        StmtKind::If(all, other) => {
            let arms = all.as_slice();
            for arm in arms {
                add_block(names, arm.1.as_slice())?;
            }
            add_maybe(names, other)
        }
        _ => unreachable!(),
    }
}

#[cycle(bound)]
#[tactic(auto, using(crate::proofs::BoundLevels::levels))]
fn add_clauses<'m>(names: &mut NameSet<'m>, clauses: &'m [Clause]) -> Result<(), Memory>
    ensures { OnOk result (names.new ≡ names.old ++ flat_map clause_names clauses.now) }
{
    for clause in clauses {
        add_clause(names, clause)?;
    }
    Ok(())
}

#[cycle(bound)]
#[tactic(auto, using(crate::proofs::BoundLevels::levels))]
fn add_clause<'m>(names: &mut NameSet<'m>, clause: &'m Clause) -> Result<(), Memory>
    ensures { OnOk result (names.new ≡ names.old ++ clause_names clause.now) }
{
    add_name(names, &clause.name)?;
    add_block(names, clause.body.as_slice())
}
