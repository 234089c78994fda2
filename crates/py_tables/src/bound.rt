// The names that statements bind.
ghost use Rattle.std.specs.Prelude.{◌≡◌, true, [], ◌∷◌, ◌++◌, map, IfOk, OnOk};
ghost use Rattle.std.specs.List.{flat_map, filter_map};
ghost use Rattle.py_names.specs.Bound.{target_name, names_bound, clause_names, kind_names, name_or_none, locals, parameters};
ghost use Rattle.py_meaning.specs.Methods.{is_among};
ghost use Rattle.py_tables.specs.Blocks.{is_if, maybe_bound};

use py_syntax::{Clause, Func, Stmt, StmtKind, Target};
use pyn_base::{Memory, Name};
use sqlite_items::Items;
use std::alloc::Global;
use std::marker::Model;

/// Names of a module, which a contract sees as their spellings.
#[derive(Drop)]
pub struct Spellings<'m> {
    names: Vec<&'m Name>,
}

impl<'m> Model for Spellings<'m> {
    ghost use Rattle.std.specs.Prelude.{ℕ, List, map};

    ghost Value = { List (List ℕ) };

    ghost view = { λ s. map (λ name. name.now) s.names.items };
}

impl<'m> Spellings<'m> {
    fn new(alloc: Global) -> Spellings<'m>
        ensures { result ≡ [] }
    {
        Spellings {
            names: Vec::new(alloc),
        }
    }

    fn push(&mut self, name: &'m Name) -> Result<(), Memory>
        ensures { OnOk result (self.new ≡ self.old ++ name.now ∷ []) }
    {
        self.names.push(name)?;
        Ok(())
    }

    /// The names, in order.
    pub fn names(&self) -> &[&'m Name]
        ensures { map (λ name. name.now) result.now ≡ self.now }
    {
        self.names.as_slice()
    }

    /// Whether a name is spelled as one of these.
    pub fn has(&self, name: &Name) -> bool
        ensures { result ≡ is_among self.now name.now }
    {
        is_in(self.names.as_slice(), name)
    }
}

fn is_in(names: &[&Name], name: &Name) -> bool
    ensures { result ≡ is_among (map (λ other. other.now) names.now) name.now }
{
    for other in names {
        if name.is_same(*other) {
            return true;
        }
    }
    false
}

/// Every name that a function binds anywhere, its parameters too.
pub fn locals_of<'m>(alloc: Global, func: &'m Func) -> Result<Spellings<'m>, Memory>
    ensures { IfOk result (λ names. names ≡ locals func.now) }
{
    let mut names = Spellings::new(alloc);
    for param in func.params.as_slice() {
        names.push(&param.name)?;
    }
    add_block(&mut names, func.body.as_slice())?;
    Ok(names)
}

fn add_target<'m>(names: &mut Spellings<'m>, target: &'m Target) -> Result<(), Memory>
    ensures { OnOk result (names.new ≡ names.old ++ name_or_none (target_name target.now)) }
{
    match target {
        Target::Name(name) => names.push(name),
        _ => Ok(()),
    }
}

fn add_targets<'m>(names: &mut Spellings<'m>, targets: &'m [Target]) -> Result<(), Memory>
    ensures { OnOk result (names.new ≡ names.old ++ filter_map target_name targets.now) }
{
    for target in targets {
        add_target(names, target)?;
    }
    Ok(())
}

fn add_names<'m>(names: &mut Spellings<'m>, all: &'m [Name]) -> Result<(), Memory>
    ensures { OnOk result (names.new ≡ names.old ++ all.now) }
{
    for name in all {
        names.push(name)?;
    }
    Ok(())
}

fn add_name<'m>(names: &mut Spellings<'m>, name: &'m Option<Name>) -> Result<(), Memory>
    ensures { OnOk result (names.new ≡ names.old ++ name_or_none name.now) }
{
    match name {
        None => Ok(()),
        Some(name) => names.push(name),
    }
}

#[cycle(bound)]
#[tactic(auto, using(crate::proofs::Levels::levels))]
fn add_stmt<'m>(names: &mut Spellings<'m>, stmt: &'m Stmt) -> Result<(), Memory>
    ensures { OnOk result (names.new ≡ names.old ++ names_bound stmt.now) }
{
    add_kind(names, &stmt.kind)
}

#[cycle(bound)]
#[tactic(auto, using(crate::proofs::Levels::levels))]
fn add_kind<'m>(names: &mut Spellings<'m>, kind: &'m StmtKind) -> Result<(), Memory>
    ensures { OnOk result (names.new ≡ names.old ++ kind_names kind.now) }
{
    match kind {
        StmtKind::Assign(targets, _, _, _) => add_targets(names, targets.as_slice()),
        StmtKind::Augment(target, _, _) => add_target(names, target),
        StmtKind::If(_, _) => add_branches(names, kind),
        StmtKind::While(_, body) => add_block(names, body.as_slice()),
        StmtKind::For(all, _, _, body) => {
            add_names(names, all.as_slice())?;
            add_block(names, body.as_slice())
        }
        StmtKind::Try(body, clauses, other, last) => {
            add_block(names, body.as_slice())?;
            add_clauses(names, clauses.as_slice())?;
            add_maybe(names, other)?;
            add_maybe(names, last)
        }
        StmtKind::Pass => Ok(()),
        StmtKind::Break => Ok(()),
        StmtKind::Continue => Ok(()),
        StmtKind::Return(_) => Ok(()),
        StmtKind::Raise(_) => Ok(()),
        StmtKind::Assert(_, _) => Ok(()),
        StmtKind::Del(_, _) => Ok(()),
        StmtKind::Bare(_) => Ok(()),
    }
}

#[cycle(bound)]
#[tactic(auto, using(crate::proofs::Levels::levels))]
fn add_block<'m>(names: &mut Spellings<'m>, body: &'m [Stmt]) -> Result<(), Memory>
    ensures { OnOk result (names.new ≡ names.old ++ flat_map names_bound body.now) }
{
    for stmt in body {
        add_stmt(names, stmt)?;
    }
    Ok(())
}

#[cycle(bound)]
#[tactic(auto, using(crate::proofs::Levels::levels))]
fn add_maybe<'m>(names: &mut Spellings<'m>, body: &'m Option<Items<Stmt>>) -> Result<(), Memory>
    ensures { OnOk result (names.new ≡ names.old ++ maybe_bound body.now) }
{
    match body {
        None => Ok(()),
        Some(body) => {
            let all = body.as_slice();
            for stmt in all {
                add_stmt(names, stmt)?;
            }
            Ok(())
        }
    }
}

/// Those of an `if`, in each of its arms.
#[cycle(bound)]
#[tactic(auto, using(crate::proofs::Levels::levels))]
fn add_branches<'m>(names: &mut Spellings<'m>, kind: &'m StmtKind) -> Result<(), Memory>
    requires { is_if kind.now ≡ true }
    ensures { OnOk result (names.new ≡ names.old ++ kind_names kind.now) }
{
    match kind {
        StmtKind::If(all, other) => {
            let arms = all.as_slice();
            for arm in arms {
                add_block(names, arm.1.as_slice())?;
            }
            add_maybe(names, other)
        }
        _ => unreachable!(),
    }
}

#[cycle(bound)]
#[tactic(auto, using(crate::proofs::Levels::levels))]
fn add_clauses<'m>(names: &mut Spellings<'m>, clauses: &'m [Clause]) -> Result<(), Memory>
    ensures { OnOk result (names.new ≡ names.old ++ flat_map clause_names clauses.now) }
{
    for clause in clauses {
        add_clause(names, clause)?;
    }
    Ok(())
}

#[cycle(bound)]
#[tactic(auto, using(crate::proofs::Levels::levels))]
fn add_clause<'m>(names: &mut Spellings<'m>, clause: &'m Clause) -> Result<(), Memory>
    ensures { OnOk result (names.new ≡ names.old ++ clause_names clause.now) }
{
    add_name(names, &clause.name)?;
    add_block(names, clause.body.as_slice())
}
