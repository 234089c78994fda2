// The uses of statements (Language Reference, chapters 7 and 8).
ghost use Rattle.std.specs.Prelude.{◌≡◌, true, false, ◌++◌, OnOk};
ghost use Rattle.std.specs.List.{flat_map};
ghost use Rattle.py_scopes.specs.Uses.{nothing, unless, binds, catches, bound_as, annotated, maybe_uses, target_uses, uses_in, uses_in_kind, uses_in_clause, uses_of_body};
ghost use Rattle.py_uses.specs.Blocks.{body_uses, maybe_body, clauses_uses, is_if};
ghost use Rattle.py_uses.specs.Seen.{seen, around_seen};

use crate::expressions::add_expr;
use crate::uses::{Use, Uses};
use py_syntax::{Annotation, Clause, Expr, Line, Stmt, StmtKind, Target};
use pyn_base::{Memory, Name};
use sqlite_items::Items;

/// What is round a statement in its function.
#[derive(Clone, Copy)]
pub struct Around {
    pub in_loop: bool,
    /// In an `except` clause, and no `finally` between.
    pub in_clause: bool,
}

impl Around {
    /// Round a body's own statements there is nothing.
    pub fn nothing() -> Around
        ensures { around_seen result ≡ nothing }
    {
        Around {
            in_loop: false,
            in_clause: false,
        }
    }

    fn in_loop(self) -> Around
        ensures { around_seen result ≡ record (around_seen self) { loop = true } }
    {
        Around {
            in_loop: true,
            in_clause: self.in_clause,
        }
    }

    fn in_clause(self) -> Around
        ensures { around_seen result ≡ record (around_seen self) { clause = true } }
    {
        Around {
            in_loop: self.in_loop,
            in_clause: true,
        }
    }

    fn in_finally(self) -> Around
        ensures { around_seen result ≡ record (around_seen self) { clause = false } }
    {
        Around {
            in_loop: self.in_loop,
            in_clause: false,
        }
    }
}

/// Adds the uses of the statements of a body.
pub fn add_body<'m>(uses: &mut Uses<'m>, body: &'m [Stmt]) -> Result<(), Memory>
    ensures { OnOk result (uses.new ≡ uses.old ++ uses_of_body body.now) }
{
    add_block(uses, body, Around::nothing())
}

/// Adds the uses of a statement.
#[cycle(statements)]
#[tactic(auto, using(crate::proofs::StatementLevels::statement_levels))]
pub fn add_stmt<'m>(uses: &mut Uses<'m>, stmt: &'m Stmt, around: Around) -> Result<(), Memory>
    ensures { OnOk result (uses.new ≡ uses.old ++ uses_in stmt.now (around_seen around)) }
{
    add_kind(uses, &stmt.kind, stmt.line, around)
}

#[cycle(statements)]
#[tactic(auto, using(crate::proofs::StatementLevels::statement_levels))]
fn add_kind<'m>(
    uses: &mut Uses<'m>,
    kind: &'m StmtKind,
    line: Line,
    around: Around,
) -> Result<(), Memory>
    ensures { OnOk result (uses.new ≡ uses.old ++ uses_in_kind kind.now line (around_seen around)) }
{
    match kind {
        StmtKind::Pass => Ok(()),
        StmtKind::Break => add_unless(uses, around.in_loop, line, Use::NoLoop),
        StmtKind::Continue => add_unless(uses, around.in_loop, line, Use::NoLoop),
        StmtKind::Return(x) => add_maybe(uses, x),
        StmtKind::Raise(x) => match x {
            None => add_unless(uses, around.in_clause, line, Use::NoClause),
            Some(x) => add_expr(uses, x),
        },
        StmtKind::Assert(x, message) => {
            add_expr(uses, x)?;
            add_maybe(uses, message)
        }
        StmtKind::Del(x, i) => {
            add_expr(uses, x)?;
            add_expr(uses, i)
        }
        StmtKind::Assign(targets, _, annotation, x) => {
            add_targets(uses, line, targets.as_slice())?;
            add_annotation(uses, line, annotation)?;
            add_expr(uses, x)
        }
        StmtKind::Augment(target, _, x) => {
            add_target(uses, line, target)?;
            add_expr(uses, x)
        }
        StmtKind::Bare(x) => add_expr(uses, x),
        StmtKind::If(_, _) => add_branches(uses, kind, line, around),
        StmtKind::While(x, body) => {
            add_expr(uses, x)?;
            add_block(uses, body.as_slice(), around.in_loop())
        }
        StmtKind::For(names, _, x, body) => {
            add_bound(uses, line, names.as_slice())?;
            add_expr(uses, x)?;
            add_block(uses, body.as_slice(), around.in_loop())
        }
        StmtKind::Try(body, clauses, other, last) => {
            add_block(uses, body.as_slice(), around)?;
            add_clauses(uses, clauses.as_slice(), around)?;
            add_maybe_block(uses, other, around)?;
            add_maybe_block(uses, last, around.in_finally())
        }
    }
}

#[cycle(statements)]
#[tactic(auto, using(crate::proofs::StatementLevels::statement_levels))]
fn add_block<'m>(uses: &mut Uses<'m>, body: &'m [Stmt], around: Around) -> Result<(), Memory>
    ensures { OnOk result (uses.new ≡ uses.old ++ body_uses (around_seen around) body.now) }
{
    for stmt in body {
        add_stmt(uses, stmt, around)?;
    }
    Ok(())
}

#[cycle(statements)]
#[tactic(auto, using(crate::proofs::StatementLevels::statement_levels))]
fn add_maybe_block<'m>(
    uses: &mut Uses<'m>,
    body: &'m Option<Items<Stmt>>,
    around: Around,
) -> Result<(), Memory>
    ensures { OnOk result (uses.new ≡ uses.old ++ maybe_body (around_seen around) body.now) }
{
    match body {
        None => Ok(()),
        Some(body) => {
            let all = body.as_slice();
            for stmt in all {
                add_stmt(uses, stmt, around)?;
            }
            Ok(())
        }
    }
}

/// Those of an `if`, in each of its arms.
#[cycle(statements)]
#[tactic(auto, using(crate::proofs::StatementLevels::statement_levels))]
fn add_branches<'m>(
    uses: &mut Uses<'m>,
    kind: &'m StmtKind,
    line: Line,
    around: Around,
) -> Result<(), Memory>
    requires { is_if kind.now ≡ true }
    ensures { OnOk result (uses.new ≡ uses.old ++ uses_in_kind kind.now line (around_seen around)) }
{
    match kind {
        StmtKind::If(all, other) => {
            let arms = all.as_slice();
            for arm in arms {
                add_expr(uses, &arm.0)?;
                add_block(uses, arm.1.as_slice(), around)?;
            }
            add_maybe_block(uses, other, around)
        }
        _ => unreachable!(),
    }
}

#[cycle(statements)]
#[tactic(auto, using(crate::proofs::StatementLevels::statement_levels))]
fn add_clauses<'m>(uses: &mut Uses<'m>, clauses: &'m [Clause], around: Around) -> Result<(), Memory>
    ensures { OnOk result (uses.new ≡ uses.old ++ clauses_uses (around_seen around) clauses.now) }
{
    for clause in clauses {
        add_clause(uses, clause, around)?;
    }
    Ok(())
}

#[cycle(statements)]
#[tactic(auto, using(crate::proofs::StatementLevels::statement_levels))]
fn add_clause<'m>(uses: &mut Uses<'m>, clause: &'m Clause, around: Around) -> Result<(), Memory>
    ensures { OnOk result (uses.new ≡ uses.old ++ uses_in_clause clause.now (around_seen around)) }
{
    add_caught(uses, clause.line, &clause.classes)?;
    add_name_after_as(uses, clause.line, &clause.name)?;
    add_block(uses, clause.body.as_slice(), around.in_clause())
}

fn add_unless<'m>(
    uses: &mut Uses<'m>,
    allowed: bool,
    line: Line,
    use_: Use<'m>,
) -> Result<(), Memory>
    ensures { OnOk result (uses.new ≡ uses.old ++ unless allowed line (seen use_.entry)) }
{
    if allowed {
        Ok(())
    } else {
        uses.add(line, use_)
    }
}

pub(crate) fn add_maybe<'m>(uses: &mut Uses<'m>, x: &'m Option<Expr>) -> Result<(), Memory>
    ensures { OnOk result (uses.new ≡ uses.old ++ maybe_uses x.now) }
{
    match x {
        None => Ok(()),
        Some(x) => add_expr(uses, x),
    }
}

pub(crate) fn add_annotation<'m>(
    uses: &mut Uses<'m>,
    line: Line,
    annotation: &'m Option<Annotation>,
) -> Result<(), Memory>
    ensures { OnOk result (uses.new ≡ uses.old ++ annotated line annotation.now) }
{
    match annotation {
        None => Ok(()),
        Some(annotation) => uses.add(line, Use::Annotated(annotation)),
    }
}

fn add_bound<'m>(uses: &mut Uses<'m>, line: Line, names: &'m [Name]) -> Result<(), Memory>
    ensures { OnOk result (uses.new ≡ uses.old ++ binds line names.now) }
{
    for name in names {
        uses.add(line, Use::Binds(name))?;
    }
    Ok(())
}

fn add_target<'m>(uses: &mut Uses<'m>, line: Line, target: &'m Target) -> Result<(), Memory>
    ensures { OnOk result (uses.new ≡ uses.old ++ target_uses line target.now) }
{
    match target {
        Target::Name(name) => uses.add(line, Use::Binds(name)),
        Target::Attr(x, name) => {
            add_expr(uses, x)?;
            uses.add(line, Use::Attribute(name))
        }
        Target::Index(x, i) => {
            add_expr(uses, x)?;
            add_expr(uses, i)
        }
    }
}

fn add_targets<'m>(uses: &mut Uses<'m>, line: Line, targets: &'m [Target]) -> Result<(), Memory>
    ensures { OnOk result (uses.new ≡ uses.old ++ flat_map (target_uses line) targets.now) }
{
    for target in targets {
        add_target(uses, line, target)?;
    }
    Ok(())
}

fn add_caught<'m>(
    uses: &mut Uses<'m>,
    line: Line,
    classes: &'m Option<Items<Name>>,
) -> Result<(), Memory>
    ensures { OnOk result (uses.new ≡ uses.old ++ catches line classes.now) }
{
    match classes {
        None => Ok(()),
        Some(classes) => {
            let all = classes.as_slice();
            for name in all {
                uses.add(line, Use::Catches(name))?;
            }
            Ok(())
        }
    }
}

fn add_name_after_as<'m>(
    uses: &mut Uses<'m>,
    line: Line,
    name: &'m Option<Name>,
) -> Result<(), Memory>
    ensures { OnOk result (uses.new ≡ uses.old ++ bound_as line name.now) }
{
    match name {
        None => Ok(()),
        Some(name) => uses.add(line, Use::Binds(name)),
    }
}
