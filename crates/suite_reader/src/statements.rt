// Statements of a test, by their forms.
ghost use Rattle.std.specs.Prelude.{◌≡◌, IfOk};
ghost use Rattle.suite_file.specs.Spelled.{assigned_to, spelled_in, alone_in};

use crate::assertions::condition_in;
use crate::rights::right_in;
use crate::variables::variable_named;
use py_syntax::{Expr, Stmt, StmtKind, Target};
use pyn_base::Memory;
use std::alloc::Global;
use suite_file::{Right, Spelled};

/// The step that assigns to one variable.
fn assigned_to(alloc: Global, targets: &[Target], value: &Expr) -> Result<Option<Spelled>, Memory>
    ensures { IfOk result (λ found. found ≡ assigned_to targets.now value.now) }
{
    match targets {
        [Target::Name(name)] => match variable_named(name) {
            None => Ok(None),
            Some(k) => match right_in(alloc, value)? {
                None => Ok(None),
                Some(made) => Ok(Some(Spelled::Assigns(k, made))),
            },
        },
        _ => Ok(None),
    }
}

/// The step or the assertion that a statement is.
pub fn spelled_in(alloc: Global, stmt: &Stmt) -> Result<Option<Spelled>, Memory>
    ensures { IfOk result (λ found. found ≡ spelled_in stmt.now) }
{
    match &stmt.kind {
        StmtKind::Assign(targets, false, None, value) => {
            assigned_to(alloc, targets.as_slice(), value)
        }
        StmtKind::Assert(condition, None) => condition_in(alloc, condition),
        _ => Ok(None),
    }
}

/// What the statement of a block makes.
pub fn alone_in(alloc: Global, stmt: &Stmt) -> Result<Option<Right>, Memory>
    ensures { IfOk result (λ found. found ≡ alone_in stmt.now) }
{
    match &stmt.kind {
        StmtKind::Bare(e) => right_in(alloc, e),
        _ => Ok(None),
    }
}
