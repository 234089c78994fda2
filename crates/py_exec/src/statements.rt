// Statements that begin (Language Reference, chapters 7 and 8).
ghost use Rattle.std.specs.Prelude.{◌≡◌, ◌+◌, ◌≤◌, IfOk};
ghost use Rattle.py_syntax.specs.declared.stmt.StmtKind.{out-StmtKind};
ghost use Rattle.py_plain.specs.Assignments.{assigns, augments_target, deletes};
ghost use Rattle.py_plain.specs.Exceptions.{assert as asserts, tries};
ghost use Rattle.py_plain.specs.Loops.{for_loop};
ghost use Rattle.py_plain.specs.Runs.{watched_by};
ghost use Rattle.py_plain.specs.Statements.{does_by, returns, value_of, means};
ghost use Rattle.py_frames.specs.Loads.{weight, load, Sinks};
ghost use Rattle.py_frames.specs.Rest.{Goes};
ghost use Rattle.py_eval.specs.Transitions.{Anywhere, GoesOn};
ghost use Rattle.py_exec.specs.Elements.{evaluates};

use crate::blocks::{next_branch, passed};
use crate::loops::start_turn;
use crate::raises::start_raise;
use py_eval::start_augmented_name;
use py_eval_calls::begins;
use py_frames::{Control, Doing, Pending, Probe, Step, Store, Tail, laws_of_frames};
use py_meaning::Value;
use py_objects::Objects;
use py_plain::{Abrupt, State, laws_of_meaning};
use py_syntax::{BinOp, Clause, Expr, Stmt, StmtKind, Target};
use py_tables::Tables;
use pyn_base::{Memory, Name, NodeId};
use sqlite_items::Items;

/// `return`, with None where no value is written.
fn start_return<'s, W>(
    stack: &mut Vec<Control<'s>>,
    e: &'s Option<Expr>,
) -> Result<Doing<'s>, Memory>
    ensures { IfOk result (λ next. Anywhere W (λ watcher program. returns watcher program (value_of watcher program) (means watcher program) e.now) stack.old.items stack.new.items next) }
{
    laws_of_frames::<W>();
    match e {
        None => Ok(Doing::Finished(Err(Abrupt::Returned(Value::None)))),
        Some(e) => {
            stack.push(Control::Then(Pending::Step(Step::Return)))?;
            Ok(Doing::Eval(e))
        }
    }
}

/// `assert`: its test comes first.
fn start_assertion<'s, W>(
    stack: &mut Vec<Control<'s>>,
    test: &'s Expr,
    message: &'s Option<Expr>,
) -> Result<Doing<'s>, Memory>
    ensures { IfOk result (λ next. Anywhere W (λ watcher program. asserts watcher program (value_of watcher program) (means watcher program) test.now message.now) stack.old.items stack.new.items next) }
{
    laws_of_frames::<W>();
    stack.push(Control::Then(Pending::Step(Step::Assert(test.node, message))))?;
    Ok(Doing::Eval(test))
}

/// `del object[index]`: the object comes first.
fn start_deletion<'s, W>(
    stack: &mut Vec<Control<'s>>,
    of: &'s Expr,
    at: &'s Expr,
) -> Result<Doing<'s>, Memory>
    ensures { IfOk result (λ next. Anywhere W (λ watcher program. deletes program (value_of watcher program) of.now at.now) stack.old.items stack.new.items next) }
{
    laws_of_frames::<W>();
    stack.push(Control::Then(Pending::Store(Store::DeleteIndex(at))))?;
    Ok(Doing::Eval(of))
}

/// An assignment: the value comes first.
fn start_assignment<'s, W>(
    stack: &mut Vec<Control<'s>>,
    targets: &'s Items<Target>,
    is_tuple: bool,
    e: &'s Expr,
) -> Result<Doing<'s>, Memory>
    ensures { IfOk result (λ next. Anywhere W (λ watcher program. assigns program (value_of watcher program) targets.now is_tuple e.now) stack.old.items stack.new.items next) }
{
    laws_of_frames::<W>();
    stack.push(Control::Then(Pending::Store(Store::Targets(targets, is_tuple))))?;
    Ok(Doing::Eval(e))
}

/// An expression alone, whose value is let go.
fn start_bare<'s, W>(stack: &mut Vec<Control<'s>>, e: &'s Expr) -> Result<Doing<'s>, Memory>
    ensures { IfOk result (λ next. Anywhere W (λ watcher program. evaluates (value_of watcher program) e.now) stack.old.items stack.new.items next) }
{
    laws_of_frames::<W>();
    stack.push(Control::Then(Pending::Step(Step::Bare)))?;
    Ok(Doing::Eval(e))
}

/// `for`: what is walked comes first.
fn start_for<'s, W>(
    stack: &mut Vec<Control<'s>>,
    node: NodeId,
    names: &'s Items<Name>,
    is_tuple: bool,
    e: &'s Expr,
    body: &'s Items<Stmt>,
) -> Result<Doing<'s>, Memory>
    ensures { IfOk result (λ next. Anywhere W (λ watcher program. for_loop watcher program (value_of watcher program) (means watcher program) node names.now is_tuple e.now body.now) stack.old.items stack.new.items next) }
{
    laws_of_frames::<W>();
    stack.push(Control::Then(Pending::Step(Step::For(node, names, is_tuple, body))))?;
    Ok(Doing::Eval(e))
}

/// An augmented assignment: the target's parts come first.
fn start_augmented<'s, W: Drop>(
    s: &mut State<Objects, W>,
    stack: &mut Vec<Control<'s>>,
    tables: &Tables,
    target: &'s Target,
    op: BinOp,
    e: &'s Expr,
) -> Result<Doing<'s>, Memory>
    ensures meant { IfOk result (λ next. GoesOn tables.now (λ watcher. augments_target tables.now (value_of watcher tables.now) target.now op e.now) stack.old.items s.old stack.new.items next s.new) }
    ensures spends { IfOk result (λ _. s.new.left ≤ s.old.left) }
{
    laws_of_frames::<W>();
    match target {
        Target::Name(name) => {
            let next = start_augmented_name(s, stack, tables, name, op, e)?;
            Ok(next)
        }
        Target::Attr(of, name) => {
            let entry = Store::AugmentAttributeOf(name, op, e);
            stack.push(Control::Then(Pending::Store(entry)))?;
            Ok(Doing::Eval(of))
        }
        Target::Index(of, at) => {
            let entry = Store::AugmentIndexOf(at, op, e);
            stack.push(Control::Then(Pending::Store(entry)))?;
            Ok(Doing::Eval(of))
        }
    }
}

/// `try`: its body comes first, over what follows it and over the end of all.
fn start_try<'s, W>(
    stack: &mut Vec<Control<'s>>,
    body: &'s Items<Stmt>,
    clauses: &'s Items<Clause>,
    other: &'s Option<Items<Stmt>>,
    last: &'s Option<Items<Stmt>>,
) -> Result<Doing<'s>, Memory>
    ensures { IfOk result (λ next. Anywhere W (λ watcher program. tries watcher program (value_of watcher program) (means watcher program) body.now clauses.now other.now last.now) stack.old.items stack.new.items next) }
{
    laws_of_frames::<W>();
    stack.push(Control::TryLast(last))?;
    stack.push(Control::TryBody(clauses, other))?;
    Ok(Doing::Block(Tail::all(body)))
}

/// A statement whose node has begun, by its kind.
fn exec_kind<'s, P: Probe>(
    s: &mut State<Objects, P>,
    stack: &mut Vec<Control<'s>>,
    tables: &'s Tables<'_>,
    node: NodeId,
    kind: &'s StmtKind,
) -> Result<Doing<'s>, Memory>
    ensures meant { let watcher = watched_by P.after_began P.after_judged in IfOk result (λ next. Goes watcher tables.now stack.old.items (does_by watcher tables.now (value_of watcher tables.now) (means watcher tables.now) node (out-StmtKind kind.now)) s.old stack.new.items next s.new) }
    ensures spends { IfOk result (λ _. s.new.left ≤ s.old.left) }
{
    match kind {
        StmtKind::Pass => Ok(passed()),
        StmtKind::Break => Ok(Doing::Finished(Err(Abrupt::Broke))),
        StmtKind::Continue => Ok(Doing::Finished(Err(Abrupt::Continued))),
        StmtKind::Return(e) => {
            let next = start_return::<P>(stack, e)?;
            Ok(next)
        }
        StmtKind::Raise(e) => {
            let next = start_raise(s, stack, e)?;
            Ok(next)
        }
        StmtKind::Assert(test, message) => {
            let next = start_assertion::<P>(stack, test, message)?;
            Ok(next)
        }
        StmtKind::Del(of, at) => {
            let next = start_deletion::<P>(stack, of, at)?;
            Ok(next)
        }
        StmtKind::Assign(targets, is_tuple, _, e) => {
            let next = start_assignment::<P>(stack, targets, *is_tuple, e)?;
            Ok(next)
        }
        StmtKind::Augment(target, op, e) => {
            let next = start_augmented(s, stack, tables, target, *op, e)?;
            Ok(next)
        }
        StmtKind::Bare(e) => {
            let next = start_bare::<P>(stack, e)?;
            Ok(next)
        }
        StmtKind::If(arms, other) => {
            let next = next_branch::<P>(stack, Tail::all(arms), other)?;
            Ok(next)
        }
        StmtKind::While(test, body) => {
            let next = start_turn::<P>(stack, test, body)?;
            Ok(next)
        }
        StmtKind::For(names, is_tuple, e, body) => {
            let next = start_for::<P>(stack, node, names, *is_tuple, e, body)?;
            Ok(next)
        }
        StmtKind::Try(body, clauses, other, last) => {
            let next = start_try::<P>(stack, body, clauses, other, last)?;
            Ok(next)
        }
    }
}

/// A statement begins, and takes a step if one is left.
pub fn exec<'s, P: Probe>(
    s: &mut State<Objects, P>,
    stack: &mut Vec<Control<'s>>,
    tables: &'s Tables<'_>,
    stmt: &'s Stmt,
) -> Result<Doing<'s>, Memory>
    ensures meant { let watcher = watched_by P.after_began P.after_judged in IfOk result (λ next. Goes watcher tables.now stack.old.items (means watcher tables.now stmt.now) s.old stack.new.items next s.new) }
    ensures falls { IfOk result (λ next. Sinks s.old.left s.new.left (weight stack.old.items + 1) (load stack.new.items next)) }
{
    laws_of_meaning::<P, P>();
    if begins(s, stmt.node) {
        let next = exec_kind(s, stack, tables, stmt.node, &stmt.kind)?;
        Ok(next)
    } else {
        Ok(Doing::Finished(Err(Abrupt::OutOfSteps)))
    }
}
