// Decisions within expressions (Language Reference 6.10 to 6.12).
ghost use Rattle.std.specs.Prelude.{◌≡◌, ◌+◌, false, IfOk};
ghost use Rattle.py_plain.specs.Decisions.{judged_chain, conjunction, disjunction, conjoins, disjoins, chain};
ghost use Rattle.py_plain.specs.Statements.{value_of};
ghost use Rattle.py_plain.specs.declared.judged.Judged.TheVariants as j;
ghost use Rattle.py_frames.specs.declared.pending.Decision.TheVariants as decision;
ghost use Rattle.py_frames.specs.Loads.{weight, load, Sinks};
ghost use Rattle.py_frames.specs.Rest.{after_decision};
ghost use Rattle.py_eval.specs.Transitions.{Continues};

use py_effects::{Finding, compare, give, is_true, judge_comparison, negate};
use py_frames::{Control, Decision, Doing, Pending, Tail, laws_of_frames};
use py_meaning::Value;
use py_objects::Objects;
use py_plain::{Judged, State};
use py_syntax::{CmpOp, Expr};
use pyn_base::Memory;
use sqlite_items::{Boxed, Items};

/// How many parts weren't evaluated. A tree of more parts than that has no memory.
fn count(parts: usize) -> Result<u32, Memory>
    ensures { IfOk result (λ n. n ≡ parts) }
{
    if parts > u32::MAX as usize {
        return Err(Memory);
    }
    Ok(parts as u32)
}

/// The next part of `and` after this one, or its value.
fn next_conjunct<'s, W: Drop>(
    s: &State<Objects, W>,
    stack: &mut Vec<Control<'s>>,
    done: Items<Judged>,
    x: Finding,
    parts: Tail<'s, Expr>,
) -> Result<Doing<'s>, Memory>
    ensures meant { IfOk result (λ next. Continues (λ watcher program. conjunction (value_of watcher program) done x parts.entry) stack.old.items s.now stack.new.items next s.now) }
    ensures falls { IfOk result (λ next. Sinks s.now.left s.now.left (weight stack.old.items + 6) (load stack.new.items next)) }
{
    laws_of_frames::<W>();
    let rest = count(parts.len())?;
    let holds = is_true(s, &x.0);
    let mut done = done;
    done.push(x.1)?;
    match parts.first() {
        None => Ok(Doing::Finished(Ok((x.0, Judged::All(done, 0))))),
        Some((first, more)) => {
            if holds {
                stack.push(Control::Then(Pending::Decision(Decision::And(done, more))))?;
                Ok(Doing::Eval(first))
            } else {
                Ok(Doing::Finished(Ok((x.0, Judged::All(done, rest)))))
            }
        }
    }
}

/// The next part of `or` after this one, or its value.
fn next_disjunct<'s, W: Drop>(
    s: &State<Objects, W>,
    stack: &mut Vec<Control<'s>>,
    done: Items<Judged>,
    x: Finding,
    parts: Tail<'s, Expr>,
) -> Result<Doing<'s>, Memory>
    ensures meant { IfOk result (λ next. Continues (λ watcher program. disjunction (value_of watcher program) done x parts.entry) stack.old.items s.now stack.new.items next s.now) }
    ensures falls { IfOk result (λ next. Sinks s.now.left s.now.left (weight stack.old.items + 6) (load stack.new.items next)) }
{
    laws_of_frames::<W>();
    let rest = count(parts.len())?;
    let holds = is_true(s, &x.0);
    let mut done = done;
    done.push(x.1)?;
    match parts.first() {
        None => Ok(Doing::Finished(Ok((x.0, Judged::Any(done, 0))))),
        Some((first, more)) => {
            if holds {
                Ok(Doing::Finished(Ok((x.0, Judged::Any(done, rest)))))
            } else {
                stack.push(Control::Then(Pending::Decision(Decision::Or(done, more))))?;
                Ok(Doing::Eval(first))
            }
        }
    }
}

/// One comparison alone is judged as it is, and a chain by all its parts.
fn judge_chain(parts: Items<Judged>, rest: u32) -> Judged
    ensures { result ≡ judged_chain parts rest }
{
    if rest == 0 && parts.len() == 1 {
        let mut parts = parts;
        match parts.pop() {
            Some(one) => one,
            None => unreachable!(),
        }
    } else {
        Judged::All(parts, rest)
    }
}

/// The next comparison of a chain with this operand, or its truth.
fn next_link<'s, W: Drop>(
    s: &State<Objects, W>,
    stack: &mut Vec<Control<'s>>,
    done: Items<Judged>,
    x: Value,
    links: Tail<'s, (CmpOp, Expr)>,
) -> Result<Doing<'s>, Memory>
    ensures meant { IfOk result (λ next. Continues (λ watcher program. chain (value_of watcher program) done x links.entry) stack.old.items s.now stack.new.items next s.now) }
    ensures falls { IfOk result (λ next. Sinks s.now.left s.now.left (weight stack.old.items + 6) (load stack.new.items next)) }
{
    laws_of_frames::<W>();
    match links.first() {
        None => Ok(Doing::Finished(Ok((Value::Bool(true), judge_chain(done, 0))))),
        Some((link, more)) => {
            stack.push(Control::Then(Pending::Decision(Decision::Link(done, link.0, x, more))))?;
            Ok(Doing::Eval(&link.1))
        }
    }
}

/// Either value of a conditional.
fn choose<'s, W: Drop>(
    s: &State<Objects, W>,
    stack: &mut Vec<Control<'s>>,
    x: Finding,
    e: &'s Boxed<Expr>,
    other: &'s Boxed<Expr>,
) -> Result<Doing<'s>, Memory>
    ensures meant { IfOk result (λ next. Continues (λ watcher program. after_decision watcher program (decision.Choose e.entry other.entry) x) stack.old.items s.now stack.new.items next s.now) }
    ensures falls { IfOk result (λ next. Sinks s.now.left s.now.left (weight stack.old.items + 6) (load stack.new.items next)) }
{
    laws_of_frames::<W>();
    if is_true(s, &x.0) {
        stack.push(Control::Then(Pending::Decision(Decision::Chosen)))?;
        Ok(Doing::Eval(e.get()))
    } else {
        stack.push(Control::Then(Pending::Decision(Decision::Chosen)))?;
        Ok(Doing::Eval(other.get()))
    }
}

/// A comparison of a chain, whose operands are known, and what follows it.
fn resume_link<'s, W: Drop>(
    s: &mut State<Objects, W>,
    stack: &mut Vec<Control<'s>>,
    done: Items<Judged>,
    op: CmpOp,
    left: Value,
    right: Value,
    more: Tail<'s, (CmpOp, Expr)>,
) -> Result<Doing<'s>, Memory>
    ensures meant { IfOk result (λ next. Continues (λ watcher program. after_decision watcher program (decision.Link done op left more.entry) (right, j.Plain false)) stack.old.items s.old stack.new.items next s.new) }
    ensures falls { IfOk result (λ next. Sinks s.old.left s.new.left (weight stack.old.items + 6) (load stack.new.items next)) }
{
    let mut done = done;
    match compare(s, op, &left, &right)? {
        Ok(holds) => {
            done.push(judge_comparison(op, &left, &right, holds))?;
            if holds {
                let next = next_link(s, stack, done, right, more)?;
                Ok(next)
            } else {
                let rest = count(more.len())?;
                Ok(Doing::Finished(Ok((Value::Bool(false), judge_chain(done, rest)))))
            }
        }
        Err(why) => Ok(Doing::Finished(Err(why))),
    }
}

/// A decision goes on with the value of the part that was evaluated.
pub fn resume_decision<'s, W: Drop>(
    s: &mut State<Objects, W>,
    stack: &mut Vec<Control<'s>>,
    pending: Decision<'s>,
    x: Finding,
) -> Result<Doing<'s>, Memory>
    ensures meant { IfOk result (λ next. Continues (λ watcher program. after_decision watcher program pending.entry x) stack.old.items s.old stack.new.items next s.new) }
    ensures falls { IfOk result (λ next. Sinks s.old.left s.new.left (weight stack.old.items + 8) (load stack.new.items next)) }
{
    match pending {
        Decision::Not => {
            let found = negate(s, x)?;
            Ok(Doing::Finished(Ok(found)))
        }
        Decision::And(done, more) => {
            let next = next_conjunct(s, stack, done, x, more)?;
            Ok(next)
        }
        Decision::Or(done, more) => {
            let next = next_disjunct(s, stack, done, x, more)?;
            Ok(next)
        }
        Decision::Compare(others) => {
            let none = Items::new(s.objects.alloc());
            let next = next_link(s, stack, none, x.0, Tail::all(others))?;
            Ok(next)
        }
        Decision::Link(done, op, left, more) => {
            let next = resume_link(s, stack, done, op, left, x.0, more)?;
            Ok(next)
        }
        Decision::Choose(e, other) => {
            let next = choose(s, stack, x, e, other)?;
            Ok(next)
        }
        Decision::Chosen => Ok(Doing::Finished(Ok(give(s, x.0)))),
    }
}

/// `and`: its first part comes first.
pub fn start_conjunction<'s, W: Drop>(
    s: &State<Objects, W>,
    stack: &mut Vec<Control<'s>>,
    parts: &'s Items<Expr>,
) -> Result<Doing<'s>, Memory>
    ensures { IfOk result (λ next. Continues (λ watcher program. conjoins (value_of watcher program) parts.now) stack.old.items s.now stack.new.items next s.now) }
{
    laws_of_frames::<W>();
    match Tail::all(parts).first() {
        None => Ok(Doing::Finished(Ok(give(s, Value::Bool(true))))),
        Some((first, more)) => {
            let none = Items::new(s.objects.alloc());
            stack.push(Control::Then(Pending::Decision(Decision::And(none, more))))?;
            Ok(Doing::Eval(first))
        }
    }
}

/// `or`: its first part comes first.
pub fn start_disjunction<'s, W: Drop>(
    s: &State<Objects, W>,
    stack: &mut Vec<Control<'s>>,
    parts: &'s Items<Expr>,
) -> Result<Doing<'s>, Memory>
    ensures { IfOk result (λ next. Continues (λ watcher program. disjoins (value_of watcher program) parts.now) stack.old.items s.now stack.new.items next s.now) }
{
    laws_of_frames::<W>();
    match Tail::all(parts).first() {
        None => Ok(Doing::Finished(Ok(give(s, Value::Bool(false))))),
        Some((first, more)) => {
            let none = Items::new(s.objects.alloc());
            stack.push(Control::Then(Pending::Decision(Decision::Or(none, more))))?;
            Ok(Doing::Eval(first))
        }
    }
}
