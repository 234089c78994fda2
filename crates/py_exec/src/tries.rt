// `try` and all ways out of it (Language Reference 8.4).
ghost use Rattle.std.specs.Prelude.{◌≡◌, ◌+◌, ◌<◌, ◌≤◌, IfOk, OnOk, IfSome};
ghost use Rattle.py_meaning.specs.Worlds.{World};
ghost use Rattle.py_plain.specs.declared.state.State.{State as Stood};
ghost use Rattle.py_plain.specs.Exceptions.{after_body, after_clause, finally, is_final, kept, runs_clause, tries_clauses};
ghost use Rattle.py_plain.specs.Runs.{Run, Finding as Found, go_on, watched_by};
ghost use Rattle.py_plain.specs.Statements.{value_of, means};
ghost use Rattle.py_frames.specs.declared.control.Doing.TheVariants as d;
ghost use Rattle.py_frames.specs.Loads.{weight, load, load_of, Sinks};
ghost use Rattle.py_frames.specs.Rest.{Goes};
ghost use Rattle.py_eval.specs.Transitions.{Anywhere, Continues};
ghost use Rattle.py_exec.specs.Handlers.{tried, runs_handler, runs_found};

use crate::blocks::start_block;
use py_effects::{Finding, Outcome, bind_as, decide, enter_clause, leave_clause, unbind_as};
use py_eval_calls::begins;
use py_frames::{Control, Doing, Probe, Tail, laws_of_frames};
use py_lookups::{class_of_object, handles};
use py_objects::Objects;
use py_plain::{Abrupt, Judged, State};
use py_syntax::{Clause, Stmt};
use py_tables::Tables;
use pyn_base::{Memory, Name, ObjId};
use sqlite_items::Items;

/// A clause's block, in which its exception is being handled.
fn run_clause<'s, W: Drop>(
    s: &mut State<Objects, W>,
    stack: &mut Vec<Control<'s>>,
    clause: &'s Clause,
    id: ObjId,
) -> Result<Doing<'s>, Memory>
    ensures meant { IfOk result (λ next. Continues (λ watcher program. runs_clause watcher program (value_of watcher program) (means watcher program) clause.now id) stack.old.items s.old stack.new.items next s.new) }
    ensures spends { s.new.left ≡ s.old.left }
{
    laws_of_frames::<W>();
    bind_as(s, &clause.name, id)?;
    enter_clause(s, id)?;
    stack.push(Control::ClauseBody(&clause.name))?;
    Ok(Doing::Block(Tail::all(&clause.body)))
}

/// A clause that is tried begins, and whether it handles the exception is a decision.
fn try_clause<P: Probe>(
    s: &mut State<Objects, P>,
    tables: &Tables,
    clause: &Clause,
    id: ObjId,
) -> Outcome<bool>
    ensures meant { let watcher = watched_by P.after_began P.after_judged in (others : Run P Found) → tried watcher tables.now id clause.now others s.old ≡ go_on result s.new (runs_handler watcher tables.now id clause.now others) }
    ensures spends { s.new.left ≤ s.old.left }
    ensures takes { OnOk result (s.new.left < s.old.left) }
{
    if begins(s, clause.node) {
        let class = class_of_object(&s.objects, id);
        let outcome = handles(tables, &s.space, class, &clause.classes);
        decide(s, clause.node, &Judged::Plain(outcome), outcome);
        Ok(outcome)
    } else {
        Err(Abrupt::OutOfSteps)
    }
}

/// The first clause that handles an exception, if one does.
fn first_handler<'s, P: Probe>(
    s: &mut State<Objects, P>,
    tables: &Tables,
    clauses: &'s [Clause],
    id: ObjId,
) -> Outcome<Option<&'s Clause>>
    ensures meant { let watcher = watched_by P.after_began P.after_judged in tries_clauses watcher tables.now (value_of watcher tables.now) (means watcher tables.now) clauses.now id s.old ≡ go_on result s.new (runs_found watcher tables.now id) }
    ensures spends { s.new.left ≤ s.old.left }
    ensures takes { IfOk result (λ found. IfSome found (λ _. s.new.left < s.old.left)) }
{
    for clause in clauses {
        match try_clause(s, tables, clause, id) {
            Ok(true) => return Ok(Some(clause)),
            Ok(false) => {}
            Err(why) => return Err(why),
        }
    }
    Ok(None)
}

/// The first clause that handles an exception, or its next way out.
fn try_clauses<'s, P: Probe>(
    s: &mut State<Objects, P>,
    stack: &mut Vec<Control<'s>>,
    tables: &Tables,
    clauses: &'s [Clause],
    id: ObjId,
) -> Result<Doing<'s>, Memory>
    ensures meant { let watcher = watched_by P.after_began P.after_judged in IfOk result (λ next. Goes watcher tables.now stack.old.items (tries_clauses watcher tables.now (value_of watcher tables.now) (means watcher tables.now) clauses.now id) s.old stack.new.items next s.new) }
    ensures falls { IfOk result (λ next. Sinks s.old.left s.new.left (weight stack.old.items + 6) (load stack.new.items next)) }
{
    match first_handler(s, tables, clauses, id) {
        Ok(None) => Ok(Doing::Finished(Err(Abrupt::Raised(id)))),
        Ok(Some(clause)) => {
            let next = run_clause(s, stack, clause, id)?;
            Ok(next)
        }
        Err(why) => Ok(Doing::Finished(Err(why))),
    }
}

/// What follows the body of a `try`.
pub fn after_body<'s, P: Probe>(
    s: &mut State<Objects, P>,
    stack: &mut Vec<Control<'s>>,
    tables: &Tables,
    clauses: &'s Items<Clause>,
    other: &'s Option<Items<Stmt>>,
    end: Outcome<Finding>,
) -> Result<Doing<'s>, Memory>
    ensures meant { let watcher = watched_by P.after_began P.after_judged in IfOk result (λ next. Goes watcher tables.now stack.old.items (after_body watcher tables.now (value_of watcher tables.now) (means watcher tables.now) clauses.now other.now end) s.old stack.new.items next s.new) }
    ensures falls { IfOk result (λ next. Sinks s.old.left s.new.left (weight stack.old.items + 3 + load_of (d.Finished end)) (load stack.new.items next)) }
{
    match end {
        Ok(_) => Ok(start_block::<P>(other)),
        Err(Abrupt::Raised(id)) => {
            let next = try_clauses(s, stack, tables, clauses.as_slice(), id)?;
            Ok(next)
        }
        Err(why) => Ok(Doing::Finished(Err(why))),
    }
}

/// The end of a clause, after which its name is bound no more.
pub fn end_clause<W: Drop>(
    s: &mut State<Objects, W>,
    name: &Option<Name>,
    end: Outcome<Finding>,
) -> Outcome<Finding>
    ensures meant { after_clause name.now end s.old ≡ (result, s.new) }
    ensures end { result ≡ end }
    ensures spends { s.new.left ≡ s.old.left }
{
    leave_clause(s);
    unbind_as(s, name);
    end
}

/// Whether an end is that of the whole run, after which nothing runs.
fn is_final(end: &Outcome<Finding>) -> bool
    ensures { result ≡ is_final end.now }
{
    match end {
        Err(Abrupt::OutOfSteps) => true,
        Err(Abrupt::Left(_)) => true,
        _ => false,
    }
}

/// The `finally` block, after any end but those of the whole run.
pub fn start_last<'s, W: Drop>(
    stack: &mut Vec<Control<'s>>,
    last: &'s Option<Items<Stmt>>,
    end: Outcome<Finding>,
) -> Result<Doing<'s>, Memory>
    ensures meant { IfOk result (λ next. Anywhere W (λ watcher program. finally watcher program (value_of watcher program) (means watcher program) last.now end) stack.old.items stack.new.items next) }
    ensures falls { IfOk result (λ next. load stack.new.items next < weight stack.old.items + 3 + load_of (d.Finished end)) }
{
    laws_of_frames::<W>();
    match last {
        None => Ok(Doing::Finished(end)),
        Some(body) => {
            if is_final(&end) {
                Ok(Doing::Finished(end))
            } else {
                stack.push(Control::Keep(end))?;
                Ok(Doing::Block(Tail::all(body)))
            }
        }
    }
}

/// What came before a `finally` block counts where the block ends normally.
pub fn end_last<W>(before: Outcome<Finding>, end: Outcome<Finding>) -> Outcome<Finding>
    ensures { (s : Stood World W) → kept before end s ≡ (result, s) }
{
    match end {
        Ok(_) => before,
        Err(why) => Err(why),
    }
}
