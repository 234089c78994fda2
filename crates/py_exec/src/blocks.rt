// Blocks, and which of them runs (Language Reference 8.1).
ghost use Rattle.std.specs.Prelude.{◌≡◌, ◌+◌, ◌<◌, ◌≤◌, if◌then◌else◌, List, Ok, IfOk};
ghost use Rattle.py_plain.specs.Calls.{block};
ghost use Rattle.py_plain.specs.Decisions.{decided};
ghost use Rattle.py_plain.specs.Exceptions.{maybe_block};
ghost use Rattle.py_plain.specs.Runs.{Run, Finding as Found, nothing, watched_by};
ghost use Rattle.py_plain.specs.Statements.{branches, value_of, means};
ghost use Rattle.py_frames.specs.declared.control.Control.{Control as Stacked};
ghost use Rattle.py_frames.specs.declared.control.Doing.TheVariants as d;
ghost use Rattle.py_frames.specs.Loads.{weight, load, load_of};
ghost use Rattle.py_eval.specs.Transitions.{Anywhere};

use py_effects::{Finding, decide, is_true};
use py_frames::{Control, Doing, Pending, Probe, Step, Tail, laws_of_frames};
use py_meaning::Value;
use py_objects::Objects;
use py_plain::{Judged, State};
use py_syntax::{Expr, Stmt};
use pyn_base::{Memory, NodeId};
use sqlite_items::Items;

/// A decision of a statement, which the probe is told.
pub(crate) fn decided<P: Probe>(s: &mut State<Objects, P>, node: NodeId, x: &Finding) -> bool
    ensures meant { (on_true on_false : Run P Found) → decided (watched_by P.after_began P.after_judged) node on_true on_false x.now s.old ≡ (if result then on_true else on_false) s.new }
    ensures spends { s.new.left ≡ s.old.left }
{
    let outcome = is_true(s, &x.0);
    decide(s, node, &x.1, outcome);
    outcome
}

/// What a statement gives that ends normally.
pub(crate) fn passed<'s>() -> Doing<'s>
    ensures { result ≡ d.Finished (Ok nothing) }
{
    Doing::Finished(Ok((Value::None, Judged::Plain(false))))
}

/// The next statement of a block, or its end.
pub fn next_stmt<'s, W>(
    stack: &mut Vec<Control<'s>>,
    body: Tail<'s, Stmt>,
) -> Result<Doing<'s>, Memory>
    ensures meant { IfOk result (λ next. Anywhere W (λ watcher program. block watcher program (means watcher program) body.entry) stack.old.items stack.new.items next) }
    ensures falls { IfOk result (λ next. load stack.new.items next < weight stack.old.items + 6) }
{
    laws_of_frames::<W>();
    match body.first() {
        None => Ok(passed()),
        Some((first, more)) => {
            stack.push(Control::Then(Pending::Step(Step::Block(more))))?;
            Ok(Doing::Exec(first))
        }
    }
}

/// A block that may be missing.
pub(crate) fn start_block<'s, W>(body: &'s Option<Items<Stmt>>) -> Doing<'s>
    ensures meant { (stack : List Stacked) → Anywhere W (λ watcher program. maybe_block watcher program (value_of watcher program) (means watcher program) body.now) stack stack result }
    ensures falls { load_of result ≤ 6 }
{
    match body {
        None => passed(),
        Some(body) => Doing::Block(Tail::all(body)),
    }
}

/// The next test of an `if`, or its `else` block.
pub(crate) fn next_branch<'s, W>(
    stack: &mut Vec<Control<'s>>,
    arms: Tail<'s, (Expr, Items<Stmt>)>,
    other: &'s Option<Items<Stmt>>,
) -> Result<Doing<'s>, Memory>
    ensures meant { IfOk result (λ next. Anywhere W (λ watcher program. branches watcher program (value_of watcher program) (means watcher program) arms.entry other.now) stack.old.items stack.new.items next) }
    ensures falls { IfOk result (λ next. load stack.new.items next < weight stack.old.items + 8) }
{
    laws_of_frames::<W>();
    match arms.first() {
        None => Ok(start_block::<W>(other)),
        Some((arm, more)) => {
            let entry = Step::If(arm.0.node, &arm.1, more, other);
            stack.push(Control::Then(Pending::Step(entry)))?;
            Ok(Doing::Eval(&arm.0))
        }
    }
}
