// Arguments of calls: plain ones, then named ones (Language Reference 6.3.4).
ghost use Rattle.std.specs.Prelude.{◌≡◌, ◌+◌, IfOk};
ghost use Rattle.py_plain.specs.Expressions.{arguments, named_arguments, plain_arguments};
ghost use Rattle.py_plain.specs.Runs.{watched_by};
ghost use Rattle.py_plain.specs.Statements.{value_of, means};
ghost use Rattle.py_frames.specs.declared.pending.Pending.TheVariants as p;
ghost use Rattle.py_frames.specs.Loads.{pending_weight, weight, load, Sinks};
ghost use Rattle.py_frames.specs.Rest.{Goes, after_argument};

use crate::calls::call;
use py_calls::initialized;
use py_effects::Finding;
use py_frames::{Argument, Control, Doing, Pending, Probe, Tail, laws_of_frames};
use py_lookups::find;
use py_meaning::{Sequence, Value};
use py_objects::Objects;
use py_plain::{Callee, State};
use py_syntax::{Args, Expr};
use py_tables::Tables;
use pyn_base::{Memory, Name};
use sqlite_items::Items;

/// The next named argument, or the call.
fn next_named<'s, P: Probe>(
    s: &mut State<Objects, P>,
    stack: &mut Vec<Control<'s>>,
    tables: &'s Tables<'_>,
    f: Callee,
    plain: Sequence<Value>,
    done: Sequence<(Name, Value)>,
    named: Tail<'s, (Name, Expr)>,
) -> Result<Doing<'s>, Memory>
    ensures meant { let watcher = watched_by P.after_began P.after_judged in IfOk result (λ next. Goes watcher tables.now stack.old.items (named_arguments watcher tables.now (value_of watcher tables.now) (means watcher tables.now) f plain done named.entry) s.old stack.new.items next s.new) }
    ensures falls { IfOk result (λ next. Sinks s.old.left s.new.left (weight stack.old.items + 7) (load stack.new.items next)) }
{
    laws_of_frames::<P>();
    match named.first() {
        None => {
            let next = call(s, stack, tables, f, plain, done.as_slice())?;
            Ok(next)
        }
        Some((first, more)) => {
            let entry = Argument::Named(f, plain, done, &first.0, more);
            stack.push(Control::Then(Pending::Argument(entry)))?;
            Ok(Doing::Eval(&first.1))
        }
    }
}

/// The next plain argument, or what follows them.
fn next_plain<'s, P: Probe>(
    s: &mut State<Objects, P>,
    stack: &mut Vec<Control<'s>>,
    tables: &'s Tables<'_>,
    f: Callee,
    done: Sequence<Value>,
    plain: Tail<'s, Expr>,
    named: &'s Items<(Name, Expr)>,
) -> Result<Doing<'s>, Memory>
    ensures meant { let watcher = watched_by P.after_began P.after_judged in IfOk result (λ next. Goes watcher tables.now stack.old.items (plain_arguments watcher tables.now (value_of watcher tables.now) (means watcher tables.now) f done plain.entry named.now) s.old stack.new.items next s.new) }
    ensures falls { IfOk result (λ next. Sinks s.old.left s.new.left (weight stack.old.items + 7) (load stack.new.items next)) }
{
    laws_of_frames::<P>();
    match plain.first() {
        None => {
            let none = Sequence::new(s.objects.alloc());
            let next = next_named(s, stack, tables, f, done, none, Tail::all(named))?;
            Ok(next)
        }
        Some((first, more)) => {
            let entry = Argument::Plain(f, done, more, named);
            stack.push(Control::Then(Pending::Argument(entry)))?;
            Ok(Doing::Eval(first))
        }
    }
}

/// The arguments of a call whose callee is known.
pub(crate) fn start_arguments<'s, P: Probe>(
    s: &mut State<Objects, P>,
    stack: &mut Vec<Control<'s>>,
    tables: &'s Tables<'_>,
    f: Callee,
    args: &'s Args,
) -> Result<Doing<'s>, Memory>
    ensures meant { let watcher = watched_by P.after_began P.after_judged in IfOk result (λ next. Goes watcher tables.now stack.old.items (arguments watcher tables.now (value_of watcher tables.now) (means watcher tables.now) args.now f) s.old stack.new.items next s.new) }
    ensures falls { IfOk result (λ next. Sinks s.old.left s.new.left (weight stack.old.items + 7) (load stack.new.items next)) }
{
    let none = Sequence::new(s.objects.alloc());
    let next = next_plain(
        s,
        stack,
        tables,
        f,
        none,
        Tail::all(&args.plain),
        &args.named,
    )?;
    Ok(next)
}

/// A call goes on with the value of the part that was evaluated.
pub fn resume_argument<'s, P: Probe>(
    s: &mut State<Objects, P>,
    stack: &mut Vec<Control<'s>>,
    tables: &'s Tables<'_>,
    pending: Argument<'s>,
    x: Finding,
) -> Result<Doing<'s>, Memory>
    ensures meant { let watcher = watched_by P.after_began P.after_judged in IfOk result (λ next. Goes watcher tables.now stack.old.items (after_argument watcher tables.now pending.entry x) s.old stack.new.items next s.new) }
    ensures falls { IfOk result (λ next. Sinks s.old.left s.new.left (weight stack.old.items + pending_weight (p.Argument pending.entry) + 5) (load stack.new.items next)) }
{
    let x = x.0;
    match pending {
        Argument::Callee(args) => {
            let next = start_arguments(s, stack, tables, Callee::Value(x), args)?;
            Ok(next)
        }
        Argument::Receiver(name, args) => match find(s, tables, &x, name)? {
            Ok(found) => {
                let next = start_arguments(s, stack, tables, found, args)?;
                Ok(next)
            }
            Err(why) => Ok(Doing::Finished(Err(why))),
        },
        Argument::Plain(f, mut done, more, named) => {
            done.push(x)?;
            let next = next_plain(s, stack, tables, f, done, more, named)?;
            Ok(next)
        }
        Argument::Named(f, plain, mut done, name, more) => {
            done.push((name.to_owned(s.objects.alloc())?, x))?;
            let next = next_named(s, stack, tables, f, plain, done, more)?;
            Ok(next)
        }
        Argument::Initialized(id) => {
            let end = initialized(s, id, &x)?;
            Ok(Doing::Finished(end))
        }
    }
}
