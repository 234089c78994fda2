// `for` loops (Language Reference 8.3 and 7.9 to 7.10).
ghost use Rattle.std.specs.Prelude.{◌≡◌, ◌+◌, ◌≤◌, ◌<◌, true, IfOk, OnOk};
ghost use Rattle.py_meaning.specs.declared.value.Value.{out-Value};
ghost use Rattle.py_meaning.specs.Walk.{gives_new_tuples};
ghost use Rattle.py_plain.specs.Calls.{block};
ghost use Rattle.py_plain.specs.Loops.{after_turn, checks, element_at, for_element, for_value, for_walk, makes_element};
ghost use Rattle.py_plain.specs.Program.{Program};
ghost use Rattle.py_plain.specs.Runs.{Run, Finding as Found, after_end, go_on, takes, watched_by};
ghost use Rattle.py_plain.specs.Statements.{value_of, means};
ghost use Rattle.py_frames.specs.declared.control.Doing.TheVariants as d;
ghost use Rattle.py_frames.specs.Loads.{weight, load, load_of, Sinks};
ghost use Rattle.py_frames.specs.Rest.{Goes};
ghost use Rattle.py_eval.specs.Transitions.{Anywhere};
ghost use Rattle.py_exec.specs.Elements.{binds_element};

use crate::blocks::passed;
use py_effects::{Finding, Outcome, bind_names, decide, raise, take};
use py_frames::{Control, Doing, Probe, Tail, laws_of_frames};
use py_meaning::{TUPLE_LIMIT, Value, View};
use py_objects::Objects;
use py_plain::{Abrupt, Judged, State, Walk, laws_of_meaning};
use py_syntax::Stmt;
use py_walks::{
    advanced, changes_at, dict_walked, element_at, is_walked, size_at, walk_from_start,
};
use pyn_base::{BuiltClass, Construct, Memory, Name, NodeId};
use sqlite_items::Items;

/// A dict that has changed: another length raises, and other keys at the same length leave.
fn check<W: Drop>(s: &mut State<Objects, W>, walk: &Walk) -> Result<Outcome<()>, Memory>
    ensures meant { IfOk result (λ end. checks walk.now s.old ≡ (end, s.new)) }
    ensures spends { s.new.left ≡ s.old.left }
{
    let dict = dict_walked(&s.objects, &walk.of);
    if size_at(&s.objects, dict) == walk.size {
        if changes_at(&s.objects, dict) == walk.changes {
            Ok(Ok(()))
        } else {
            Ok(Err(Abrupt::Left(Construct::DictChanged)))
        }
    } else {
        raise(s, BuiltClass::RuntimeError)
    }
}

/// Whether the elements of what is walked are tuples that the walk makes.
#[tactic(auto, using(py_meaning::specs::Folds::views))]
fn gives_new_tuples(x: &Value) -> bool
    ensures { result ≡ gives_new_tuples (out-Value x.now) }
{
    match x {
        Value::View(View::Items(_)) => true,
        _ => false,
    }
}

/// An element that a view of items makes may be too deep a tuple.
fn make_element<W: Drop>(s: &State<Objects, W>, made: bool, x: &Value) -> Outcome<()>
    ensures { makes_element made x.now s.now ≡ (result, s.now) }
{
    if made && x.depth() > TUPLE_LIMIT {
        Err(Abrupt::Left(Construct::TupleDepth))
    } else {
        Ok(())
    }
}

/// An element costs a step.
#[tactic(auto, using(crate::proofs::Taking::steps))]
fn take_one<W: Drop>(s: &mut State<Objects, W>) -> Outcome<()>
    ensures meant { takes 1 s.old ≡ (result, s.new) }
    ensures spends { s.new.left ≤ s.old.left }
    ensures takes { OnOk result (s.new.left < s.old.left) }
{
    take(s, 1)
}

/// An element costs a step, and then names are bound to it.
fn bind_element<P: Probe>(
    s: &mut State<Objects, P>,
    node: NodeId,
    names: &Items<Name>,
    is_tuple: bool,
    made: bool,
    x: &Value,
) -> Result<Outcome<Finding>, Memory>
    ensures meant { let watcher = watched_by P.after_began P.after_judged in IfOk result (λ end. (rest : Run P Found) → binds_element watcher node names.now is_tuple made x.now rest s.old ≡ go_on end s.new (λ _. rest)) }
    ensures spends { s.new.left ≤ s.old.left }
    ensures takes { IfOk result (λ end. OnOk end (s.new.left < s.old.left)) }
{
    if let Err(why) = take_one(s) {
        return Ok(Err(why));
    }
    if let Err(why) = make_element(s, made, x) {
        return Ok(Err(why));
    }
    decide(s, node, &Judged::Plain(true), true);
    let end = bind_names(s, is_tuple, names.as_slice(), x)?;
    Ok(end)
}

/// A turn's block, over the other turns.
fn start_body<'s, W>(
    stack: &mut Vec<Control<'s>>,
    node: NodeId,
    names: &'s Items<Name>,
    is_tuple: bool,
    body: &'s Items<Stmt>,
    walk: Walk,
) -> Result<Doing<'s>, Memory>
    ensures { IfOk result (λ next. Anywhere W (λ watcher program. after_end (block watcher program (means watcher program) body.now) (after_turn (for_walk watcher program (value_of watcher program) (means watcher program) node names.now is_tuple body.now walk))) stack.old.items stack.new.items next) }
{
    laws_of_frames::<W>();
    stack.push(Control::ForBody(node, names, is_tuple, body, walk))?;
    Ok(Doing::Block(Tail::all(body)))
}

/// The next element of a walk, or the end of the loop.
fn next_element<'s, P: Probe>(
    s: &mut State<Objects, P>,
    stack: &mut Vec<Control<'s>>,
    node: NodeId,
    names: &'s Items<Name>,
    is_tuple: bool,
    body: &'s Items<Stmt>,
    walk: Walk,
) -> Result<Doing<'s>, Memory>
    ensures meant { let watcher = watched_by P.after_began P.after_judged in IfOk result (λ next. (program : Program) → Goes watcher program stack.old.items (for_element watcher program (value_of watcher program) (means watcher program) node (λ on. for_walk watcher program (value_of watcher program) (means watcher program) node names.now is_tuple body.now on) names.now is_tuple body.now walk (element_at s.old.objects (out-Value walk.of) walk.at)) s.old stack.new.items next s.new) }
    ensures falls { IfOk result (λ next. Sinks s.old.left s.new.left (weight stack.old.items + 6) (load stack.new.items next)) }
{
    match element_at(&s.objects, &walk.of, walk.at)? {
        None => {
            decide(s, node, &Judged::Plain(false), false);
            Ok(passed())
        }
        Some(x) => {
            let made = gives_new_tuples(&walk.of);
            match bind_element(s, node, names, is_tuple, made, &x)? {
                Ok(_) => {
                    let walk = advanced(walk)?;
                    let next = start_body::<P>(stack, node, names, is_tuple, body, walk)?;
                    Ok(next)
                }
                Err(why) => Ok(Doing::Finished(Err(why))),
            }
        }
    }
}

/// A turn of a `for`: the next element of what is walked, which must not have changed.
fn start_turn<'s, P: Probe>(
    s: &mut State<Objects, P>,
    stack: &mut Vec<Control<'s>>,
    node: NodeId,
    names: &'s Items<Name>,
    is_tuple: bool,
    body: &'s Items<Stmt>,
    walk: Walk,
) -> Result<Doing<'s>, Memory>
    ensures meant { let watcher = watched_by P.after_began P.after_judged in IfOk result (λ next. (program : Program) → Goes watcher program stack.old.items (for_walk watcher program (value_of watcher program) (means watcher program) node names.now is_tuple body.now walk) s.old stack.new.items next s.new) }
    ensures falls { IfOk result (λ next. Sinks s.old.left s.new.left (weight stack.old.items + 6) (load stack.new.items next)) }
{
    laws_of_meaning::<P, P>();
    match check(s, &walk)? {
        Ok(()) => {
            let next = next_element(s, stack, node, names, is_tuple, body, walk)?;
            Ok(next)
        }
        Err(why) => Ok(Doing::Finished(Err(why))),
    }
}

/// A `for` whose value is there.
pub(crate) fn start_walk<'s, P: Probe>(
    s: &mut State<Objects, P>,
    stack: &mut Vec<Control<'s>>,
    node: NodeId,
    names: &'s Items<Name>,
    is_tuple: bool,
    body: &'s Items<Stmt>,
    x: Value,
) -> Result<Doing<'s>, Memory>
    ensures meant { let watcher = watched_by P.after_began P.after_judged in IfOk result (λ next. (program : Program) → Goes watcher program stack.old.items (for_value watcher program (value_of watcher program) (means watcher program) node names.now is_tuple body.now x) s.old stack.new.items next s.new) }
    ensures falls { IfOk result (λ next. Sinks s.old.left s.new.left (weight stack.old.items + 6) (load stack.new.items next)) }
{
    if is_walked(&s.objects, &x) {
        let walk = walk_from_start(&s.objects, x);
        let next = start_turn(s, stack, node, names, is_tuple, body, walk)?;
        Ok(next)
    } else {
        let end = raise(s, BuiltClass::TypeError)?;
        Ok(Doing::Finished(end))
    }
}

/// After a turn's block: the next turn, or the end of the loop.
pub fn end_walk_turn<'s, P: Probe>(
    s: &mut State<Objects, P>,
    stack: &mut Vec<Control<'s>>,
    node: NodeId,
    names: &'s Items<Name>,
    is_tuple: bool,
    body: &'s Items<Stmt>,
    walk: Walk,
    end: Outcome<Finding>,
) -> Result<Doing<'s>, Memory>
    ensures meant { let watcher = watched_by P.after_began P.after_judged in IfOk result (λ next. (program : Program) → Goes watcher program stack.old.items (after_turn (for_walk watcher program (value_of watcher program) (means watcher program) node names.now is_tuple body.now walk) end) s.old stack.new.items next s.new) }
    ensures falls { IfOk result (λ next. Sinks s.old.left s.new.left (weight stack.old.items + 1 + load_of (d.Finished end)) (load stack.new.items next)) }
{
    match end {
        Ok(_) => {
            let next = start_turn(s, stack, node, names, is_tuple, body, walk)?;
            Ok(next)
        }
        Err(Abrupt::Continued) => {
            let next = start_turn(s, stack, node, names, is_tuple, body, walk)?;
            Ok(next)
        }
        Err(Abrupt::Broke) => Ok(passed()),
        Err(why) => Ok(Doing::Finished(Err(why))),
    }
}
