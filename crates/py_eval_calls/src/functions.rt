// Calls of functions of the module (Language Reference 6.3.4).
ghost use Rattle.std.specs.Prelude.{◌≡◌, ◌+◌, ◌<◌, ◌≤◌, ◌∷◌, Ok, Err, if◌then◌else◌, IfOk, IsTrue};
ghost use Rattle.py_meaning.specs.declared.value.Value.TheVariants as v;
ghost use Rattle.py_plain.specs.declared.run.Abrupt.TheVariants as abrupt;
ghost use Rattle.py_plain.specs.Calls.{inside, call_limit, calls_function, initializes};
ghost use Rattle.py_plain.specs.Program.{Program};
ghost use Rattle.py_plain.specs.Runs.{watched_by, begins};
ghost use Rattle.py_plain.specs.Statements.{means};
ghost use Rattle.py_frames.specs.Loads.{weight, load, Sinks};
ghost use Rattle.py_frames.specs.Rest.{Goes};

use py_calls::{enter, fit_call};
use py_effects::begin;
use py_frames::{Argument, Control, Doing, Pending, Probe, Tail, laws_of_frames};
use py_meaning::{Sequence, Value};
use py_objects::Objects;
use py_plain::{Abrupt, State};
use py_tables::{FunctionRow, Tables};
use pyn_base::{FuncId, Memory, Name, NodeId, ObjId};

/// Whether a node begins, which it does unless no step is left.
pub fn begins<P: Probe>(s: &mut State<Objects, P>, node: NodeId) -> bool
    ensures meant { begins (watched_by P.after_began P.after_judged) node s.old ≡ ((if result then Ok tt else Err abrupt.OutOfSteps), s.new) }
    ensures spends { s.new.left ≤ s.old.left }
    ensures takes { IsTrue result → s.new.left < s.old.left }
{
    match begin(s, node) {
        Ok(()) => true,
        Err(_) => false,
    }
}

/// A function begins in a frame of its own, and its caller's waits on the stack.
fn enter_function<'s, P: Probe>(
    s: &mut State<Objects, P>,
    stack: &mut Vec<Control<'s>>,
    f: FuncId,
    row: &'s FunctionRow<'_>,
    variables: Sequence<(Name, Value)>,
) -> Result<Doing<'s>, Memory>
    requires { s.old.depth < call_limit }
    ensures meant { let watcher = watched_by P.after_began P.after_judged in IfOk result (λ next. (program : Program) → Goes watcher program stack.old.items (inside watcher program (means watcher program) f row.now variables) s.old stack.new.items next s.new) }
    ensures falls { IfOk result (λ next. Sinks s.old.left s.new.left (weight stack.old.items + 6) (load stack.new.items next)) }
{
    laws_of_frames::<P>();
    let tree = row.tree();
    let caller = enter(s, f, variables);
    stack.push(Control::Leave(caller))?;
    if begins(s, tree.node) {
        Ok(Doing::Block(Tail::all(&tree.body)))
    } else {
        Ok(Doing::Finished(Err(Abrupt::OutOfSteps)))
    }
}

/// A function of the module is called.
pub(crate) fn call_function<'s, P: Probe>(
    s: &mut State<Objects, P>,
    stack: &mut Vec<Control<'s>>,
    tables: &'s Tables<'_>,
    f: FuncId,
    plain: &[Value],
    named: &[(Name, Value)],
) -> Result<Doing<'s>, Memory>
    ensures meant { let watcher = watched_by P.after_began P.after_judged in IfOk result (λ next. Goes watcher tables.now stack.old.items (calls_function watcher tables.now (means watcher tables.now) f plain.now named.now) s.old stack.new.items next s.new) }
    ensures falls { IfOk result (λ next. Sinks s.old.left s.new.left (weight stack.old.items + 6) (load stack.new.items next)) }
{
    match fit_call(s, tables, f, plain, named)? {
        Ok(fit) => {
            let next = enter_function(s, stack, f, fit.0, fit.1)?;
            Ok(next)
        }
        Err(why) => Ok(Doing::Finished(Err(why))),
    }
}

/// A function that was found in the class of an instance is called with the instance first.
pub(crate) fn call_bound<'s, P: Probe>(
    s: &mut State<Objects, P>,
    stack: &mut Vec<Control<'s>>,
    tables: &'s Tables<'_>,
    id: ObjId,
    f: FuncId,
    plain: Sequence<Value>,
    named: &[(Name, Value)],
) -> Result<Doing<'s>, Memory>
    ensures meant { let watcher = watched_by P.after_began P.after_judged in IfOk result (λ next. Goes watcher tables.now stack.old.items (calls_function watcher tables.now (means watcher tables.now) f (v.Ref id ∷ plain) named.now) s.old stack.new.items next s.new) }
    ensures falls { IfOk result (λ next. Sinks s.old.left s.new.left (weight stack.old.items + 6) (load stack.new.items next)) }
{
    let mut plain = plain;
    plain.insert(0, Value::Ref(id))?;
    let next = call_function(s, stack, tables, f, plain.as_slice(), named)?;
    Ok(next)
}

/// The `__init__` of a new instance is called, and must give None.
pub(crate) fn initialize<'s, P: Probe>(
    s: &mut State<Objects, P>,
    stack: &mut Vec<Control<'s>>,
    tables: &'s Tables<'_>,
    id: ObjId,
    f: FuncId,
    plain: Sequence<Value>,
    named: &[(Name, Value)],
) -> Result<Doing<'s>, Memory>
    ensures meant { let watcher = watched_by P.after_began P.after_judged in IfOk result (λ next. Goes watcher tables.now stack.old.items (initializes watcher tables.now (means watcher tables.now) id f plain named.now) s.old stack.new.items next s.new) }
    ensures falls { IfOk result (λ next. Sinks s.old.left s.new.left (weight stack.old.items + 7) (load stack.new.items next)) }
{
    laws_of_frames::<P>();
    stack.push(Control::Then(Pending::Argument(Argument::Initialized(id))))?;
    let next = call_bound(s, stack, tables, id, f, plain, named)?;
    Ok(next)
}
