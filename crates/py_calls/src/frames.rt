// Frames of calls (Language Reference 4.2 and 6.3.4).
ghost use Rattle.std.specs.Prelude.{◌≡◌, ◌+◌, ◌<◌, Some, [], slice_get, IfOk, OnOk};
ghost use Rattle.py_syntax.specs.declared.stmt.Stmt.{Stmt as Statement};
ghost use Rattle.py_names.specs.Bound.{parameters};
ghost use Rattle.py_plain.specs.Calls.{answer as answer_of, leaves, calls_known, calls_function, inside, call_limit, bound_arguments, or_no_defaults};
ghost use Rattle.py_plain.specs.Program.{Program};
ghost use Rattle.py_plain.specs.Runs.{Watcher, Run, Finding as Found, go_on};

use py_bindings::bind_arguments;
use py_effects::{Finding, Outcome, raise};
use py_frames::Frame;
use py_meaning::{Sequence, Value};
use py_objects::Objects;
use py_plain::{Abrupt, Judged, State};
use py_syntax::Func;
use py_tables::{FunctionRow, Tables};
use pyn_base::{BuiltClass, Construct, FuncId, Memory, Name};
use std::mem;

/// So many functions of the module may be active.
const CALL_LIMIT: u32 = 200;

/// A frame of a function's own takes the place of the present one, which is the caller's.
pub fn enter<W: Drop>(
    s: &mut State<Objects, W>,
    f: FuncId,
    variables: Sequence<(Name, Value)>,
) -> Frame
    requires { s.old.depth < call_limit }
    ensures caller { result ≡ s.old.frame }
    ensures inside { s.new ≡ record s.old { frame = record { function = Some f; variables = variables; handled = [] }; depth = s.old.depth + 1 } }
{
    let handled = Sequence::new(s.objects.alloc());
    s.depth += 1;
    mem::replace(
        &mut s.frame,
        Frame {
            function: Some(f),
            variables,
            handled,
        },
    )
}

/// A call gives what its body returned, and None at its end.
fn answer<W: Drop>(s: &State<Objects, W>, end: Outcome<Finding>) -> Outcome<Finding>
    ensures { result ≡ answer_of s.now.objects end }
{
    match end {
        Ok(_) => Ok((Value::None, Judged::Plain(false))),
        Err(Abrupt::Returned(x)) => {
            let holds = s.objects.truth(&x);
            Ok((x, Judged::Plain(holds)))
        }
        Err(Abrupt::Raised(id)) => Err(Abrupt::Raised(id)),
        Err(Abrupt::Broke) => Err(Abrupt::Broke),
        Err(Abrupt::Continued) => Err(Abrupt::Continued),
        Err(Abrupt::OutOfSteps) => Err(Abrupt::OutOfSteps),
        Err(Abrupt::Left(construct)) => Err(Abrupt::Left(construct)),
    }
}

/// Back in the frame of the caller.
pub fn leave<W: Drop>(
    s: &mut State<Objects, W>,
    caller: Frame,
    end: Outcome<Finding>,
) -> Outcome<Finding>
    ensures meant { leaves caller (end, s.old) ≡ (result, s.new) }
    ensures spends { s.new.left ≡ s.old.left }
{
    let end = answer(s, end);
    s.frame = caller;
    s.depth = s.depth.saturating_sub(1);
    end
}

/// The variables with which a call begins, or none where its arguments don't fit its parameters.
fn bound_variables<W: Drop>(
    s: &State<Objects, W>,
    f: FuncId,
    tree: &Func,
    plain: &[Value],
    named: &[(Name, Value)],
) -> Result<Option<Sequence<(Name, Value)>>, Memory>
    ensures { IfOk result (λ bound. bound ≡ bound_arguments (parameters tree.now) (or_no_defaults (slice_get s.now.space.defaults f.0)) plain.now named.now) }
{
    let alloc = s.objects.alloc();
    match s.space.defaults.get(f.0 as usize) {
        None => {
            let bound = bind_arguments(alloc, tree.params.as_slice(), &[], plain, named)?;
            Ok(bound)
        }
        Some(defaults) => {
            let defaults = defaults.as_slice();
            let bound = bind_arguments(alloc, tree.params.as_slice(), defaults, plain, named)?;
            Ok(bound)
        }
    }
}

/// The variables with which a call of this function begins, or how the call ends before.
fn fit_row<'m, W: Drop>(
    s: &mut State<Objects, W>,
    f: FuncId,
    row: &FunctionRow<'m>,
    plain: &[Value],
    named: &[(Name, Value)],
) -> Result<Outcome<Sequence<(Name, Value)>>, Memory>
    ensures meant { IfOk result (λ end. (watcher : Watcher W) (program : Program) (does : Statement → Run W Found) → calls_known watcher program does f (Some row.now) plain.now named.now s.old ≡ go_on end s.new (λ variables. inside watcher program does f row.now variables)) }
    ensures shallow { IfOk result (λ end. OnOk end (s.new.depth < call_limit)) }
    ensures spends { s.new.left ≡ s.old.left }
{
    match bound_variables(s, f, row.tree(), plain, named)? {
        None => {
            let end = raise(s, BuiltClass::TypeError)?;
            Ok(end)
        }
        Some(variables) => {
            if s.depth < CALL_LIMIT {
                Ok(Ok(variables))
            } else {
                Ok(Err(Abrupt::Left(Construct::CallDepth)))
            }
        }
    }
}

/// The function and the variables with which a call of a function of the module begins, or how the call ends before.
pub fn fit_call<'t, 'm, W: Drop>(
    s: &mut State<Objects, W>,
    tables: &'t Tables<'m>,
    f: FuncId,
    plain: &[Value],
    named: &[(Name, Value)],
) -> Result<Outcome<(&'t FunctionRow<'m>, Sequence<(Name, Value)>)>, Memory>
    ensures meant { IfOk result (λ end. (watcher : Watcher W) (does : Statement → Run W Found) → calls_function watcher tables.now does f plain.now named.now s.old ≡ go_on end s.new (λ fit. inside watcher tables.now does f fit.0.now fit.1)) }
    ensures shallow { IfOk result (λ end. OnOk end (s.new.depth < call_limit)) }
    ensures spends { s.new.left ≡ s.old.left }
{
    match tables.function(f) {
        None => Ok(Err(Abrupt::Left(Construct::UnknownName))),
        Some(row) => match fit_row(s, f, row, plain, named)? {
            Ok(variables) => Ok(Ok((row, variables))),
            Err(why) => Ok(Err(why)),
        },
    }
}
