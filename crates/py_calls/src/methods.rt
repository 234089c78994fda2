// Calls of methods of built-in types (the manual, "Built-in Types").
ghost use Rattle.std.specs.Prelude.{◌≡◌, ◌≤◌, IfOk};
ghost use Rattle.py_meaning.specs.Methods.{call_method};
ghost use Rattle.py_plain.specs.Calls.{without_named};
ghost use Rattle.py_plain.specs.Runs.{performs_value};

use py_effects::{Finding, Outcome, given, settle_change};
use py_meaning::Value;
use py_objects::Objects;
use py_plain::{Abrupt, State};
use pyn_base::{Construct, Fuel, Memory, Name};

fn call_plain<W: Drop>(
    s: &mut State<Objects, W>,
    receiver: &Value,
    name: &Name,
    plain: &[Value],
) -> Result<Outcome<Finding>, Memory>
    ensures meant { IfOk result (λ end. performs_value (call_method receiver.now name.now plain.now) s.old ≡ (end, s.new)) }
    ensures spends { s.new.left ≤ s.old.left }
{
    let mut fuel = Fuel::new(s.left);
    let answer = py_methods::call_method(receiver, name, plain, &mut s.objects, &mut fuel);
    s.left = fuel.left();
    let end = settle_change(s, answer)?;
    Ok(given(s, end))
}

/// A call of a method of a built-in type, which takes no named arguments.
pub fn call_method<W: Drop>(
    s: &mut State<Objects, W>,
    receiver: &Value,
    name: &Name,
    plain: &[Value],
    named: &[(Name, Value)],
) -> Result<Outcome<Finding>, Memory>
    ensures meant { IfOk result (λ end. without_named named.now (performs_value (call_method receiver.now name.now plain.now)) s.old ≡ (end, s.new)) }
    ensures spends { s.new.left ≤ s.old.left }
{
    if named.is_empty() {
        let end = call_plain(s, receiver, name, plain)?;
        Ok(end)
    } else {
        Ok(Err(Abrupt::Left(Construct::KeywordArgument)))
    }
}
