// Calls of built-in functions and types (the manual, "Built-in Functions").
ghost use Rattle.std.specs.Prelude.{◌≡◌, ◌≤◌, IfOk};
ghost use Rattle.py_meaning.specs.declared.builtin.Builtin.TheVariants as builtin;
ghost use Rattle.py_meaning.specs.Builtins.{call_builtin as builtin_call};
ghost use Rattle.py_plain.specs.Builtins.{calls_builtin, isinstance_row};
ghost use Rattle.py_plain.specs.Calls.{without_named};
ghost use Rattle.py_plain.specs.Runs.{asks, performs_value};

use crate::classes::isinstance_row;
use crate::texts::text_row;
use py_effects::{Finding, Outcome, give, given, settle_change};
use py_meaning::{Builtin, Value};
use py_objects::Objects;
use py_plain::{Abrupt, State};
use py_tables::Tables;
use pyn_base::{Construct, Fuel, Memory, Name};

/// Whether a value is an instance of what is asked for.
fn ask_isinstance<W: Drop>(
    s: &mut State<Objects, W>,
    tables: &Tables,
    plain: &[Value],
) -> Result<Outcome<bool>, Memory>
    ensures meant { IfOk result (λ end. asks (isinstance_row tables.now plain.now) s.old ≡ (end, s.new)) }
    ensures spends { s.new.left ≤ s.old.left }
{
    let mut fuel = Fuel::new(s.left);
    let answer = isinstance_row(tables, &s.objects, plain, &mut fuel);
    s.left = fuel.left();
    let end = settle_change(s, answer)?;
    Ok(end)
}

/// `isinstance`, which asks for the module's classes.
fn call_isinstance<W: Drop>(
    s: &mut State<Objects, W>,
    tables: &Tables,
    plain: &[Value],
) -> Result<Outcome<Finding>, Memory>
    ensures meant { IfOk result (λ end. calls_builtin tables.now builtin.Isinstance plain.now s.old ≡ (end, s.new)) }
    ensures spends { s.new.left ≤ s.old.left }
{
    match ask_isinstance(s, tables, plain)? {
        Ok(holds) => Ok(Ok(give(s, Value::Bool(holds)))),
        Err(why) => Ok(Err(why)),
    }
}

/// `str`, which asks for the module's classes.
fn call_str<W: Drop>(
    s: &mut State<Objects, W>,
    tables: &Tables,
    plain: &[Value],
) -> Result<Outcome<Finding>, Memory>
    ensures meant { IfOk result (λ end. calls_builtin tables.now builtin.Str plain.now s.old ≡ (end, s.new)) }
    ensures spends { s.new.left ≤ s.old.left }
{
    let mut fuel = Fuel::new(s.left);
    let answer = text_row(tables, plain, &mut s.objects, &mut fuel);
    s.left = fuel.left();
    let end = settle_change(s, answer)?;
    Ok(given(s, end))
}

fn call_other<W: Drop>(
    s: &mut State<Objects, W>,
    id: Builtin,
    plain: &[Value],
) -> Result<Outcome<Finding>, Memory>
    ensures meant { IfOk result (λ end. performs_value (builtin_call id plain.now) s.old ≡ (end, s.new)) }
    ensures spends { s.new.left ≤ s.old.left }
{
    let mut fuel = Fuel::new(s.left);
    let answer = py_builtins::call_builtin(id, plain, &mut s.objects, &mut fuel);
    s.left = fuel.left();
    let end = settle_change(s, answer)?;
    Ok(given(s, end))
}

fn call_plain<W: Drop>(
    s: &mut State<Objects, W>,
    tables: &Tables,
    id: Builtin,
    plain: &[Value],
) -> Result<Outcome<Finding>, Memory>
    ensures meant { IfOk result (λ end. calls_builtin tables.now id plain.now s.old ≡ (end, s.new)) }
    ensures spends { s.new.left ≤ s.old.left }
{
    match id {
        Builtin::Isinstance => {
            let end = call_isinstance(s, tables, plain)?;
            Ok(end)
        }
        Builtin::Str => {
            let end = call_str(s, tables, plain)?;
            Ok(end)
        }
        other => {
            let end = call_other(s, other, plain)?;
            Ok(end)
        }
    }
}

/// A call of a built-in function or type, which takes no named arguments.
pub fn call_builtin<W: Drop>(
    s: &mut State<Objects, W>,
    tables: &Tables,
    id: Builtin,
    plain: &[Value],
    named: &[(Name, Value)],
) -> Result<Outcome<Finding>, Memory>
    ensures meant { IfOk result (λ end. without_named named.now (calls_builtin tables.now id plain.now) s.old ≡ (end, s.new)) }
    ensures spends { s.new.left ≤ s.old.left }
{
    if named.is_empty() {
        let end = call_plain(s, tables, id, plain)?;
        Ok(end)
    } else {
        Ok(Err(Abrupt::Left(Construct::KeywordArgument)))
    }
}
