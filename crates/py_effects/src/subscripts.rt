// Subscriptions and slicings (Language Reference 6.3.2 and 6.3.3).
ghost use Rattle.std.specs.Prelude.{◌≡◌, ◌≤◌, IfOk};
ghost use Rattle.py_plain.specs.Operators.{gets_item, sets_item, deletes_item, gets_slice};

use crate::answers::{given, passed, settle};
use crate::{Finding, Outcome};
use py_meaning::Value;
use py_objects::Objects;
use py_plain::State;
use pyn_base::{Fuel, Memory};

/// `of[at]`.
pub fn get_item<W: Drop>(
    s: &mut State<Objects, W>,
    of: &Value,
    at: &Value,
) -> Result<Outcome<Finding>, Memory>
    ensures meant { IfOk result (λ end. gets_item of.now at.now s.old ≡ (end, s.new)) }
    ensures spends { s.new.left ≤ s.old.left }
{
    let mut fuel = Fuel::new(s.left);
    let answer = py_ops::get_item(of, at, &s.objects, &mut fuel);
    s.left = fuel.left();
    let end = settle(s, answer)?;
    Ok(given(s, end))
}

/// `of[at] = x`.
pub fn set_item<W: Drop>(
    s: &mut State<Objects, W>,
    of: &Value,
    at: &Value,
    x: Value,
) -> Result<Outcome<Finding>, Memory>
    ensures meant { IfOk result (λ end. sets_item of.now at.now x s.old ≡ (end, s.new)) }
    ensures spends { s.new.left ≤ s.old.left }
{
    let mut fuel = Fuel::new(s.left);
    let answer = py_ops::set_item(of, at, x, &mut s.objects, &mut fuel);
    s.left = fuel.left();
    let end = settle(s, answer)?;
    Ok(passed(s, end))
}

/// `del of[at]`.
pub fn delete_item<W: Drop>(
    s: &mut State<Objects, W>,
    of: &Value,
    at: &Value,
) -> Result<Outcome<Finding>, Memory>
    ensures meant { IfOk result (λ end. deletes_item of.now at.now s.old ≡ (end, s.new)) }
    ensures spends { s.new.left ≤ s.old.left }
{
    let mut fuel = Fuel::new(s.left);
    let answer = py_ops::delete_item(of, at, &mut s.objects, &mut fuel);
    s.left = fuel.left();
    let end = settle(s, answer)?;
    Ok(passed(s, end))
}

/// `of[low:high]`. A bound that isn't written is None.
pub fn get_slice<W: Drop>(
    s: &mut State<Objects, W>,
    of: &Value,
    low: &Value,
    high: &Value,
) -> Result<Outcome<Finding>, Memory>
    ensures meant { IfOk result (λ end. gets_slice of.now low.now high.now s.old ≡ (end, s.new)) }
    ensures spends { s.new.left ≤ s.old.left }
{
    let mut fuel = Fuel::new(s.left);
    let answer = py_ops::slice(of, low, high, &mut s.objects, &mut fuel);
    s.left = fuel.left();
    let end = settle(s, answer)?;
    Ok(given(s, end))
}
