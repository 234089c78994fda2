// Names that are bound in the present frame (Language Reference 4.2 and 7.2).
ghost use Rattle.std.specs.Prelude.{◌≡◌, ◌≤◌, ◌∷◌, Ok, IfOk, OnOk, MatchOption, length, []};
ghost use Rattle.py_plain.specs.Assignments.{counted, unpacks, binds_all, binds_names};
ghost use Rattle.py_plain.specs.Names.{binds, unbinds};
ghost use Rattle.py_plain.specs.Runs.{nothing};

use crate::answers::settle;
use crate::{Finding, Outcome, raise};
use py_meaning::{Sequence, Value};
use py_objects::Objects;
use py_plain::{Judged, State};
use pyn_base::{BuiltClass, Fuel, Memory, Name};

/// Binds a name, which keeps the place at which it was first bound.
pub fn bind<W: Drop>(s: &mut State<Objects, W>, name: &Name, x: Value) -> Result<(), Memory>
    ensures meant { OnOk result (binds name.now x s.old ≡ (Ok nothing, s.new)) }
    ensures spends { s.new.left ≡ s.old.left }
{
    let alloc = s.objects.alloc();
    py_bindings::bind(alloc, &mut s.frame.variables, name, x)
}

/// A name that isn't bound stays so.
pub fn unbind<W: Drop>(s: &mut State<Objects, W>, name: &Name)
    ensures meant { unbinds name.now s.old ≡ (Ok nothing, s.new) }
    ensures spends { s.new.left ≡ s.old.left }
{
    py_bindings::unbind(&mut s.frame.variables, name);
}

/// The first of a list, and the others.
fn first_of<T>(items: &[T]) -> Option<(&T, &[T])>
    ensures { MatchOption result (items.now ≡ []) (λ next. items.now ≡ next.0.now ∷ next.1.now) }
{
    items.split_first()
}

/// Each name gets the value at its place, as far as both go.
pub fn bind_all<W: Drop>(
    s: &mut State<Objects, W>,
    names: &[Name],
    xs: &[Value],
) -> Result<(), Memory>
    ensures meant { OnOk result (binds_all names.now xs.now s.old ≡ (Ok nothing, s.new)) }
    ensures spends { s.new.left ≡ s.old.left }
{
    let mut left = xs;
    for name in names {
        match first_of(left) {
            None => return Ok(()),
            Some((x, more)) => {
                bind(s, name, x.share()?)?;
                left = more;
            }
        }
    }
    Ok(())
}

/// As many items as are wanted, or a ValueError.
fn counted<W: Drop>(
    s: &mut State<Objects, W>,
    count: usize,
    items: Sequence<Value>,
) -> Result<Outcome<Sequence<Value>>, Memory>
    ensures meant { IfOk result (λ end. counted count items s.old ≡ (end, s.new)) }
    ensures spends { s.new.left ≡ s.old.left }
{
    if items.len() == count {
        Ok(Ok(items))
    } else {
        raise(s, BuiltClass::ValueError)
    }
}

/// All elements of a value, a step for each; another number than is wanted raises.
pub fn unpack<W: Drop>(
    s: &mut State<Objects, W>,
    count: usize,
    x: &Value,
) -> Result<Outcome<Sequence<Value>>, Memory>
    ensures meant { IfOk result (λ end. unpacks count x.now s.old ≡ (end, s.new)) }
    ensures spends { s.new.left ≤ s.old.left }
{
    let mut fuel = Fuel::new(s.left);
    let answer = s.objects.walk(x, &mut fuel);
    s.left = fuel.left();
    match settle(s, answer)? {
        Ok(items) => {
            let end = counted(s, count, items)?;
            Ok(end)
        }
        Err(why) => Ok(Err(why)),
    }
}

/// A name, or several that take an element each.
pub fn bind_names<W: Drop>(
    s: &mut State<Objects, W>,
    is_tuple: bool,
    names: &[Name],
    x: &Value,
) -> Result<Outcome<Finding>, Memory>
    ensures meant { IfOk result (λ end. binds_names is_tuple names.now x.now s.old ≡ (end, s.new)) }
    ensures spends { s.new.left ≤ s.old.left }
{
    if is_tuple {
        match unpack(s, names.len(), x)? {
            Ok(items) => {
                bind_all(s, names, items.as_slice())?;
                Ok(Ok((Value::None, Judged::Plain(false))))
            }
            Err(why) => Ok(Err(why)),
        }
    } else {
        let one = [x.share()?];
        bind_all(s, names, &one)?;
        Ok(Ok((Value::None, Judged::Plain(false))))
    }
}
