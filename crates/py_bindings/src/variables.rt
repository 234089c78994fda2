// Variables by their names (Language Reference 4.2).
ghost use Rattle.std.specs.Prelude.{◌≡◌, ◌<◌, length, OnOk, IfSome};
ghost use Rattle.std.specs.Option.{option_copied};
ghost use Rattle.py_meaning.specs.Operations.{attribute_place};
ghost use Rattle.py_plain.specs.Names.{lookup, is_bound, bound_to, without};

use py_meaning::{Sequence, Value};
use pyn_base::{Memory, Name};
use std::alloc::Global;

fn place(bound: &[(Name, Value)], name: &Name) -> Option<usize>
    ensures place { result ≡ attribute_place name.now bound.now }
    ensures within { IfSome result (λ at. at < length bound.now) }
{
    bound.iter().position(|row| row.0.is_same(name))
}

/// The value of a name, if it is bound.
pub fn lookup<'a>(bound: &'a [(Name, Value)], name: &Name) -> Option<&'a Value>
    ensures { option_copied result ≡ lookup name.now bound.now }
{
    match place(bound, name) {
        Some(at) => match bound.get(at) {
            Some(row) => Some(&row.1),
            None => None,
        },
        None => None,
    }
}

pub fn is_bound(bound: &[(Name, Value)], name: &Name) -> bool
    ensures { result ≡ is_bound name.now bound.now }
{
    match place(bound, name) {
        Some(_) => true,
        None => false,
    }
}

/// Binds a name, which keeps the place at which it was first bound.
pub fn bind(
    alloc: Global,
    bound: &mut Sequence<(Name, Value)>,
    name: &Name,
    x: Value,
) -> Result<(), Memory>
    ensures { OnOk result (bound.new ≡ bound_to name.now x bound.old) }
{
    match place(bound.as_slice(), name) {
        Some(at) => {
            bound.set_second(at, x);
            Ok(())
        }
        None => {
            let name = name.to_owned(alloc)?;
            bound.push((name, x))
        }
    }
}

/// A name that isn't bound stays so.
pub fn unbind(bound: &mut Sequence<(Name, Value)>, name: &Name)
    ensures { bound.new ≡ without bound.old (attribute_place name.now bound.old) }
{
    if let Some(at) = place(bound.as_slice(), name) {
        drop(bound.remove(at));
    }
}
