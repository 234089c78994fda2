// The frame within a clause of a `try` statement (Language Reference 8.4).
ghost use Rattle.std.specs.Prelude.{◌≡◌, Ok, OnOk};
ghost use Rattle.py_plain.specs.Exceptions.{binds_as, unbinds_as, enters_clause, leaves_clause};
ghost use Rattle.py_plain.specs.Runs.{nothing};

use crate::{bind, unbind};
use py_meaning::Value;
use py_objects::Objects;
use py_plain::State;
use pyn_base::{Memory, Name, ObjId};

/// The name of a clause gets its exception.
pub fn bind_as<W: Drop>(
    s: &mut State<Objects, W>,
    name: &Option<Name>,
    id: ObjId,
) -> Result<(), Memory>
    ensures meant { OnOk result (binds_as name.now id s.old ≡ (Ok nothing, s.new)) }
    ensures spends { s.new.left ≡ s.old.left }
{
    match name {
        None => Ok(()),
        Some(name) => bind(s, name, Value::Ref(id)),
    }
}

/// The name of a clause is bound no more.
pub fn unbind_as<W: Drop>(s: &mut State<Objects, W>, name: &Option<Name>)
    ensures meant { unbinds_as name.now s.old ≡ (Ok nothing, s.new) }
    ensures spends { s.new.left ≡ s.old.left }
{
    if let Some(name) = name {
        unbind(s, name);
    }
}

/// An exception is being handled.
pub fn enter_clause<W: Drop>(s: &mut State<Objects, W>, id: ObjId) -> Result<(), Memory>
    ensures meant { OnOk result (enters_clause id s.old ≡ (Ok nothing, s.new)) }
    ensures spends { s.new.left ≡ s.old.left }
{
    s.frame.handled.push(id)
}

/// The innermost exception that is being handled is so no more.
pub fn leave_clause<W: Drop>(s: &mut State<Objects, W>)
    ensures meant { leaves_clause s.old ≡ (Ok nothing, s.new) }
    ensures spends { s.new.left ≡ s.old.left }
{
    let others = s.frame.handled.len().saturating_sub(1);
    s.frame.handled.truncate(others);
}
