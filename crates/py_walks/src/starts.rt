// Where a walk starts, and whether a dict has changed since.
ghost use Rattle.std.specs.Prelude.{◌≡◌, ◌+◌, IfOk};
ghost use Rattle.py_meaning.specs.declared.value.Value.{out-Value};
ghost use Rattle.py_meaning.specs.Operations.{kind_of};
ghost use Rattle.py_meaning.specs.Worlds.{object_at};
ghost use Rattle.py_plain.specs.Loops.{dict_in_object, dict_in_view, dict_walked, is_walked, size_at, changes_at, walk_from_start};

use py_meaning::{Value, View};
use py_objects::{ObjKind, Objects};
use py_plain::Walk;
use pyn_base::{Memory, ObjId};

/// Whether a value is walked at all.
#[tactic(auto, using(py_meaning::specs::Folds::views))]
pub fn is_walked(objects: &Objects, x: &Value) -> bool
    ensures { result ≡ is_walked objects.now (out-Value x.now) }
{
    match x {
        Value::Str(_) => true,
        Value::Tuple(_) => true,
        Value::Ref(id) => match objects.kind(*id) {
            ObjKind::Instance(_) => false,
            ObjKind::List => true,
            ObjKind::Dict => true,
        },
        Value::View(_) => true,
        _ => false,
    }
}

fn dict_in_object(objects: &Objects, id: ObjId) -> Option<ObjId>
    ensures { result ≡ dict_in_object id (kind_of (object_at objects.now id)) }
{
    match objects.kind(id) {
        ObjKind::Dict => Some(id),
        ObjKind::List => None,
        ObjKind::Instance(_) => None,
    }
}

fn dict_in_view(view: View) -> Option<ObjId>
    ensures { result ≡ dict_in_view view }
{
    match view {
        View::Range(_, _, _) => None,
        View::Keys(dict) => Some(dict),
        View::Values(dict) => Some(dict),
        View::Items(dict) => Some(dict),
    }
}

/// The dict whose keys a walk follows.
#[tactic(auto, using(py_meaning::specs::Folds::views))]
pub fn dict_walked(objects: &Objects, x: &Value) -> Option<ObjId>
    ensures { result ≡ dict_walked objects.now (out-Value x.now) }
{
    match x {
        Value::Ref(id) => dict_in_object(objects, *id),
        Value::View(view) => dict_in_view(*view),
        _ => None,
    }
}

pub fn size_at(objects: &Objects, dict: Option<ObjId>) -> u64
    ensures { result ≡ size_at objects.now dict }
{
    match dict {
        None => 0,
        Some(dict) => objects.size(dict),
    }
}

pub fn changes_at(objects: &Objects, dict: Option<ObjId>) -> u64
    ensures { result ≡ changes_at objects.now dict }
{
    match dict {
        None => 0,
        Some(dict) => objects.key_changes(dict),
    }
}

/// A walk over a value, before its first element.
pub fn walk_from_start(objects: &Objects, x: Value) -> Walk
    ensures { result ≡ walk_from_start objects.now x }
{
    let dict = dict_walked(objects, &x);
    Walk {
        of: x,
        size: size_at(objects, dict),
        changes: changes_at(objects, dict),
        at: 0,
    }
}

/// The same walk, an element further.
pub fn advanced(walk: Walk) -> Result<Walk, Memory>
    ensures { IfOk result (λ further. further ≡ record walk { at = walk.at + 1 }) }
{
    let Some(at) = walk.at.checked_add(1) else {
        return Err(Memory);
    };
    let mut walk = walk;
    walk.at = at;
    Ok(walk)
}
