// Attributes that are set (Language Reference 7.2).
ghost use Rattle.std.specs.Prelude.{◌≡◌, IfOk};
ghost use Rattle.py_meaning.specs.declared.value.Value.{out-Value};
ghost use Rattle.py_meaning.specs.Operations.{kind_of};
ghost use Rattle.py_meaning.specs.Worlds.{object_at};
ghost use Rattle.py_plain.specs.Attributes.{sets_in_instance, sets_in_object, sets_attribute};

use py_effects::{Finding, Outcome, raise};
use py_meaning::Value;
use py_objects::{ObjKind, Objects};
use py_plain::{Abrupt, Judged, State};
use py_tables::Tables;
use pyn_base::{BuiltClass, Construct, Memory, Name, ObjId};

/// An exception's arguments are never set.
#[tactic(auto, unfolding(std::specs::Prelude::chars))]
fn set_in_instance<W: Drop>(
    s: &mut State<Objects, W>,
    exception: bool,
    id: ObjId,
    name: &Name,
    x: Value,
) -> Result<Outcome<Finding>, Memory>
    ensures meant { IfOk result (λ end. sets_in_instance exception id name.now x s.old ≡ (end, s.new)) }
    ensures spends { s.new.left ≡ s.old.left }
{
    if exception && name.is("args") {
        return Ok(Err(Abrupt::Left(Construct::ExceptionAttribute)));
    }
    s.objects.attr_set(id, name, x)?;
    Ok(Ok((Value::None, Judged::Plain(false))))
}

fn set_in_object<W: Drop>(
    s: &mut State<Objects, W>,
    tables: &Tables,
    id: ObjId,
    name: &Name,
    x: Value,
) -> Result<Outcome<Finding>, Memory>
    ensures meant { IfOk result (λ end. sets_in_object tables.now id (kind_of (object_at s.old.objects id)) name.now x s.old ≡ (end, s.new)) }
    ensures spends { s.new.left ≡ s.old.left }
{
    match s.objects.kind(id) {
        ObjKind::Instance(class) => {
            let end = set_in_instance(s, tables.is_exception(class), id, name, x)?;
            Ok(end)
        }
        ObjKind::List => raise(s, BuiltClass::AttributeError),
        ObjKind::Dict => raise(s, BuiltClass::AttributeError),
    }
}

/// `of.name = x`: of an instance alone.
#[tactic(auto, using(py_meaning::specs::Folds::views))]
pub fn set_attribute<W: Drop>(
    s: &mut State<Objects, W>,
    tables: &Tables,
    of: &Value,
    name: &Name,
    x: Value,
) -> Result<Outcome<Finding>, Memory>
    ensures meant { IfOk result (λ end. sets_attribute tables.now of.now name.now x s.old ≡ (end, s.new)) }
    ensures spends { s.new.left ≡ s.old.left }
{
    match of {
        Value::Class(_) => Ok(Err(Abrupt::Left(Construct::ClassAttribute))),
        Value::Func(_) => Ok(Err(Abrupt::Left(Construct::ClassAttribute))),
        Value::View(_) => Ok(Err(Abrupt::Left(Construct::View))),
        Value::Ref(id) => {
            let end = set_in_object(s, tables, *id, name, x)?;
            Ok(end)
        }
        _ => raise(s, BuiltClass::AttributeError),
    }
}
