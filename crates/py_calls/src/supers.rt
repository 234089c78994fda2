// `super()` (the manual, "Built-in Functions").
ghost use Rattle.std.specs.Prelude.{◌≡◌, ◌&&◌, ◌∷◌, [], not, bytes_eq, codes, IfOk, MatchOption};
ghost use Rattle.py_meaning.specs.declared.value.Value.{out-Value};
ghost use Rattle.py_meaning.specs.Operations.{kind_of};
ghost use Rattle.py_meaning.specs.Worlds.{object_at};
ghost use Rattle.py_names.specs.Bound.{parameters};
ghost use Rattle.py_plain.specs.Calls.{super_of_instance, super_of_object, super_of, first_parameter, finds_super};
ghost use Rattle.py_plain.specs.Classes.{base_of_class, initializer};
ghost use Rattle.py_plain.specs.Names.{is_some};
ghost use Rattle.py_plain.specs.Program.{Program};
ghost use Rattle.py_plain.specs.Runs.{Watcher};

use py_bindings::lookup;
use py_effects::{Outcome, raise};
use py_lookups::{find_above, function_in, initializer};
use py_meaning::Value;
use py_objects::{ObjKind, Objects};
use py_plain::{Abrupt, Callee, State};
use py_tables::{FunctionRow, Tables};
use pyn_base::{BuiltClass, ClassId, Construct, Memory, Name, ObjId};

/// Whether the `__init__` above a class is that of a built-in one.
#[tactic(auto, unfolding(std::specs::Prelude::chars))]
fn is_built_init<W: Drop>(
    s: &State<Objects, W>,
    tables: &Tables,
    class: ClassId,
    name: &Name,
) -> Result<bool, Memory>
    ensures { IfOk result (λ yes. yes ≡ (bytes_eq name.now (codes "__init__") && not (is_some (initializer tables.now (base_of_class tables.now class))))) }
{
    if !name.is("__init__") {
        return Ok(false);
    }
    match initializer(s.objects.alloc(), tables, tables.base(class))? {
        None => Ok(true),
        Some(_) => Ok(false),
    }
}

/// What is found above a class for an instance of it.
fn super_of_instance<W: Drop>(
    s: &mut State<Objects, W>,
    tables: &Tables,
    class: ClassId,
    id: ObjId,
    own: ClassId,
    name: &Name,
) -> Result<Outcome<Callee>, Memory>
    ensures meant { IfOk result (λ end. (watcher : Watcher W) → super_of_instance watcher tables.now class id own name.now s.old ≡ (end, s.new)) }
    ensures spends { s.new.left ≡ s.old.left }
{
    if !tables.derives(own, class) {
        let end = raise(s, BuiltClass::TypeError)?;
        return Ok(end);
    }
    if is_built_init(s, tables, class, name)? {
        return Ok(Ok(Callee::BaseInit(id)));
    }
    let end = find_above(s, tables, id, own, tables.base(class), name)?;
    Ok(end)
}

fn super_of_object<W: Drop>(
    s: &mut State<Objects, W>,
    tables: &Tables,
    class: ClassId,
    id: ObjId,
    name: &Name,
) -> Result<Outcome<Callee>, Memory>
    ensures meant { IfOk result (λ end. (watcher : Watcher W) → super_of_object watcher tables.now class id (kind_of (object_at s.old.objects id)) name.now s.old ≡ (end, s.new)) }
    ensures spends { s.new.left ≡ s.old.left }
{
    match s.objects.kind(id) {
        ObjKind::Instance(own) => {
            let end = super_of_instance(s, tables, class, id, own, name)?;
            Ok(end)
        }
        ObjKind::List => raise(s, BuiltClass::TypeError),
        ObjKind::Dict => raise(s, BuiltClass::TypeError),
    }
}

/// By the first parameter of a method.
#[tactic(auto, using(py_meaning::specs::Folds::views))]
fn super_of<W: Drop>(
    s: &mut State<Objects, W>,
    tables: &Tables,
    class: ClassId,
    x: &Value,
    name: &Name,
) -> Result<Outcome<Callee>, Memory>
    ensures meant { IfOk result (λ end. (watcher : Watcher W) → super_of watcher tables.now class (out-Value x.now) name.now s.old ≡ (end, s.new)) }
    ensures spends { s.new.left ≡ s.old.left }
{
    match x {
        Value::Ref(id) => {
            let end = super_of_object(s, tables, class, *id, name)?;
            Ok(end)
        }
        Value::Class(other) => {
            if tables.derives(*other, class) {
                Ok(Err(Abrupt::Left(Construct::SuperOfAClass)))
            } else {
                raise(s, BuiltClass::TypeError)
            }
        }
        _ => raise(s, BuiltClass::TypeError),
    }
}

/// The first of a list, and the others.
fn first_of<T>(items: &[T]) -> Option<(&T, &[T])>
    ensures { MatchOption result (items.now ≡ []) (λ next. items.now ≡ next.0.now ∷ next.1.now) }
{
    items.split_first()
}

/// The value of a function's first parameter, for one more owner.
fn first_parameter<W: Drop>(s: &State<Objects, W>, f: &FunctionRow) -> Result<Option<Value>, Memory>
    ensures { IfOk result (λ x. (watcher : Watcher W) (program : Program) → first_parameter watcher program (parameters f.now.tree) s.now.frame.variables ≡ x) }
{
    match first_of(f.tree().params.as_slice()) {
        None => Ok(None),
        Some((param, _)) => match lookup(s.frame.variables.as_slice(), &param.name) {
            None => Ok(None),
            Some(x) => {
                let x = x.share()?;
                Ok(Some(x))
            }
        },
    }
}

/// What `super().name` means in the present function.
pub fn find_super<W: Drop>(
    s: &mut State<Objects, W>,
    tables: &Tables,
    name: &Name,
) -> Result<Outcome<Callee>, Memory>
    ensures meant { IfOk result (λ end. (watcher : Watcher W) → finds_super watcher tables.now name.now s.old ≡ (end, s.new)) }
    ensures spends { s.new.left ≡ s.old.left }
{
    let Some(f) = function_in(tables, &s.frame) else {
        return Ok(Err(Abrupt::Left(Construct::Super)));
    };
    let Some(class) = f.owner() else {
        return Ok(Err(Abrupt::Left(Construct::Super)));
    };
    match first_parameter(s, f)? {
        None => Ok(Err(Abrupt::Left(Construct::Super))),
        Some(x) => {
            let end = super_of(s, tables, ClassId::Own(class), &x, name)?;
            Ok(end)
        }
    }
}
