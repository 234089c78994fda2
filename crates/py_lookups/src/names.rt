// Names (Language Reference 4.2 and 6.2.1).
ghost use Rattle.std.specs.Prelude.{◌≡◌, ◌∷◌, [], codes, IfOk};
ghost use Rattle.std.specs.Option.{option_copied};
ghost use Rattle.py_meaning.specs.declared.value.Value.TheVariants.{ModuleRef};
ghost use Rattle.py_meaning.specs.Methods.{named};
ghost use Rattle.py_plain.specs.BuiltNames.{built_classes};
ghost use Rattle.py_plain.specs.Names.{lookup, is_bound, function_at, is_local, globals, found_local, found_class, builtin_meant, reads, reads_name};

use py_bindings::{is_bound, lookup};
use py_effects::{Finding, Outcome, give, raise};
use py_frames::Frame;
use py_meaning::{Builtin, Value};
use py_objects::Objects;
use py_plain::{Abrupt, State};
use py_tables::{FunctionRow, Tables, built_class_named, builtin_named};
use pyn_base::{BuiltClass, ClassId, Construct, Memory, Name};

/// The function of a frame; none of a test's own.
pub fn function_in<'t, 'm>(tables: &'t Tables<'m>, frame: &Frame) -> Option<&'t FunctionRow<'m>>
    ensures { option_copied result ≡ function_at tables.now frame.now.function }
{
    match frame.function {
        None => None,
        Some(f) => tables.function(f),
    }
}

/// Whether a name is one of the present function, or is bound in a test.
fn is_local<W: Drop>(s: &State<Objects, W>, tables: &Tables, name: &Name) -> bool
    ensures { result ≡ is_local (function_at tables.now s.now.frame.function) name.now s.now.frame.variables }
{
    match function_in(tables, &s.frame) {
        None => is_bound(s.frame.variables.as_slice(), name),
        Some(f) => f.locals().has(name),
    }
}

/// The module's value of a name, or the module itself in a test.
fn global<W: Drop>(
    s: &State<Objects, W>,
    tables: &Tables,
    name: &Name,
) -> Result<Option<Value>, Memory>
    ensures { IfOk result (λ x. x ≡ lookup name.now (globals (function_at tables.now s.now.frame.function) s.now.space)) }
{
    match function_in(tables, &s.frame) {
        None => Ok(module_named(name)),
        Some(_) => {
            let x = bound_value(s.space.names.as_slice(), name)?;
            Ok(x)
        }
    }
}

/// The name of the module in a test.
#[tactic(auto, unfolding(std::specs::Prelude::chars), using(crate::proofs::ModuleNames::module_names))]
fn module_named(name: &Name) -> Option<Value>
    ensures { result ≡ lookup name.now ((codes "module_0", ModuleRef) ∷ []) }
{
    if name.is("module_0") {
        Some(Value::ModuleRef)
    } else {
        None
    }
}

/// The value of a name, for one more owner.
pub(crate) fn bound_value(bound: &[(Name, Value)], name: &Name) -> Result<Option<Value>, Memory>
    ensures { IfOk result (λ x. x ≡ lookup name.now bound.now) }
{
    match lookup(bound, name) {
        None => Ok(None),
        Some(x) => {
            let x = x.share()?;
            Ok(Some(x))
        }
    }
}

/// Whether the module binds a name, or a test sees the module by it.
fn is_global<W: Drop>(s: &State<Objects, W>, tables: &Tables, name: &Name) -> bool
    ensures { result ≡ is_bound name.now (globals (function_at tables.now s.now.frame.function) s.now.space) }
{
    match function_in(tables, &s.frame) {
        None => is_module_name(name),
        Some(_) => is_bound(s.space.names.as_slice(), name),
    }
}

#[tactic(auto, unfolding(std::specs::Prelude::chars), using(crate::proofs::ModuleNames::module_names))]
fn is_module_name(name: &Name) -> bool
    ensures { result ≡ is_bound name.now ((codes "module_0", ModuleRef) ∷ []) }
{
    name.is("module_0")
}

/// The built-in function that a name means, if it means one.
pub fn builtin_meant<W: Drop>(
    s: &State<Objects, W>,
    tables: &Tables,
    name: &Name,
) -> Option<Builtin>
    ensures { result ≡ builtin_meant tables.now s.now name.now }
{
    if is_local(s, tables, name) {
        return None;
    }
    if is_global(s, tables, name) {
        return None;
    }
    builtin_named(name)
}

fn read_local<W: Drop>(s: &mut State<Objects, W>, name: &Name) -> Result<Outcome<Finding>, Memory>
    ensures meant { IfOk result (λ end. found_local (lookup name.now s.old.frame.variables) s.old ≡ (end, s.new)) }
    ensures spends { s.new.left ≡ s.old.left }
{
    match bound_value(s.frame.variables.as_slice(), name)? {
        Some(x) => Ok(Ok(give(s, x))),
        None => raise(s, BuiltClass::UnboundLocalError),
    }
}

fn read_class<W: Drop>(s: &State<Objects, W>, name: &Name) -> Outcome<Finding>
    ensures { found_class (named built_classes name.now) s.now ≡ (result, s.now) }
{
    match built_class_named(name) {
        Some(class) => Ok(give(s, Value::Class(ClassId::Built(class)))),
        None => Err(Abrupt::Left(Construct::UnknownName)),
    }
}

/// The value of a name. A name bound anywhere in a function is local there, and raises UnboundLocalError until it is bound.
pub fn read<W: Drop>(
    s: &mut State<Objects, W>,
    tables: &Tables,
    name: &Name,
) -> Result<Outcome<Finding>, Memory>
    ensures meant { IfOk result (λ end. reads tables.now name.now s.old ≡ (end, s.new)) }
    ensures spends { s.new.left ≡ s.old.left }
{
    if is_local(s, tables, name) {
        let end = read_local(s, name)?;
        return Ok(end);
    }
    match global(s, tables, name)? {
        Some(x) => Ok(Ok(give(s, x))),
        None => Ok(read_class(s, name)),
    }
}

/// The same, where a built-in function that isn't called leaves.
pub fn read_name<W: Drop>(
    s: &mut State<Objects, W>,
    tables: &Tables,
    name: &Name,
) -> Result<Outcome<Finding>, Memory>
    ensures meant { IfOk result (λ end. reads_name tables.now name.now s.old ≡ (end, s.new)) }
    ensures spends { s.new.left ≡ s.old.left }
{
    match builtin_meant(s, tables, name) {
        None => {
            let end = read(s, tables, name)?;
            Ok(end)
        }
        Some(_) => Ok(Err(Abrupt::Left(Construct::BuiltinValue))),
    }
}
