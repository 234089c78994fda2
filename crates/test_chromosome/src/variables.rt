// The types of a test's variables.
ghost use Rattle.std.specs.Prelude.{◌≡◌, ◌++◌, slice_get, IfOk};
ghost use Rattle.suite_model.specs.declared.ty.Ty.{out-Ty};
ghost use Rattle.suite_model.specs.WellFormed.{prim_type, or_unknown, method_by, method_of_type, step_type, types_of};

use crate::signature::result_of;
use py_tables::Tables;
use pyn_base::{ClassId, FuncId, Memory, Name};
use sqlite_items::{Boxed, Items};
use std::alloc::Global;
use suite_model::{Primitive, Step, Test, Ty};

fn prim_type(prim: &Primitive) -> Ty
    ensures { result ≡ prim_type prim.now }
{
    match prim {
        Primitive::None => Ty::NoneType,
        Primitive::Bool(_) => Ty::Bool,
        Primitive::Int(_) => Ty::Int,
        Primitive::Str(_) => Ty::Str,
    }
}

/// The method of a name that a receiver of a type has.
#[tactic(auto, using(crate::proofs::TypeLevels::outs))]
pub(crate) fn method_of_type(tables: &Tables, receiver: &Ty, name: &Name) -> Option<FuncId>
    ensures { result ≡ method_of_type tables.now receiver.now name.now }
{
    match receiver {
        Ty::Class(class) => tables.method_named(*class, name),
        _ => None,
    }
}

/// The method of a name that a variable has, where the variables have these types.
fn method_of_variable(tables: &Tables, types: &[Ty], receiver: u32, name: &Name) -> Option<FuncId>
    ensures { result ≡ method_of_type tables.now (or_unknown (slice_get types.now receiver)) name.now }
{
    match types.get(receiver as usize) {
        Some(receiver) => method_of_type(tables, receiver, name),
        None => method_of_type(tables, &Ty::Any, name),
    }
}

/// The type of what a step makes, where the variables before it have these types.
pub(crate) fn step_type(
    alloc: Global,
    tables: &Tables,
    types: &[Ty],
    step: &Step,
) -> Result<Ty, Memory>
    ensures { IfOk result (λ t. t ≡ step_type tables.now types.now step.now) }
{
    match step {
        Step::Prim(prim) => Ok(prim_type(prim)),
        Step::ListOf(_) => Ok(Ty::List(Boxed::new(alloc, Ty::Any)?)),
        Step::DictOf(_) => {
            let key = Boxed::new(alloc, Ty::Any)?;
            Ok(Ty::Dict(key, Boxed::new(alloc, Ty::Any)?))
        }
        Step::Construct(class, _) => Ok(Ty::Class(ClassId::Own(*class))),
        Step::Method(receiver, name, _) => {
            result_of(
                alloc,
                tables,
                method_of_variable(tables, types, *receiver, name),
            )
        }
        Step::Function(f, _) => result_of(alloc, tables, Some(*f)),
    }
}

/// The types of a test's variables, in order.
pub fn types_of(alloc: Global, tables: &Tables, test: &Test) -> Result<Items<Ty>, Memory>
    ensures { IfOk result (λ types. types ≡ types_of tables.now test.now) }
{
    let mut types = Items::new(alloc);
    for step in test.steps.as_slice() {
        let made = step_type(alloc, tables, types.as_slice(), step)?;
        types.push(made)?;
    }
    Ok(types)
}

/// The type of variable `k`; nothing is known of one that isn't there.
pub fn type_of(alloc: Global, tables: &Tables, test: &Test, k: u32) -> Result<Ty, Memory>
    ensures { IfOk result (λ t. t ≡ or_unknown (slice_get (types_of tables.now test.now) k)) }
{
    let mut types = types_of(alloc, tables, test)?;
    if (k as usize) < types.len() {
        Ok(types.remove(k as usize))
    } else {
        Ok(Ty::Any)
    }
}
