// What a call takes and gives.
ghost use Rattle.std.specs.Prelude.{◌≡◌, [], drop, map, IfOk};
ghost use Rattle.suite_model.specs.declared.ty.Ty.TheVariants as ty;
ghost use Rattle.suite_model.specs.Callables.{param_type, function_signature, method_signature, constructor_signature};
ghost use Rattle.suite_model.specs.Types.{type_of_annotation};

use crate::annotations::type_of_annotation;
use py_syntax::Param;
use py_tables::Tables;
use pyn_base::{ClassId, FuncId, Memory, Name};
use sqlite_items::Items;
use std::alloc::Global;
use suite_model::Ty;

/// What a call takes, a type for each argument, and what it gives.
#[derive(Drop)]
pub struct Signature {
    pub takes: Items<Ty>,
    pub gives: Ty,
}

fn types_of_params(alloc: Global, tables: &Tables, params: &[Param]) -> Result<Items<Ty>, Memory>
    ensures { IfOk result (λ types. types ≡ map (param_type tables.now) params.now) }
{
    let mut types = Items::new(alloc);
    for param in params {
        types.push(type_of_annotation(alloc, tables, &param.annotation)?)?;
    }
    Ok(types)
}

fn all_but_first(params: &[Param]) -> &[Param]
    ensures { result.now ≡ drop 1 params.now }
{
    match params {
        [] => params,
        [_, rest @ ..] => rest,
    }
}

/// Nothing is known of a function that isn't there.
fn unknown(alloc: Global) -> Signature
    ensures takes { result.takes ≡ [] }
    ensures gives { result.gives ≡ ty.Any }
{
    Signature {
        takes: Items::new(alloc),
        gives: Ty::Any,
    }
}

/// What a function gives.
pub(crate) fn result_of(alloc: Global, tables: &Tables, f: Option<FuncId>) -> Result<Ty, Memory>
    ensures { IfOk result (λ t. t ≡ (method_signature tables.now f).gives) }
{
    let Some(f) = f else {
        return Ok(Ty::Any);
    };
    match tables.function(f) {
        None => Ok(Ty::Any),
        Some(row) => type_of_annotation(alloc, tables, &row.tree().returns),
    }
}

/// What a function of the module takes and gives.
pub fn function_signature(alloc: Global, tables: &Tables, f: FuncId) -> Result<Signature, Memory>
    ensures takes { IfOk result (λ s. s.takes ≡ (function_signature tables.now f).takes) }
    ensures gives { IfOk result (λ s. s.gives ≡ (function_signature tables.now f).gives) }
{
    match tables.function(f) {
        None => Ok(unknown(alloc)),
        Some(row) => Ok(Signature {
            takes: types_of_params(alloc, tables, row.tree().params.as_slice())?,
            gives: type_of_annotation(alloc, tables, &row.tree().returns)?,
        }),
    }
}

/// What a method takes besides its instance, and what it gives.
#[tactic(auto, using(crate::proofs::Params::others))]
pub fn method_signature(
    alloc: Global,
    tables: &Tables,
    f: Option<FuncId>,
) -> Result<Signature, Memory>
    ensures takes { IfOk result (λ s. s.takes ≡ (method_signature tables.now f).takes) }
    ensures gives { IfOk result (λ s. s.gives ≡ (method_signature tables.now f).gives) }
{
    let Some(f) = f else {
        return Ok(unknown(alloc));
    };
    match tables.function(f) {
        None => Ok(unknown(alloc)),
        Some(row) => Ok(Signature {
            takes: types_of_params(alloc, tables, all_but_first(row.tree().params.as_slice()))?,
            gives: type_of_annotation(alloc, tables, &row.tree().returns)?,
        }),
    }
}

/// A class takes what the `__init__` found along its bases takes, and gives an instance.
#[tactic(auto, unfolding(std::specs::Prelude::chars))]
pub fn constructor_signature(
    alloc: Global,
    tables: &Tables,
    class: u32,
) -> Result<Signature, Memory>
    ensures takes { IfOk result (λ s. s.takes ≡ (constructor_signature tables.now class).takes) }
    ensures gives { IfOk result (λ s. s.gives ≡ (constructor_signature tables.now class).gives) }
{
    let name = Name::from_str(alloc, "__init__")?;
    let initializer = tables.method_named(ClassId::Own(class), &name);
    let method = method_signature(alloc, tables, initializer)?;
    Ok(Signature {
        takes: method.takes,
        gives: Ty::Class(ClassId::Own(class)),
    })
}
