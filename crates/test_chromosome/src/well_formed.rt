// Well-formed tests.
ghost use Rattle.std.specs.Prelude.{◌≡◌, ◌&&◌, [], ◌∷◌, nat_lt, length, map, slice_get, Some, IfOk, MatchOption};
ghost use Rattle.std.specs.List.{list_all, list_any};
ghost use Rattle.std.specs.Option.{option_copied};
ghost use Rattle.py_plain.specs.Classes.{resolution_order};
ghost use Rattle.py_plain.specs.Names.{function_at};
ghost use Rattle.py_plain.specs.Program.{program_of};
ghost use Rattle.py_syntax.specs.declared.module.Module.{Module};
ghost use Rattle.suite_model.specs.declared.ty.Ty.{out-Ty};
ghost use Rattle.suite_model.specs.WellFormed.{serves, arguments_fit, is_well_formed};
ghost use Rattle.test_chromosome.specs.Calls.{is_called, is_made, class_has, answers_by, method_is_fit, step_is_fit, steps_are_fit};

use crate::listing::is_public;
use crate::signature::{constructor_signature, function_signature, method_signature};
use crate::types::fits;
use crate::variables::{method_of_type, step_type};
use py_tables::Tables;
use pyn_base::{ClassId, FuncId, Memory, Name};
use sqlite_items::Items;
use std::alloc::Global;
use suite_model::{Step, Test, Ty};

/// Whether a variable of a type serves where another is wanted: `None` serves everywhere.
fn serves(tables: &Tables, given: Option<&Ty>, wanted: &Ty) -> bool
    ensures { result ≡ serves tables.now (option_copied given.entry) wanted.now }
{
    match given {
        None => false,
        Some(given) => fits(tables, given, wanted) || fits(tables, given, &Ty::NoneType),
    }
}

/// The first of a list, and the others.
fn first_of<T>(items: &[T]) -> Option<(&T, &[T])>
    ensures { MatchOption result (items.now ≡ []) (λ next. items.now ≡ next.0.now ∷ next.1.now) }
{
    items.split_first()
}

/// Whether there is an argument for each type that is taken, and none more. The arguments are variables of these types.
fn arguments_fit(tables: &Tables, types: &[Ty], args: &[u32], takes: &[Ty]) -> bool
    ensures { result ≡ arguments_fit tables.now types.now args.now takes.now }
{
    let mut args = args;
    let mut takes = takes;
    loop {
        let Some((k, others)) = first_of(args) else {
            return takes.is_empty();
        };
        let Some((wanted, rest)) = first_of(takes) else {
            return false;
        };
        if !serves(tables, types.get(*k as usize), wanted) {
            return false;
        }
        args = others;
        takes = rest;
    }
}

/// Whether a test may call a function: one at the module's level, whose name is one for callers.
fn is_called(tables: &Tables, f: FuncId) -> bool
    ensures { result ≡ is_called (function_at tables.now (Some f)) }
{
    match tables.function(f) {
        None => false,
        Some(row) => row.owner().is_none() && is_public(&row.tree().name),
    }
}

/// Whether a test may make an instance of a class.
fn is_made(tables: &Tables, class: u32) -> bool
    ensures { result ≡ is_made (slice_get tables.now.classes class) }
{
    match tables.class(class) {
        None => false,
        Some(row) => is_public(row.name()),
    }
}

/// Whether a class for callers has a method of the name, which is one for callers too.
fn class_has(tables: &Tables, class: ClassId, name: &Name) -> bool
    ensures { result ≡ class_has tables.now name.now class }
{
    match class {
        ClassId::Built(_) => false,
        ClassId::Own(number) => match tables.class(number) {
            None => false,
            Some(row) => { is_public(row.name()) && is_public(name) && row.method(name).is_some() }
        },
    }
}

/// Whether a class or one above it does.
fn class_answers(tables: &Tables, class: ClassId, name: &Name) -> bool
    ensures { result ≡ list_any (class_has tables.now name.now) (resolution_order tables.now class) }
{
    let mut class = class;
    let mut left = tables.classes().len();
    loop {
        match class {
            ClassId::Built(_) => return false,
            ClassId::Own(_) => {
                if left == 0 {
                    return false;
                }
                if class_has(tables, class, name) {
                    return true;
                }
                left -= 1;
                class = tables.base(class);
            }
        }
    }
}

/// Whether a test may call a method of the name of a receiver.
#[tactic(auto, using(crate::proofs::TypeLevels::outs))]
fn answers(tables: &Tables, receiver: &Ty, name: &Name) -> bool
    ensures { result ≡ answers_by tables.now (out-Ty receiver.now) name.now }
{
    match receiver {
        Ty::Class(class) => class_answers(tables, *class, name),
        _ => false,
    }
}

fn method_is_fit(
    alloc: Global,
    tables: &Tables,
    types: &[Ty],
    receiver: Option<&Ty>,
    name: &Name,
    args: &[u32],
) -> Result<bool, Memory>
    ensures { IfOk result (λ b. b ≡ method_is_fit tables.now types.now (option_copied receiver.entry) name.now args.now) }
{
    let Some(receiver) = receiver else {
        return Ok(false);
    };
    if !answers(tables, receiver, name) {
        return Ok(false);
    }
    let method = method_of_type(tables, receiver, name);
    let signature = method_signature(alloc, tables, method)?;
    Ok(arguments_fit(tables, types, args, signature.takes.as_slice()))
}

fn is_earlier(k: u32, count: usize) -> bool
    ensures { result ≡ nat_lt k count }
{
    (k as usize) < count
}

fn are_earlier(variables: &[u32], count: usize) -> bool
    ensures { result ≡ list_all (λ k. nat_lt k count) variables.now }
{
    for k in variables {
        if !is_earlier(*k, count) {
            return false;
        }
    }
    true
}

fn is_pair_earlier(pair: &(u32, u32), count: usize) -> bool
    ensures { result ≡ (nat_lt pair.now.0 count && nat_lt pair.now.1 count) }
{
    is_earlier(pair.0, count) && is_earlier(pair.1, count)
}

fn are_pairs_earlier(pairs: &[(u32, u32)], count: usize) -> bool
    ensures { result ≡ list_all (λ pair. nat_lt pair.0 count && nat_lt pair.1 count) pairs.now }
{
    for pair in pairs {
        if !is_pair_earlier(pair, count) {
            return false;
        }
    }
    true
}

/// Whether a step names earlier variables alone and calls what may be called with what fits. The earlier variables have these types.
fn step_is_fit(alloc: Global, tables: &Tables, types: &[Ty], step: &Step) -> Result<bool, Memory>
    ensures { IfOk result (λ b. b ≡ step_is_fit tables.now types.now step.now) }
{
    match step {
        Step::Prim(_) => Ok(true),
        Step::ListOf(parts) => Ok(are_earlier(parts.as_slice(), types.len())),
        Step::DictOf(pairs) => Ok(are_pairs_earlier(pairs.as_slice(), types.len())),
        Step::Construct(class, args) => {
            if !is_made(tables, *class) {
                return Ok(false);
            }
            let signature = constructor_signature(alloc, tables, *class)?;
            Ok(arguments_fit(tables, types, args.as_slice(), signature.takes.as_slice()))
        }
        Step::Method(receiver, name, args) => {
            let receiver = types.get(*receiver as usize);
            method_is_fit(alloc, tables, types, receiver, name, args.as_slice())
        }
        Step::Function(f, args) => {
            if !is_called(tables, *f) {
                return Ok(false);
            }
            let signature = function_signature(alloc, tables, *f)?;
            Ok(arguments_fit(tables, types, args.as_slice(), signature.takes.as_slice()))
        }
    }
}

/// Whether all steps of a test are fit.
fn are_steps_fit(alloc: Global, tables: &Tables, test: &Test) -> Result<bool, Memory>
    ensures { IfOk result (λ b. b ≡ steps_are_fit tables.now [] test.now.steps) }
{
    let mut types = Items::new(alloc);
    for step in test.steps.as_slice() {
        if !step_is_fit(alloc, tables, types.as_slice(), step)? {
            return Ok(false);
        }
        let made = step_type(alloc, tables, types.as_slice(), step)?;
        types.push(made)?;
    }
    Ok(true)
}

/// Whether a test is well formed: each step names earlier variables alone, calls what may be called, and gives each parameter an
/// argument of its type. The tables are those of the test's module.
pub fn is_well_formed(alloc: Global, tables: &Tables, test: &Test) -> Result<bool, Memory>
    ensures { (m : Module) → tables.now ≡ program_of m → IfOk result (λ b. b ≡ is_well_formed m test.now) }
{
    are_steps_fit(alloc, tables, test)
}
