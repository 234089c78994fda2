// What import binds (Language Reference 5.4, 8.7 and 8.8).
ghost use Rattle.std.specs.Prelude.{◌≡◌, map, IfOk};
ghost use Rattle.std.specs.List.{filter_map};
ghost use Rattle.py_plain.specs.Import.{default_of, defaults_of, constants_of, imported};
ghost use Rattle.py_plain.specs.Program.{program_of};
ghost use Rattle.py_import.specs.Kinds.{valued};

use crate::bindings::names_of;
use crate::constants::constant;
use py_meaning::{Sequence, Value};
use py_objects::Objects;
use py_plain::{Frame, Space, State};
use py_syntax::{Expr, Module, Param};
use py_tables::{ClassRow, FunctionRow, Tables};
use pyn_base::{Memory, Name};
use std::alloc::Global;

/// The parameters that have defaults, with their values.
fn defaults_in(
    alloc: Global,
    names: &[(Name, Value)],
    params: &[Param],
) -> Result<Sequence<(Name, Value)>, Memory>
    ensures { IfOk result (λ defaults. defaults ≡ filter_map (λ param. default_of names.now param.name param.default) params.now) }
{
    let mut defaults = Sequence::new(alloc);
    for param in params {
        if let Some(e) = &param.default {
            let x = constant(alloc, e, names)?;
            defaults.push((param.name.to_owned(alloc)?, x))?;
        }
    }
    Ok(defaults)
}

fn all_defaults(
    alloc: Global,
    names: &[(Name, Value)],
    functions: &[FunctionRow],
) -> Result<Sequence<Sequence<(Name, Value)>>, Memory>
    ensures { IfOk result (λ all. all ≡ map (λ f. defaults_of names.now f.tree) functions.now) }
{
    let mut all = Sequence::new(alloc);
    for f in functions {
        all.push(defaults_in(alloc, names, f.tree().params.as_slice())?)?;
    }
    Ok(all)
}

/// The constants of a class, with their values.
fn constants_in(
    alloc: Global,
    names: &[(Name, Value)],
    rows: &[(&Name, &Expr)],
) -> Result<Sequence<(Name, Value)>, Memory>
    ensures { IfOk result (λ constants. constants ≡ valued names.now (map (λ row. (row.0.now, row.1.now)) rows.now)) }
{
    let mut constants = Sequence::new(alloc);
    for row in rows {
        let x = constant(alloc, row.1, names)?;
        constants.push((row.0.to_owned(alloc)?, x))?;
    }
    Ok(constants)
}

fn all_constants(
    alloc: Global,
    names: &[(Name, Value)],
    classes: &[ClassRow],
) -> Result<Sequence<Sequence<(Name, Value)>>, Memory>
    ensures { IfOk result (λ all. all ≡ map (constants_of names.now) classes.now) }
{
    let mut all = Sequence::new(alloc);
    for class in classes {
        all.push(constants_in(alloc, names, class.constants())?)?;
    }
    Ok(all)
}

/// The state after the import of a module, whose tables these are: no object, and a test's own frame.
pub fn import<'m, W: Drop>(
    alloc: Global,
    tree: &'m Module,
    tables: &Tables<'m>,
    seen: W,
) -> Result<State<Objects, W>, Memory>
    requires { tables.now ≡ program_of tree.now }
    ensures { IfOk result (λ s. s ≡ imported tables.now seen) }
{
    let names = names_of(alloc, tree.items.as_slice())?;
    let defaults = all_defaults(alloc, names.as_slice(), tables.functions())?;
    let constants = all_constants(alloc, names.as_slice(), tables.classes())?;
    let frame = Frame {
        function: None,
        variables: Sequence::new(alloc),
        handled: Sequence::new(alloc),
    };
    let space = Space {
        names,
        defaults,
        constants,
    };
    Ok(State {
        frame,
        space,
        objects: Objects::new(alloc)?,
        depth: 0,
        left: 0,
        seen,
    })
}
