// Parameters of functions and their defaults (Language Reference 8.7).
ghost use Rattle.std.specs.Prelude.{◌≡◌, [], ◌++◌, false, IfOk, OnOk};
ghost use Rattle.std.specs.List.{flat_map};
ghost use Rattle.py_scopes.specs.Constants.{has_display as has_display_in};
ghost use Rattle.py_scopes.specs.ModuleRows.{params_from, defaults_where, defaults_in};
ghost use Rattle.py_scopes.specs.Names.{standing};
ghost use Rattle.py_scopes.specs.Refusals.{least};
ghost use Rattle.py_module_rules.specs.Pieces.{params_of, params_where, functions_where, is_no_constant};

use crate::constants::{Constants, add_constant, is_constant};
use crate::displays::has_display;
use crate::functions::Functions;
use crate::lines::Lines;
use py_name_sets::{NameMap, NameSet};
use py_syntax::{Func, Item, Line, Param};
use pyn_base::Memory;
use std::alloc::Global;

/// The line of the first parameter whose name comes twice, or that has no default after one that has.
pub(crate) fn parameters(alloc: Global, functions: &Functions) -> Result<Option<Line>, Memory>
    ensures { IfOk result (λ line. line ≡ least (flat_map params_of functions.now)) }
{
    let mut lines = Lines::new(alloc);
    let all = functions.as_slice();
    for function in all {
        add_params(alloc, &mut lines, function.params.as_slice())?;
    }
    Ok(lines.least())
}

fn add_params(alloc: Global, lines: &mut Lines, params: &[Param]) -> Result<(), Memory>
    ensures { OnOk result (lines.new ≡ lines.old ++ params_from [] false params.now) }
{
    let mut names = NameSet::new(alloc);
    let mut had = false;
    for param in params {
        let again = names.insert(&param.name)?;
        let has_default = param.default.is_some();
        lines.add_if(again || (had && !has_default), param.line)?;
        had = had || has_default;
    }
    Ok(())
}

/// The line of the first default that has a display.
pub(crate) fn mutable_default(alloc: Global, items: &[Item]) -> Result<Option<Line>, Memory>
    ensures { IfOk result (λ line. line ≡ least (flat_map (defaults_where has_display_in) items.now)) }
{
    let mut lines = Lines::new(alloc);
    for item in items {
        let mut functions = Functions::new(alloc);
        functions.add_item(item)?;
        add_mutable(&mut lines, functions.as_slice())?;
    }
    Ok(lines.least())
}

fn add_mutable(lines: &mut Lines, functions: &[&Func]) -> Result<(), Memory>
    ensures { OnOk result (lines.new ≡ lines.old ++ flat_map (λ function. params_where has_display_in function.now.params) functions.now) }
{
    for function in functions {
        add_mutable_of(lines, function.params.as_slice())?;
    }
    Ok(())
}

fn add_mutable_of(lines: &mut Lines, params: &[Param]) -> Result<(), Memory>
    ensures { OnOk result (lines.new ≡ lines.old ++ params_where has_display_in params.now) }
{
    for param in params {
        match &param.default {
            None => {}
            Some(x) => lines.add_if(has_display(x), param.line)?,
        }
    }
    Ok(())
}

/// The line of the first default that is no constant.
pub(crate) fn defaults<'m>(alloc: Global, items: &'m [Item]) -> Result<Option<Line>, Memory>
    ensures { IfOk result (λ line. line ≡ least (flat_map defaults_in (standing items.now))) }
{
    let mut lines = Lines::new(alloc);
    let mut names = NameMap::new(alloc);
    for item in items {
        let mut functions = Functions::new(alloc);
        functions.add_item(item)?;
        add_defaults(&mut lines, &names, functions.as_slice())?;
        add_constant(&mut names, item)?;
    }
    Ok(lines.least())
}

fn add_defaults(lines: &mut Lines, names: &Constants, functions: &[&Func]) -> Result<(), Memory>
    ensures { OnOk result (lines.new ≡ lines.old ++ flat_map (λ function. params_where (is_no_constant names.now) function.now.params) functions.now) }
{
    for function in functions {
        add_defaults_of(lines, names, function.params.as_slice())?;
    }
    Ok(())
}

fn add_defaults_of(lines: &mut Lines, names: &Constants, params: &[Param]) -> Result<(), Memory>
    ensures { OnOk result (lines.new ≡ lines.old ++ params_where (is_no_constant names.now) params.now) }
{
    for param in params {
        match &param.default {
            None => {}
            Some(x) => lines.add_if(!is_constant(names, x), param.line)?,
        }
    }
    Ok(())
}
