// Arguments bound to parameters (Language Reference 6.3.4): plain ones first, then named ones, then defaults.
ghost use Rattle.std.specs.Prelude.{◌≡◌, [], ◌∷◌, ◌++◌, map, zip, IfOk, OnOk, MatchOption};
ghost use Rattle.py_plain.specs.Calls.{with_named, with_defaults, bound_arguments};
ghost use Rattle.py_meaning.specs.Methods.{is_among};

use crate::variables::{is_bound, lookup};
use py_meaning::{Sequence, Value};
use py_syntax::Param;
use pyn_base::{Memory, Name};
use std::alloc::Global;

fn is_parameter(params: &[Param], name: &Name) -> bool
    ensures { result ≡ is_among (map (λ param. param.name) params.now) name.now }
{
    for param in params {
        if name.is_same(&param.name) {
            return true;
        }
    }
    false
}

fn push(
    alloc: Global,
    bound: &mut Sequence<(Name, Value)>,
    name: &Name,
    x: &Value,
) -> Result<(), Memory>
    ensures { OnOk result (bound.new ≡ bound.old ++ (name.now, x.now) ∷ []) }
{
    let row = (name.to_owned(alloc)?, x.share()?);
    bound.push(row)
}

/// The first of a list, and the others.
fn first_of<T>(items: &[T]) -> Option<(&T, &[T])>
    ensures { MatchOption result (items.now ≡ []) (λ next. items.now ≡ next.0.now ∷ next.1.now) }
{
    items.split_first()
}

/// The parameters that have plain arguments, with these.
fn with_plain(
    alloc: Global,
    params: &[Param],
    plain: &[Value],
) -> Result<Sequence<(Name, Value)>, Memory>
    ensures { IfOk result (λ bound. bound ≡ zip (map (λ param. param.name) params.now) plain.now) }
{
    let mut bound = Sequence::new(alloc);
    let mut left = plain;
    for param in params {
        match first_of(left) {
            None => return Ok(bound),
            Some((x, more)) => {
                push(alloc, &mut bound, &param.name, x)?;
                left = more;
            }
        }
    }
    Ok(bound)
}

/// A named argument must name a parameter that has none yet.
fn with_named(
    alloc: Global,
    params: &[Param],
    bound: Sequence<(Name, Value)>,
    named: &[(Name, Value)],
) -> Result<Option<Sequence<(Name, Value)>>, Memory>
    ensures { IfOk result (λ all. all ≡ with_named (map (λ param. param.name) params.now) bound named.now) }
{
    let mut bound = bound;
    for row in named {
        if !is_parameter(params, &row.0) || is_bound(bound.as_slice(), &row.0) {
            return Ok(None);
        }
        push(alloc, &mut bound, &row.0, &row.1)?;
    }
    Ok(Some(bound))
}

/// A parameter without an argument must have a default.
fn with_defaults(
    alloc: Global,
    params: &[Param],
    defaults: &[(Name, Value)],
    bound: Sequence<(Name, Value)>,
) -> Result<Option<Sequence<(Name, Value)>>, Memory>
    ensures { IfOk result (λ all. all ≡ with_defaults defaults.now bound (map (λ param. param.name) params.now)) }
{
    let mut bound = bound;
    for param in params {
        if !is_bound(bound.as_slice(), &param.name) {
            match lookup(defaults, &param.name) {
                Some(x) => push(alloc, &mut bound, &param.name, x)?,
                None => return Ok(None),
            }
        }
    }
    Ok(Some(bound))
}

/// The variables with which a call begins, or none where its arguments don't fit its parameters.
pub fn bind_arguments(
    alloc: Global,
    params: &[Param],
    defaults: &[(Name, Value)],
    plain: &[Value],
    named: &[(Name, Value)],
) -> Result<Option<Sequence<(Name, Value)>>, Memory>
    ensures { IfOk result (λ bound. bound ≡ bound_arguments (map (λ param. param.name) params.now) defaults.now plain.now named.now) }
{
    if plain.len() > params.len() {
        return Ok(None);
    }
    let bound = with_plain(alloc, params, plain)?;
    match with_named(alloc, params, bound, named)? {
        Some(bound) => {
            let all = with_defaults(alloc, params, defaults, bound)?;
            Ok(all)
        }
        None => Ok(None),
    }
}
