// What a step makes.
ghost use Rattle.std.specs.Prelude.{◌≡◌, IfOk};
ghost use Rattle.py_plain.specs.Nodes.{kind_of_expr};
ghost use Rattle.suite_file.specs.Spelled.{is_module, args_in, called_by, right_in};

use crate::literals::literal_in;
use crate::variables::{pairs_in, variable_in, variables_in};
use py_syntax::{Args, Expr, ExprKind};
use pyn_base::{Ids, Memory, Name};
use std::alloc::Global;
use suite_file::Right;

/// Whether an expression is `module_0`.
#[tactic(auto, unfolding(std::specs::Prelude::chars))]
pub fn is_module(e: &Expr) -> bool
    ensures { result ≡ is_module (kind_of_expr e.now) }
{
    match &e.kind {
        ExprKind::Name(name) => name.is("module_0"),
        _ => false,
    }
}

/// The variables that arguments name. None of them has a keyword.
fn args_in(alloc: Global, args: &Args) -> Result<Option<Ids>, Memory>
    ensures { IfOk result (λ found. found ≡ args_in args.now) }
{
    match args.named.as_slice() {
        [] => variables_in(alloc, args.plain.as_slice()),
        _ => Ok(None),
    }
}

/// A call of the module's, or of a variable's method.
fn called(alloc: Global, receiver: &Expr, name: &Name, args: Ids) -> Result<Option<Right>, Memory>
    ensures { IfOk result (λ found. found ≡ called_by (kind_of_expr receiver.now) name.now args) }
{
    if is_module(receiver) {
        return Ok(Some(Right::OfModule(name.to_owned(alloc)?, args)));
    }
    match variable_in(receiver) {
        None => Ok(None),
        Some(k) => Ok(Some(Right::Method(k, name.to_owned(alloc)?, args))),
    }
}

/// What a step makes, by the expression that it assigns.
pub fn right_in(alloc: Global, e: &Expr) -> Result<Option<Right>, Memory>
    ensures { IfOk result (λ found. found ≡ right_in e.now) }
{
    match &e.kind {
        ExprKind::ListLit(parts) => Ok(variables_in(alloc, parts.as_slice())?.map(Right::ListOf)),
        ExprKind::DictLit(pairs) => Ok(pairs_in(alloc, pairs.as_slice())?.map(Right::DictOf)),
        ExprKind::Method(receiver, name, args) => match args_in(alloc, args)? {
            None => Ok(None),
            Some(args) => called(alloc, receiver.get(), name, args),
        },
        _ => Ok(literal_in(alloc, e)?.map(Right::Prim)),
    }
}
