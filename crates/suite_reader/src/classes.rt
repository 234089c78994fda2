// Classes, as a test names them.
ghost use Rattle.std.specs.Prelude.{◌≡◌, IfOk};
ghost use Rattle.suite_file.specs.Spelled.{class_in};

use crate::rights::is_module;
use py_syntax::{Expr, ExprKind};
use pyn_base::Memory;
use std::alloc::Global;
use suite_file::Named;

/// The class that an expression names: `NAME` or `module_0.NAME`.
pub fn class_in(alloc: Global, e: &Expr) -> Result<Option<Named>, Memory>
    ensures { IfOk result (λ found. found ≡ class_in e.now) }
{
    match &e.kind {
        ExprKind::Name(name) => Ok(Some(Named::Bare(name.to_owned(alloc)?))),
        ExprKind::Attr(of, name) => {
            if is_module(of.get()) {
                Ok(Some(Named::OfModule(name.to_owned(alloc)?)))
            } else {
                Ok(None)
            }
        }
        _ => Ok(None),
    }
}
