// Displays (Language Reference 6.2).
ghost use Rattle.std.specs.Prelude.{◌≡◌, map, IfOk};
ghost use Rattle.suite_model.specs.Assertions.{display};

use crate::literals::{expression, literal};
use py_syntax::{Expr, ExprKind};
use pyn_base::Memory;
use sqlite_items::Items;
use std::alloc::Global;
use suite_model::Shown;

/// The expression that a display is.
#[cycle(displays)]
#[tactic(auto, using(crate::proofs::DisplayLevels::levels))]
pub fn display(alloc: Global, shown: &Shown) -> Result<Expr, Memory>
    ensures { IfOk result (λ e. e ≡ display shown.now) }
{
    match shown {
        Shown::Prim(prim) => literal(alloc, prim),
        Shown::List(parts) => {
            let parts = displays(alloc, parts.as_slice())?;
            Ok(expression(ExprKind::ListLit(parts)))
        }
        Shown::Tuple(parts) => {
            let parts = displays(alloc, parts.as_slice())?;
            Ok(expression(ExprKind::TupleLit(parts)))
        }
        Shown::Dict(pairs) => {
            let pairs = paired(alloc, pairs.as_slice())?;
            Ok(expression(ExprKind::DictLit(pairs)))
        }
    }
}

#[cycle(displays)]
fn displays(alloc: Global, parts: &[Shown]) -> Result<Items<Expr>, Memory>
    ensures { IfOk result (λ all. all ≡ map display parts.now) }
{
    let mut all = Items::new(alloc);
    for part in parts {
        all.push(display(alloc, part)?)?;
    }
    Ok(all)
}

#[cycle(displays)]
fn paired(alloc: Global, pairs: &[(Shown, Shown)]) -> Result<Items<(Expr, Expr)>, Memory>
    ensures { IfOk result (λ all. all ≡ map (λ pair. (display pair.0, display pair.1)) pairs.now) }
{
    let mut all = Items::new(alloc);
    for pair in pairs {
        let key = display(alloc, &pair.0)?;
        let value = display(alloc, &pair.1)?;
        all.push((key, value))?;
    }
    Ok(all)
}
