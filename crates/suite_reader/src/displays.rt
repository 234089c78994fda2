// Displays: literals, and lists, tuples and dicts of displays (Language Reference 6.2).
ghost use Rattle.std.specs.Prelude.{◌≡◌, IfOk, map};
ghost use Rattle.suite_file.specs.Spelled.{all_of, signed_display, shown_in, shown_in_kind};
ghost use Rattle.suite_reader.specs.Shown.{shown_pair};

use crate::literals::signed;
use py_syntax::{Expr, ExprKind, Sign};
use pyn_base::Memory;
use sqlite_items::Items;
use std::alloc::Global;
use suite_model::{Primitive, Shown};

fn signed_display(sign: Sign, shown: Shown) -> Option<Shown>
    ensures { result ≡ signed_display sign shown }
{
    match shown {
        Shown::Prim(prim) => signed(sign, prim).map(Shown::Prim),
        _ => None,
    }
}

/// The display that an expression is.
#[cycle(displays)]
#[tactic(auto, using(crate::proofs::Levels::levels))]
pub fn shown_in(alloc: Global, e: &Expr) -> Result<Option<Shown>, Memory>
    ensures { IfOk result (λ found. found ≡ shown_in e.now) }
{
    shown_in_kind(alloc, &e.kind)
}

#[cycle(displays)]
#[tactic(auto, using(crate::proofs::Levels::levels))]
fn shown_in_kind(alloc: Global, kind: &ExprKind) -> Result<Option<Shown>, Memory>
    ensures { IfOk result (λ found. found ≡ shown_in_kind kind.now) }
{
    match kind {
        ExprKind::NoneLit => Ok(Some(Shown::Prim(Primitive::None))),
        ExprKind::BoolLit(b) => Ok(Some(Shown::Prim(Primitive::Bool(*b)))),
        ExprKind::IntLit(n) => Ok(Some(Shown::Prim(Primitive::Int(*n)))),
        ExprKind::StrLit(text) => Ok(Some(Shown::Prim(Primitive::Str(text.to_owned(alloc)?)))),
        ExprKind::Unary(sign, e) => match shown_in(alloc, e.get())? {
            None => Ok(None),
            Some(shown) => Ok(signed_display(*sign, shown)),
        },
        ExprKind::ListLit(parts) => match all_shown(alloc, parts.as_slice())? {
            None => Ok(None),
            Some(parts) => Ok(Some(Shown::List(parts))),
        },
        ExprKind::TupleLit(parts) => match all_shown(alloc, parts.as_slice())? {
            None => Ok(None),
            Some(parts) => Ok(Some(Shown::Tuple(parts))),
        },
        ExprKind::DictLit(pairs) => match all_pairs_shown(alloc, pairs.as_slice())? {
            None => Ok(None),
            Some(pairs) => Ok(Some(Shown::Dict(pairs))),
        },
        _ => Ok(None),
    }
}

#[cycle(displays)]
#[tactic(auto, using(crate::proofs::Levels::levels))]
fn all_shown(alloc: Global, es: &[Expr]) -> Result<Option<Items<Shown>>, Memory>
    ensures { IfOk result (λ found. found ≡ all_of (map shown_in es.now)) }
{
    let mut parts = Items::new(alloc);
    for e in es {
        match shown_in(alloc, e)? {
            None => return Ok(None),
            Some(shown) => parts.push(shown)?,
        }
    }
    Ok(Some(parts))
}

#[cycle(displays)]
#[tactic(auto, using(crate::proofs::Levels::levels))]
fn all_pairs_shown(
    alloc: Global,
    es: &[(Expr, Expr)],
) -> Result<Option<Items<(Shown, Shown)>>, Memory>
    ensures { IfOk result (λ found. found ≡ all_of (map shown_pair es.now)) }
{
    let mut pairs = Items::new(alloc);
    for e in es {
        match shown_in(alloc, &e.0)? {
            None => return Ok(None),
            Some(key) => match shown_in(alloc, &e.1)? {
                None => return Ok(None),
                Some(value) => pairs.push((key, value))?,
            },
        }
    }
    Ok(Some(pairs))
}
