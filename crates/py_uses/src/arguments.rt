// What is wrong with the arguments of a call.
ghost use Rattle.std.specs.Prelude.{◌≡◌, map, IfOk};
ghost use Rattle.py_uses.specs.Blocks.{greatest, mixes, name_of, has_twice, are_misplaced};

use py_name_sets::NameSet;
use py_syntax::{Args, Expr};
use pyn_base::{Memory, Name};
use std::alloc::Global;

/// Whether a plain argument stands after a named one, or a name twice.
pub(crate) fn are_misplaced(alloc: Global, args: &Args) -> Result<bool, Memory>
    ensures { IfOk result (λ found. found ≡ are_misplaced args.now) }
{
    let named = args.named.as_slice();
    if mixes(args.plain.as_slice(), named) {
        Ok(true)
    } else {
        has_twice(alloc, named)
    }
}

/// The greatest number of expressions, or 0.
fn greatest(xs: &[Expr]) -> u32
    ensures { result ≡ greatest xs.now }
{
    let mut found = 0;
    for x in xs {
        found = found.max(x.node.0);
    }
    found
}

/// Whether some plain argument stands after some named one: their numbers tell where they stand.
fn mixes(plain: &[Expr], named: &[(Name, Expr)]) -> bool
    ensures { result ≡ mixes plain.now named.now }
{
    let last = greatest(plain);
    for row in named {
        if row.1.node.0 < last {
            return true;
        }
    }
    false
}

/// Whether a name is given more than once.
#[tactic(auto, using(crate::proofs::Misplaced::twice_from_none))]
fn has_twice(alloc: Global, named: &[(Name, Expr)]) -> Result<bool, Memory>
    ensures { IfOk result (λ found. found ≡ has_twice (map name_of named.now)) }
{
    let mut seen = NameSet::new(alloc);
    for row in named {
        if seen.insert(&row.0)? {
            return Ok(true);
        }
    }
    Ok(false)
}
