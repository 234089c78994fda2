// Whether an expression has a list or dict display anywhere (Language Reference 6.2.5 and 6.2.7).
ghost use Rattle.std.specs.Prelude.{◌≡◌};
ghost use Rattle.std.specs.List.{list_any};
ghost use Rattle.py_scopes.specs.Constants.{has_display as has_display_in, display_in_kind, display_of_args};
ghost use Rattle.py_module_rules.specs.Displays.{maybe_display, operand_display, named_display};

use py_syntax::{Args, CmpOp, Expr, ExprKind};
use pyn_base::Name;
use sqlite_items::Boxed;

/// Whether an expression has a list or dict display anywhere.
#[cycle(displays)]
#[tactic(auto, using(crate::proofs::DisplayLevels::display_levels))]
pub(crate) fn has_display(x: &Expr) -> bool
    ensures { result ≡ has_display_in x.now }
{
    in_kind(&x.kind)
}

#[cycle(displays)]
#[tactic(auto, using(crate::proofs::DisplayLevels::display_levels))]
fn in_kind(kind: &ExprKind) -> bool
    ensures { result ≡ display_in_kind kind.now }
{
    match kind {
        ExprKind::ListLit(_) => true,
        ExprKind::DictLit(_) => true,
        ExprKind::TupleLit(xs) => in_any(xs.as_slice()),
        ExprKind::Attr(x, _) => has_display(x.get()),
        ExprKind::Index(x, i) => has_display(x.get()) || has_display(i.get()),
        ExprKind::Slice(x, low, high) => { has_display(x.get()) || in_maybe(low) || in_maybe(high) }
        ExprKind::Call(x, args) => has_display(x.get()) || in_args(args),
        ExprKind::Method(x, _, args) => has_display(x.get()) || in_args(args),
        ExprKind::Super(_, args) => in_args(args),
        ExprKind::Unary(_, x) => has_display(x.get()),
        ExprKind::Not(x) => has_display(x.get()),
        ExprKind::Binary(_, a, b) => has_display(a.get()) || has_display(b.get()),
        ExprKind::And(xs) => in_any(xs.as_slice()),
        ExprKind::Or(xs) => in_any(xs.as_slice()),
        ExprKind::Compare(x, pairs) => has_display(x.get()) || in_operands(pairs.as_slice()),
        ExprKind::Cond(a, test, b) => {
            has_display(a.get()) || has_display(test.get()) || has_display(b.get())
        }
        ExprKind::NoneLit => false,
        ExprKind::BoolLit(_) => false,
        ExprKind::IntLit(_) => false,
        ExprKind::StrLit(_) => false,
        ExprKind::Name(_) => false,
    }
}

#[cycle(displays)]
#[tactic(auto, using(crate::proofs::DisplayLevels::display_levels))]
fn in_maybe(x: &Option<Boxed<Expr>>) -> bool
    ensures { result ≡ maybe_display x.now }
{
    match x {
        None => false,
        Some(x) => has_display(x.get()),
    }
}

#[cycle(displays)]
#[tactic(auto, using(crate::proofs::DisplayLevels::display_levels))]
fn in_any(xs: &[Expr]) -> bool
    ensures { result ≡ list_any has_display_in xs.now }
{
    for x in xs {
        if has_display(x) {
            return true;
        }
    }
    false
}

#[cycle(displays)]
#[tactic(auto, using(crate::proofs::DisplayLevels::display_levels))]
fn in_operands(pairs: &[(CmpOp, Expr)]) -> bool
    ensures { result ≡ list_any operand_display pairs.now }
{
    for pair in pairs {
        if has_display(&pair.1) {
            return true;
        }
    }
    false
}

#[cycle(displays)]
#[tactic(auto, using(crate::proofs::DisplayLevels::display_levels))]
fn in_named(rows: &[(Name, Expr)]) -> bool
    ensures { result ≡ list_any named_display rows.now }
{
    for row in rows {
        if has_display(&row.1) {
            return true;
        }
    }
    false
}

#[cycle(displays)]
#[tactic(auto, using(crate::proofs::DisplayLevels::display_levels))]
fn in_args(args: &Args) -> bool
    ensures { result ≡ display_of_args args.now }
{
    in_any(args.plain.as_slice()) || in_named(args.named.as_slice())
}
