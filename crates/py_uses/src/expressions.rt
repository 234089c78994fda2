// The uses of expressions (Language Reference, chapter 6).
ghost use Rattle.std.specs.Prelude.{◌≡◌, [], ◌++◌, if◌then◌else◌, OnOk};
ghost use Rattle.std.specs.List.{flat_map};
ghost use Rattle.py_scopes.specs.Uses.{uses_of, uses_of_kind, uses_of_args, maybe_uses, at, MixedArguments};
ghost use Rattle.py_uses.specs.Blocks.{pair_uses, operand_uses, named_uses, are_misplaced};

use crate::arguments::are_misplaced;
use crate::uses::{Use, Uses};
use py_syntax::{Args, CmpOp, Expr, ExprKind, Line};
use pyn_base::{Memory, Name};
use sqlite_items::Boxed;

/// Adds the uses of an expression.
#[cycle(expressions)]
#[tactic(auto, using(crate::proofs::ExpressionLevels::expression_levels))]
pub fn add_expr<'m>(uses: &mut Uses<'m>, x: &'m Expr) -> Result<(), Memory>
    ensures { OnOk result (uses.new ≡ uses.old ++ uses_of x.now) }
{
    add_kind(uses, &x.kind, x.line)
}

#[cycle(expressions)]
#[tactic(auto, using(crate::proofs::ExpressionLevels::expression_levels))]
fn add_kind<'m>(uses: &mut Uses<'m>, kind: &'m ExprKind, line: Line) -> Result<(), Memory>
    ensures { OnOk result (uses.new ≡ uses.old ++ uses_of_kind kind.now line) }
{
    match kind {
        ExprKind::NoneLit => Ok(()),
        ExprKind::BoolLit(_) => Ok(()),
        ExprKind::IntLit(_) => Ok(()),
        ExprKind::StrLit(_) => Ok(()),
        ExprKind::Name(name) => uses.add(line, Use::Reads(name)),
        ExprKind::ListLit(xs) => add_all(uses, xs.as_slice()),
        ExprKind::TupleLit(xs) => add_all(uses, xs.as_slice()),
        ExprKind::DictLit(pairs) => add_pairs(uses, pairs.as_slice()),
        ExprKind::Attr(x, name) => {
            add_expr(uses, x.get())?;
            uses.add(line, Use::Attribute(name))
        }
        ExprKind::Index(x, i) => {
            add_expr(uses, x.get())?;
            add_expr(uses, i.get())
        }
        ExprKind::Slice(x, low, high) => {
            add_expr(uses, x.get())?;
            add_maybe(uses, low)?;
            add_maybe(uses, high)
        }
        ExprKind::Call(x, args) => {
            add_expr(uses, x.get())?;
            add_args(uses, args, line)
        }
        ExprKind::Method(x, name, args) => {
            add_expr(uses, x.get())?;
            uses.add(line, Use::Attribute(name))?;
            add_args(uses, args, line)
        }
        ExprKind::Super(name, args) => {
            uses.add(line, Use::Super(name))?;
            add_args(uses, args, line)
        }
        ExprKind::Unary(_, x) => add_expr(uses, x.get()),
        ExprKind::Not(x) => add_expr(uses, x.get()),
        ExprKind::Binary(_, a, b) => {
            add_expr(uses, a.get())?;
            add_expr(uses, b.get())
        }
        ExprKind::And(xs) => add_all(uses, xs.as_slice()),
        ExprKind::Or(xs) => add_all(uses, xs.as_slice()),
        ExprKind::Compare(x, pairs) => {
            add_expr(uses, x.get())?;
            add_operands(uses, pairs.as_slice())
        }
        ExprKind::Cond(a, test, b) => {
            add_expr(uses, a.get())?;
            add_expr(uses, test.get())?;
            add_expr(uses, b.get())
        }
    }
}

#[cycle(expressions)]
#[tactic(auto, using(crate::proofs::ExpressionLevels::expression_levels))]
fn add_maybe<'m>(uses: &mut Uses<'m>, x: &'m Option<Boxed<Expr>>) -> Result<(), Memory>
    ensures { OnOk result (uses.new ≡ uses.old ++ maybe_uses x.now) }
{
    match x {
        None => Ok(()),
        Some(x) => add_expr(uses, x.get()),
    }
}

#[cycle(expressions)]
#[tactic(auto, using(crate::proofs::ExpressionLevels::expression_levels))]
fn add_all<'m>(uses: &mut Uses<'m>, xs: &'m [Expr]) -> Result<(), Memory>
    ensures { OnOk result (uses.new ≡ uses.old ++ flat_map uses_of xs.now) }
{
    for x in xs {
        add_expr(uses, x)?;
    }
    Ok(())
}

#[cycle(expressions)]
#[tactic(auto, using(crate::proofs::ExpressionLevels::expression_levels))]
fn add_pairs<'m>(uses: &mut Uses<'m>, pairs: &'m [(Expr, Expr)]) -> Result<(), Memory>
    ensures { OnOk result (uses.new ≡ uses.old ++ flat_map pair_uses pairs.now) }
{
    for pair in pairs {
        add_expr(uses, &pair.0)?;
        add_expr(uses, &pair.1)?;
    }
    Ok(())
}

#[cycle(expressions)]
#[tactic(auto, using(crate::proofs::ExpressionLevels::expression_levels))]
fn add_operands<'m>(uses: &mut Uses<'m>, pairs: &'m [(CmpOp, Expr)]) -> Result<(), Memory>
    ensures { OnOk result (uses.new ≡ uses.old ++ flat_map operand_uses pairs.now) }
{
    for pair in pairs {
        add_expr(uses, &pair.1)?;
    }
    Ok(())
}

#[cycle(expressions)]
#[tactic(auto, using(crate::proofs::ExpressionLevels::expression_levels))]
fn add_named<'m>(uses: &mut Uses<'m>, named: &'m [(Name, Expr)], line: Line) -> Result<(), Memory>
    ensures { OnOk result (uses.new ≡ uses.old ++ flat_map (named_uses line) named.now) }
{
    for row in named {
        uses.add(line, Use::Argument(&row.0))?;
        add_expr(uses, &row.1)?;
    }
    Ok(())
}

#[cycle(expressions)]
#[tactic(auto, using(crate::proofs::ExpressionLevels::expression_levels))]
fn add_args<'m>(uses: &mut Uses<'m>, args: &'m Args, line: Line) -> Result<(), Memory>
    ensures { OnOk result (uses.new ≡ uses.old ++ uses_of_args args.now line) }
{
    add_all(uses, args.plain.as_slice())?;
    add_named(uses, args.named.as_slice(), line)?;
    add_misplaced(uses, args, line)
}

fn add_misplaced<'m>(uses: &mut Uses<'m>, args: &Args, line: Line) -> Result<(), Memory>
    ensures { OnOk result (uses.new ≡ uses.old ++ (if are_misplaced args.now then at line MixedArguments else [])) }
{
    if are_misplaced(uses.allocator(), args)? {
        uses.add(line, Use::MixedArguments)
    } else {
        Ok(())
    }
}
