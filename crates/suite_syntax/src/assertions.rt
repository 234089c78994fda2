// Assertions (Language Reference 7.3).
ghost use Rattle.std.specs.Prelude.{◌≡◌, [], ◌∷◌, codes, IfOk};
ghost use Rattle.py_syntax.specs.declared.expr.Args.{roll-Args};
ghost use Rattle.py_syntax.specs.declared.expr.ExprKind.TheVariants as e;
ghost use Rattle.suite_model.specs.Assertions.{assertion, condition, subject_read};
ghost use Rattle.suite_model.specs.Statements.{expression};
ghost use Rattle.suite_model.specs.declared.suite.Wants.TheVariants.{Kind};

use crate::classes::class_read;
use crate::displays::display;
use crate::literals::{expression, literal, variable_read};
use py_syntax::{Args, CmpOp, Expr, ExprKind, Stmt, StmtKind};
use py_tables::Tables;
use pyn_base::{ClassId, Memory, Name, NodeId};
use sqlite_items::{Boxed, Items};
use std::alloc::Global;
use suite_model::{Assert, Subject, Wants};

fn subject_read(alloc: Global, subject: &Subject) -> Result<Expr, Memory>
    ensures { IfOk result (λ e. e ≡ subject_read subject.now) }
{
    match subject {
        Subject::Whole(k) => variable_read(alloc, *k),
        Subject::Attr(k, name) => {
            let of = Boxed::new(alloc, variable_read(alloc, *k)?)?;
            Ok(expression(ExprKind::Attr(of, name.to_owned(alloc)?)))
        }
    }
}

/// One comparison.
fn compared(alloc: Global, subject: Expr, op: CmpOp, other: Expr) -> Result<Expr, Memory>
    ensures { IfOk result (λ x. x ≡ expression (e.Compare subject ((op, other) ∷ []))) }
{
    let mut others = Items::new(alloc);
    others.push((op, other))?;
    Ok(expression(ExprKind::Compare(Boxed::new(alloc, subject)?, others)))
}

/// Two plain arguments.
fn two_args(alloc: Global, first: Expr, second: Expr) -> Result<Args, Memory>
    ensures { IfOk result (λ args. args ≡ roll-Args record { plain = first ∷ second ∷ []; named = [] }) }
{
    let mut plain = Items::new(alloc);
    plain.push(first)?;
    plain.push(second)?;
    Ok(Args {
        plain,
        named: Items::new(alloc),
    })
}

#[tactic(auto, unfolding(std::specs::Prelude::chars))]
fn isinstance_read(alloc: Global) -> Result<Expr, Memory>
    ensures { IfOk result (λ x. x ≡ expression (e.Name (codes "isinstance"))) }
{
    Ok(expression(ExprKind::Name(Name::from_str(alloc, "isinstance")?)))
}

/// A call of `isinstance`.
fn is_instance(
    alloc: Global,
    tables: &Tables,
    subject: Expr,
    class: ClassId,
) -> Result<Expr, Memory>
    ensures { IfOk result (λ x. x ≡ condition tables.now subject (Kind class)) }
{
    let callee = Boxed::new(alloc, isinstance_read(alloc)?)?;
    let class = class_read(alloc, tables, class)?;
    let args = two_args(alloc, subject, class)?;
    Ok(expression(ExprKind::Call(callee, args)))
}

fn condition(alloc: Global, tables: &Tables, subject: Expr, wants: &Wants) -> Result<Expr, Memory>
    ensures { IfOk result (λ x. x ≡ condition tables.now subject wants.now) }
{
    match wants {
        Wants::Is(prim) => {
            let other = literal(alloc, prim)?;
            compared(alloc, subject, CmpOp::Same, other)
        }
        Wants::Equals(shown) => {
            let other = display(alloc, shown)?;
            compared(alloc, subject, CmpOp::Eq, other)
        }
        Wants::Kind(class) => is_instance(alloc, tables, subject, *class),
    }
}

/// The statement that an assertion is.
pub fn assertion(alloc: Global, tables: &Tables, x: &Assert) -> Result<Stmt, Memory>
    ensures { IfOk result (λ stmt. stmt ≡ assertion tables.now x.now) }
{
    let subject = subject_read(alloc, &x.subject)?;
    let test = condition(alloc, tables, subject, &x.wants)?;
    Ok(Stmt {
        node: NodeId(0),
        line: 1,
        kind: StmtKind::Assert(test, None),
    })
}
