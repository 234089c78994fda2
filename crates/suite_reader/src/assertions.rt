// Assertions, of a variable or an attribute of one (Language Reference 7.3).
ghost use Rattle.std.specs.Prelude.{◌≡◌, IfOk};
ghost use Rattle.py_plain.specs.Nodes.{kind_of_expr};
ghost use Rattle.py_syntax.specs.declared.expr.Args.{out-Args};
ghost use Rattle.suite_file.specs.Spelled.{subject_by, single, asked_by, compared_with, comparison_by, is_isinstance, kind_asked, condition_by};

use crate::classes::class_in;
use crate::displays::shown_in;
use crate::literals::literal_in;
use crate::variables::{variable_in, variable_named};
use py_syntax::{Args, CmpOp, Expr, ExprKind};
use pyn_base::Memory;
use std::alloc::Global;
use suite_file::{Asked, Spelled};
use suite_model::{Primitive, Subject};

/// What an assertion is about.
fn subject_in(alloc: Global, e: &Expr) -> Result<Option<Subject>, Memory>
    ensures { IfOk result (λ found. found ≡ subject_by (kind_of_expr e.now)) }
{
    match &e.kind {
        ExprKind::Attr(of, name) => match variable_in(of.get()) {
            None => Ok(None),
            Some(k) => Ok(Some(Subject::Attr(k, name.to_owned(alloc)?))),
        },
        ExprKind::Name(name) => Ok(variable_named(name).map(Subject::Whole)),
        _ => Ok(None),
    }
}

/// What `is` may ask for: None or a truth value.
fn single(prim: Primitive) -> Option<Asked>
    ensures { result ≡ single prim }
{
    match prim {
        Primitive::None => Some(Asked::Is(Primitive::None)),
        Primitive::Bool(b) => Some(Asked::Is(Primitive::Bool(b))),
        _ => None,
    }
}

fn asked_by(alloc: Global, op: CmpOp, e: &Expr) -> Result<Option<Asked>, Memory>
    ensures { IfOk result (λ found. found ≡ asked_by op e.now) }
{
    match op {
        CmpOp::Same => match literal_in(alloc, e)? {
            None => Ok(None),
            Some(prim) => Ok(single(prim)),
        },
        CmpOp::Eq => Ok(shown_in(alloc, e)?.map(Asked::Equals)),
        _ => Ok(None),
    }
}

fn compared_with(alloc: Global, others: &[(CmpOp, Expr)]) -> Result<Option<Asked>, Memory>
    ensures { IfOk result (λ found. found ≡ compared_with others.now) }
{
    match others {
        [other] => asked_by(alloc, other.0, &other.1),
        _ => Ok(None),
    }
}

#[tactic(auto, unfolding(std::specs::Prelude::chars))]
fn is_isinstance(e: &Expr) -> bool
    ensures { result ≡ is_isinstance (kind_of_expr e.now) }
{
    match &e.kind {
        ExprKind::Name(name) => name.is("isinstance"),
        _ => false,
    }
}

/// What `isinstance` asks of a variable.
fn kind_asked(alloc: Global, args: &Args) -> Result<Option<Spelled>, Memory>
    ensures { IfOk result (λ found. found ≡ kind_asked (out-Args args.now).plain (out-Args args.now).named) }
{
    match (args.plain.as_slice(), args.named.as_slice()) {
        ([subject, class], []) => match variable_in(subject) {
            None => Ok(None),
            Some(k) => match class_in(alloc, class)? {
                None => Ok(None),
                Some(class) => Ok(Some(Spelled::Asserts(Subject::Whole(k), Asked::Kind(class)))),
            },
        },
        _ => Ok(None),
    }
}

fn comparison(
    alloc: Global,
    subject: &Expr,
    others: &[(CmpOp, Expr)],
) -> Result<Option<Spelled>, Memory>
    ensures { IfOk result (λ found. found ≡ comparison_by (kind_of_expr subject.now) others.now) }
{
    match subject_in(alloc, subject)? {
        None => Ok(None),
        Some(subject) => match compared_with(alloc, others)? {
            None => Ok(None),
            Some(asked) => Ok(Some(Spelled::Asserts(subject, asked))),
        },
    }
}

/// The assertion of a condition.
pub fn condition_in(alloc: Global, e: &Expr) -> Result<Option<Spelled>, Memory>
    ensures { IfOk result (λ found. found ≡ condition_by (kind_of_expr e.now)) }
{
    match &e.kind {
        ExprKind::Compare(subject, others) => {
            comparison(alloc, subject.get(), others.as_slice())
        }
        ExprKind::Call(called, args) => {
            if is_isinstance(called.get()) {
                kind_asked(alloc, args)
            } else {
                Ok(None)
            }
        }
        _ => Ok(None),
    }
}
