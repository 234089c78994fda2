// Expressions that begin (Language Reference, chapter 6).
ghost use Rattle.std.specs.Prelude.{◌≡◌, ◌+◌, ◌≤◌, IfOk};
ghost use Rattle.py_syntax.specs.declared.expr.ExprKind.{out-ExprKind};
ghost use Rattle.py_meaning.specs.declared.value.Value.TheVariants as v;
ghost use Rattle.py_plain.specs.Expressions.{value_by};
ghost use Rattle.py_plain.specs.Runs.{watched_by};
ghost use Rattle.py_plain.specs.Statements.{value_of, means};
ghost use Rattle.py_frames.specs.Loads.{weight, load, Sinks};
ghost use Rattle.py_frames.specs.Rest.{Goes};

use py_effects::give;
use py_eval::{
    next_item, next_pair, next_part, start_attribute, start_binary, start_comparison,
    start_conditional, start_conjunction, start_disjunction, start_index, start_not, start_sign,
    start_slice,
};
use py_eval_calls::{begins, start_call, start_method, start_super};
use py_frames::{Control, Doing, Probe, Tail};
use py_lookups::read_name;
use py_meaning::{PyStr, Sequence, Value};
use py_objects::Objects;
use py_plain::{Abrupt, State, laws_of_meaning};
use py_syntax::{Expr, ExprKind};
use py_tables::Tables;
use pyn_base::{Memory, Text};
use std::alloc::Global;

/// A text of the program, as a value.
fn text_value(alloc: Global, text: &Text) -> Result<Value, Memory>
    ensures { IfOk result (λ x. x ≡ v.Str text.now) }
{
    let text = PyStr::from_vec(alloc, text.letters(alloc)?)?;
    Ok(Value::Str(text))
}

/// An expression whose node has begun, by its kind.
fn eval_kind<'s, P: Probe>(
    s: &mut State<Objects, P>,
    stack: &mut Vec<Control<'s>>,
    tables: &'s Tables<'_>,
    kind: &'s ExprKind,
) -> Result<Doing<'s>, Memory>
    ensures meant { let watcher = watched_by P.after_began P.after_judged in IfOk result (λ next. Goes watcher tables.now stack.old.items (value_by watcher tables.now (value_of watcher tables.now) (means watcher tables.now) (out-ExprKind kind.now)) s.old stack.new.items next s.new) }
    ensures spends { IfOk result (λ _. s.new.left ≤ s.old.left) }
{
    match kind {
        ExprKind::NoneLit => Ok(Doing::Finished(Ok(give(s, Value::None)))),
        ExprKind::BoolLit(b) => Ok(Doing::Finished(Ok(give(s, Value::Bool(*b))))),
        ExprKind::IntLit(n) => Ok(Doing::Finished(Ok(give(s, Value::Int(*n))))),
        ExprKind::StrLit(text) => {
            let x = text_value(s.objects.alloc(), text)?;
            Ok(Doing::Finished(Ok(give(s, x))))
        }
        ExprKind::Name(name) => {
            let end = read_name(s, tables, name)?;
            Ok(Doing::Finished(end))
        }
        ExprKind::ListLit(items) => {
            let none = Sequence::new(s.objects.alloc());
            let next = next_item(s, stack, none, Tail::all(items))?;
            Ok(next)
        }
        ExprKind::TupleLit(parts) => {
            let none = Sequence::new(s.objects.alloc());
            let next = next_part(s, stack, none, Tail::all(parts))?;
            Ok(next)
        }
        ExprKind::DictLit(pairs) => {
            let none = Sequence::new(s.objects.alloc());
            let next = next_pair(s, stack, none, Tail::all(pairs))?;
            Ok(next)
        }
        ExprKind::Attr(of, name) => {
            let next = start_attribute::<P>(stack, of, name)?;
            Ok(next)
        }
        ExprKind::Index(of, at) => {
            let next = start_index::<P>(stack, of, at)?;
            Ok(next)
        }
        ExprKind::Slice(of, low, high) => {
            let next = start_slice::<P>(stack, of, low, high)?;
            Ok(next)
        }
        ExprKind::Call(f, args) => {
            let next = start_call(s, stack, tables, f, args)?;
            Ok(next)
        }
        ExprKind::Method(of, name, args) => {
            let next = start_method::<P>(stack, of, name, args)?;
            Ok(next)
        }
        ExprKind::Super(name, args) => {
            let next = start_super(s, stack, tables, name, args)?;
            Ok(next)
        }
        ExprKind::Unary(sign, e) => {
            let next = start_sign::<P>(stack, *sign, e)?;
            Ok(next)
        }
        ExprKind::Not(e) => {
            let next = start_not::<P>(stack, e)?;
            Ok(next)
        }
        ExprKind::Binary(op, a, b) => {
            let next = start_binary::<P>(stack, *op, a, b)?;
            Ok(next)
        }
        ExprKind::And(parts) => {
            let next = start_conjunction(s, stack, parts)?;
            Ok(next)
        }
        ExprKind::Or(parts) => {
            let next = start_disjunction(s, stack, parts)?;
            Ok(next)
        }
        ExprKind::Compare(first, others) => {
            let next = start_comparison::<P>(stack, first, others)?;
            Ok(next)
        }
        ExprKind::Cond(e, test, other) => {
            let next = start_conditional::<P>(stack, e, test, other)?;
            Ok(next)
        }
    }
}

/// An expression begins, and takes a step if one is left.
pub(crate) fn eval<'s, P: Probe>(
    s: &mut State<Objects, P>,
    stack: &mut Vec<Control<'s>>,
    tables: &'s Tables<'_>,
    e: &'s Expr,
) -> Result<Doing<'s>, Memory>
    ensures meant { let watcher = watched_by P.after_began P.after_judged in IfOk result (λ next. Goes watcher tables.now stack.old.items (value_of watcher tables.now e.now) s.old stack.new.items next s.new) }
    ensures falls { IfOk result (λ next. Sinks s.old.left s.new.left (weight stack.old.items + 1) (load stack.new.items next)) }
{
    laws_of_meaning::<P, P>();
    if begins(s, e.node) {
        let next = eval_kind(s, stack, tables, &e.kind)?;
        Ok(next)
    } else {
        Ok(Doing::Finished(Err(Abrupt::OutOfSteps)))
    }
}
