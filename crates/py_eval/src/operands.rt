// Operators, subscriptions, attributes and displays whose part has its value (Language Reference 6.2, 6.3 and 6.5 to 6.7).
ghost use Rattle.std.specs.Prelude.{◌≡◌, ◌≤◌, ◌+◌, false, IfOk};
ghost use Rattle.py_plain.specs.declared.judged.Judged.TheVariants as j;
ghost use Rattle.py_plain.specs.Operators.{gets_item, gets_slice, operates, signs};
ghost use Rattle.py_frames.specs.declared.pending.Operand.TheVariants as operand;
ghost use Rattle.py_frames.specs.Loads.{weight, load, Sinks};
ghost use Rattle.py_frames.specs.Rest.{after_operand};
ghost use Rattle.py_eval.specs.Transitions.{Anywhere, Continues, GoesOn};
ghost use Rattle.py_eval.specs.Words.{reads_attribute};

use crate::{next_item, next_pair, next_part};
use py_effects::{Finding, Outcome, get_item, get_slice, operate, sign};
use py_frames::{Control, Doing, Operand, Pending, Tail, laws_of_frames};
use py_lookups::{find, read_found};
use py_meaning::{Sequence, Value};
use py_objects::Objects;
use py_plain::State;
use py_syntax::{BinOp, Expr, Sign};
use py_tables::Tables;
use pyn_base::{Memory, Name};
use sqlite_items::Boxed;

/// The value that was found, however it was judged.
pub(crate) fn value_found(found: Finding) -> Value
    ensures { result ≡ found.0 }
{
    found.0
}

/// The value of `of.name`.
fn attribute<W: Drop>(
    s: &mut State<Objects, W>,
    tables: &Tables,
    of: Value,
    name: &Name,
) -> Result<Outcome<Finding>, Memory>
    ensures meant { IfOk result (λ end. reads_attribute tables.now of name.now s.old ≡ (end, s.new)) }
    ensures spends { s.new.left ≡ s.old.left }
{
    match find(s, tables, &of, name)? {
        Ok(found) => Ok(read_found(s, found)),
        Err(why) => Ok(Err(why)),
    }
}

/// The value of `of[at]`.
fn item<W: Drop>(
    s: &mut State<Objects, W>,
    of: Value,
    at: Value,
) -> Result<Outcome<Finding>, Memory>
    ensures meant { IfOk result (λ end. gets_item of at s.old ≡ (end, s.new)) }
    ensures spends { s.new.left ≤ s.old.left }
{
    let end = get_item(s, &of, &at)?;
    Ok(end)
}

/// The value of `of[low:high]`.
fn slice<W: Drop>(
    s: &mut State<Objects, W>,
    of: Value,
    low: Value,
    high: Value,
) -> Result<Outcome<Finding>, Memory>
    ensures meant { IfOk result (λ end. gets_slice of low high s.old ≡ (end, s.new)) }
    ensures spends { s.new.left ≤ s.old.left }
{
    let end = get_slice(s, &of, &low, &high)?;
    Ok(end)
}

/// The value with this sign before it.
fn signed<W: Drop>(
    s: &mut State<Objects, W>,
    before: Sign,
    x: Value,
) -> Result<Outcome<Finding>, Memory>
    ensures meant { IfOk result (λ end. signs before x s.old ≡ (end, s.new)) }
    ensures spends { s.new.left ≤ s.old.left }
{
    let end = sign(s, before, &x)?;
    Ok(end)
}

/// What an operator makes of both operands.
fn applied<W: Drop>(
    s: &mut State<Objects, W>,
    op: BinOp,
    x: Value,
    y: Value,
) -> Result<Outcome<Finding>, Memory>
    ensures meant { IfOk result (λ end. operates op x y s.old ≡ (end, s.new)) }
    ensures spends { s.new.left ≤ s.old.left }
{
    let end = operate(s, op, &x, &y)?;
    Ok(end)
}

/// The index of this object comes next.
fn next_index<'s, W>(
    stack: &mut Vec<Control<'s>>,
    of: Value,
    at: &'s Boxed<Expr>,
) -> Result<Doing<'s>, Memory>
    ensures meant { IfOk result (λ next. Anywhere W (λ watcher program. after_operand watcher program (operand.Index at.entry) (of, j.Plain false)) stack.old.items stack.new.items next) }
    ensures falls { IfOk result (λ next. load stack.new.items next ≡ weight stack.old.items + 4) }
{
    laws_of_frames::<W>();
    stack.push(Control::Then(Pending::Operand(Operand::ItemOf(of))))?;
    Ok(Doing::Eval(at.get()))
}

/// The right operand comes next.
fn next_right<'s, W>(
    stack: &mut Vec<Control<'s>>,
    op: BinOp,
    x: Value,
    right: &'s Boxed<Expr>,
) -> Result<Doing<'s>, Memory>
    ensures meant { IfOk result (λ next. Anywhere W (λ watcher program. after_operand watcher program (operand.Right op right.entry) (x, j.Plain false)) stack.old.items stack.new.items next) }
    ensures falls { IfOk result (λ next. load stack.new.items next ≡ weight stack.old.items + 4) }
{
    laws_of_frames::<W>();
    stack.push(Control::Then(Pending::Operand(Operand::Apply(op, x))))?;
    Ok(Doing::Eval(right.get()))
}

/// The value of this key comes next.
fn next_value<'s, W>(
    stack: &mut Vec<Control<'s>>,
    done: Sequence<(Value, Value)>,
    key: Value,
    pair: &'s (Expr, Expr),
    more: Tail<'s, (Expr, Expr)>,
) -> Result<Doing<'s>, Memory>
    ensures meant { IfOk result (λ next. Anywhere W (λ watcher program. after_operand watcher program (operand.DictKey done pair.entry more.entry) (key, j.Plain false)) stack.old.items stack.new.items next) }
    ensures falls { IfOk result (λ next. load stack.new.items next ≡ weight stack.old.items + 4) }
{
    laws_of_frames::<W>();
    stack.push(Control::Then(Pending::Operand(Operand::DictValue(done, key, more))))?;
    Ok(Doing::Eval(&pair.1))
}

/// One more item of a list display is known.
fn add_item<'s, W: Drop>(
    s: &mut State<Objects, W>,
    stack: &mut Vec<Control<'s>>,
    done: Sequence<Value>,
    x: Value,
    more: Tail<'s, Expr>,
) -> Result<Doing<'s>, Memory>
    ensures meant { IfOk result (λ next. Continues (λ watcher program. after_operand watcher program (operand.ListItem done more.entry) (x, j.Plain false)) stack.old.items s.old stack.new.items next s.new) }
    ensures falls { IfOk result (λ next. Sinks s.old.left s.new.left (weight stack.old.items + 6) (load stack.new.items next)) }
{
    let mut done = done;
    done.push(x)?;
    let next = next_item(s, stack, done, more)?;
    Ok(next)
}

/// One more part of a tuple display is known.
fn add_part<'s, W: Drop>(
    s: &mut State<Objects, W>,
    stack: &mut Vec<Control<'s>>,
    done: Sequence<Value>,
    x: Value,
    more: Tail<'s, Expr>,
) -> Result<Doing<'s>, Memory>
    ensures meant { IfOk result (λ next. Continues (λ watcher program. after_operand watcher program (operand.TuplePart done more.entry) (x, j.Plain false)) stack.old.items s.old stack.new.items next s.new) }
    ensures falls { IfOk result (λ next. Sinks s.old.left s.new.left (weight stack.old.items + 6) (load stack.new.items next)) }
{
    let mut done = done;
    done.push(x)?;
    let next = next_part(s, stack, done, more)?;
    Ok(next)
}

/// One more pair of a dict display is known.
fn add_pair<'s, W: Drop>(
    s: &mut State<Objects, W>,
    stack: &mut Vec<Control<'s>>,
    done: Sequence<(Value, Value)>,
    key: Value,
    x: Value,
    more: Tail<'s, (Expr, Expr)>,
) -> Result<Doing<'s>, Memory>
    ensures meant { IfOk result (λ next. Continues (λ watcher program. after_operand watcher program (operand.DictValue done key more.entry) (x, j.Plain false)) stack.old.items s.old stack.new.items next s.new) }
    ensures falls { IfOk result (λ next. Sinks s.old.left s.new.left (weight stack.old.items + 6) (load stack.new.items next)) }
{
    let mut done = done;
    done.push((key, x))?;
    let next = next_pair(s, stack, done, more)?;
    Ok(next)
}

/// The upper bound of a slice, or the slice.
fn next_high<'s, W: Drop>(
    s: &mut State<Objects, W>,
    stack: &mut Vec<Control<'s>>,
    of: Value,
    low: Value,
    high: &'s Option<Boxed<Expr>>,
) -> Result<Doing<'s>, Memory>
    ensures meant { IfOk result (λ next. Continues (λ watcher program. after_operand watcher program (operand.High of high.entry) (low, j.Plain false)) stack.old.items s.old stack.new.items next s.new) }
    ensures falls { IfOk result (λ next. Sinks s.old.left s.new.left (weight stack.old.items + 6) (load stack.new.items next)) }
{
    laws_of_frames::<W>();
    match high {
        None => {
            let end = get_slice(s, &of, &low, &Value::None)?;
            Ok(Doing::Finished(end))
        }
        Some(e) => {
            stack.push(Control::Then(Pending::Operand(Operand::SliceOf(of, low))))?;
            Ok(Doing::Eval(e.get()))
        }
    }
}

/// The lower bound of a slice, or what follows it.
fn next_low<'s, W: Drop>(
    s: &mut State<Objects, W>,
    stack: &mut Vec<Control<'s>>,
    of: Value,
    low: &'s Option<Boxed<Expr>>,
    high: &'s Option<Boxed<Expr>>,
) -> Result<Doing<'s>, Memory>
    ensures meant { IfOk result (λ next. Continues (λ watcher program. after_operand watcher program (operand.Bounds low.entry high.entry) (of, j.Plain false)) stack.old.items s.old stack.new.items next s.new) }
    ensures falls { IfOk result (λ next. Sinks s.old.left s.new.left (weight stack.old.items + 6) (load stack.new.items next)) }
{
    laws_of_frames::<W>();
    match low {
        None => {
            let next = next_high(s, stack, of, Value::None, high)?;
            Ok(next)
        }
        Some(e) => {
            stack.push(Control::Then(Pending::Operand(Operand::High(of, high))))?;
            Ok(Doing::Eval(e.get()))
        }
    }
}

/// An operand goes on with the value of the part that was evaluated.
pub fn resume_operand<'s, W: Drop>(
    s: &mut State<Objects, W>,
    stack: &mut Vec<Control<'s>>,
    tables: &Tables,
    pending: Operand<'s>,
    x: Finding,
) -> Result<Doing<'s>, Memory>
    ensures meant { IfOk result (λ next. GoesOn tables.now (λ watcher. after_operand watcher tables.now pending.entry x) stack.old.items s.old stack.new.items next s.new) }
    ensures falls { IfOk result (λ next. Sinks s.old.left s.new.left (weight stack.old.items + 8) (load stack.new.items next)) }
{
    let x = value_found(x);
    match pending {
        Operand::Index(at) => {
            let next = next_index::<W>(stack, x, at)?;
            Ok(next)
        }
        Operand::ItemOf(of) => {
            let end = item(s, of, x)?;
            Ok(Doing::Finished(end))
        }
        Operand::Bounds(low, high) => {
            let next = next_low(s, stack, x, low, high)?;
            Ok(next)
        }
        Operand::High(of, high) => {
            let next = next_high(s, stack, of, x, high)?;
            Ok(next)
        }
        Operand::SliceOf(of, low) => {
            let end = slice(s, of, low, x)?;
            Ok(Doing::Finished(end))
        }
        Operand::Sign(before) => {
            let end = signed(s, before, x)?;
            Ok(Doing::Finished(end))
        }
        Operand::Right(op, right) => {
            let next = next_right::<W>(stack, op, x, right)?;
            Ok(next)
        }
        Operand::Apply(op, left) => {
            let end = applied(s, op, left, x)?;
            Ok(Doing::Finished(end))
        }
        Operand::Attribute(name) => {
            let end = attribute(s, tables, x, name)?;
            Ok(Doing::Finished(end))
        }
        Operand::ListItem(done, more) => {
            let next = add_item(s, stack, done, x, more)?;
            Ok(next)
        }
        Operand::TuplePart(done, more) => {
            let next = add_part(s, stack, done, x, more)?;
            Ok(next)
        }
        Operand::DictKey(done, pair, more) => {
            let next = next_value::<W>(stack, done, x, pair, more)?;
            Ok(next)
        }
        Operand::DictValue(done, key, more) => {
            let next = add_pair(s, stack, done, key, x, more)?;
            Ok(next)
        }
    }
}
