// Assignments: the right side comes first, then each target with its parts (Language Reference 7.2 and 7.5).
ghost use Rattle.std.specs.Prelude.{◌≡◌, ◌≤◌, ◌+◌, ◌∷◌, [], false, IfOk, MatchOption};
ghost use Rattle.py_syntax.specs.declared.stmt.Target.TheVariants as target;
ghost use Rattle.py_plain.specs.declared.judged.Judged.TheVariants as j;
ghost use Rattle.py_plain.specs.Assignments.{stores, stores_all, stores_to};
ghost use Rattle.py_plain.specs.Attributes.{sets_attribute};
ghost use Rattle.py_plain.specs.Operators.{sets_item, deletes_item};
ghost use Rattle.py_plain.specs.Statements.{value_of};
ghost use Rattle.py_frames.specs.declared.pending.Store.TheVariants as store;
ghost use Rattle.py_frames.specs.Loads.{weight, load, Sinks};
ghost use Rattle.py_frames.specs.Rest.{after_store};
ghost use Rattle.py_eval.specs.Transitions.{Anywhere, Continues, GoesOn};
ghost use Rattle.py_eval.specs.Words.{and_then};

use crate::augments::{
    add_to_attribute, add_to_item, store_new_attribute, store_new_item, store_new_name,
};
use crate::operands::value_found;
use py_effects::{Finding, Outcome, bind, delete_item, set_item, unpack};
use py_frames::{Control, Doing, Pending, Store, Tail, laws_of_frames};
use py_lookups::set_attribute;
use py_meaning::{Sequence, Value};
use py_objects::{Objects, shared_all};
use py_plain::{Judged, State};
use py_syntax::{BinOp, Expr, Target};
use py_tables::Tables;
use pyn_base::{Memory, Name};
use sqlite_items::Items;
use std::alloc::Global;

/// The first of a list, and the others.
fn first_of<T>(items: &[T]) -> Option<(&T, &[T])>
    ensures { MatchOption result (items.now ≡ []) (λ next. items.now ≡ next.0.now ∷ next.1.now) }
{
    items.split_first()
}

/// An attribute gets this value once its object is there, and then the other targets get theirs.
fn store_attribute<'s, W>(
    alloc: Global,
    stack: &mut Vec<Control<'s>>,
    of: &'s Expr,
    name: &'s Name,
    x: Value,
    more: Tail<'s, Target>,
    others: &[Value],
) -> Result<Doing<'s>, Memory>
    ensures meant { IfOk result (λ next. Anywhere W (λ watcher program. and_then (stores program (value_of watcher program) (target.Attr of.now name.now) x) (stores_all program (value_of watcher program) more.entry others.now)) stack.old.items stack.new.items next) }
    ensures falls { IfOk result (λ next. load stack.new.items next ≡ weight stack.old.items + 7) }
{
    laws_of_frames::<W>();
    let values = Sequence::from_vec(shared_all(alloc, others)?);
    stack.push(Control::Then(Pending::Store(Store::Others(more, values))))?;
    stack.push(Control::Then(Pending::Store(Store::AttributeOf(name, x))))?;
    Ok(Doing::Eval(of))
}

/// An item gets this value once its object and its index are there, and then the other targets get theirs.
fn store_item<'s, W>(
    alloc: Global,
    stack: &mut Vec<Control<'s>>,
    of: &'s Expr,
    at: &'s Expr,
    x: Value,
    more: Tail<'s, Target>,
    others: &[Value],
) -> Result<Doing<'s>, Memory>
    ensures meant { IfOk result (λ next. Anywhere W (λ watcher program. and_then (stores program (value_of watcher program) (target.Index of.now at.now) x) (stores_all program (value_of watcher program) more.entry others.now)) stack.old.items stack.new.items next) }
    ensures falls { IfOk result (λ next. load stack.new.items next ≡ weight stack.old.items + 7) }
{
    laws_of_frames::<W>();
    let values = Sequence::from_vec(shared_all(alloc, others)?);
    stack.push(Control::Then(Pending::Store(Store::Others(more, values))))?;
    stack.push(Control::Then(Pending::Store(Store::IndexOf(at, x))))?;
    Ok(Doing::Eval(of))
}

/// Each target gets the value at its place, as far as both go. Names get theirs at once.
fn next_store<'s, W: Drop>(
    s: &mut State<Objects, W>,
    stack: &mut Vec<Control<'s>>,
    targets: Tail<'s, Target>,
    values: &[Value],
) -> Result<Doing<'s>, Memory>
    ensures meant { IfOk result (λ next. Continues (λ watcher program. stores_all program (value_of watcher program) targets.entry values.now) stack.old.items s.old stack.new.items next s.new) }
    ensures falls { IfOk result (λ next. Sinks s.old.left s.new.left (weight stack.old.items + 8) (load stack.new.items next)) }
{
    let alloc = s.objects.alloc();
    let mut targets = targets;
    let mut values = values;
    while let Some((target, more)) = targets.first() {
        let Some((x, others)) = first_of(values) else {
            return Ok(Doing::Finished(Ok((Value::None, Judged::Plain(false)))));
        };
        let x = x.share()?;
        match target {
            Target::Name(name) => {
                bind(s, name, x)?;
                targets = more;
                values = others;
            }
            Target::Attr(of, name) => {
                let next = store_attribute::<W>(alloc, stack, of, name, x, more, others)?;
                return Ok(next);
            }
            Target::Index(of, at) => {
                let next = store_item::<W>(alloc, stack, of, at, x, more, others)?;
                return Ok(next);
            }
        }
    }
    Ok(Doing::Finished(Ok((Value::None, Judged::Plain(false)))))
}

/// The targets of an assignment get its value, or an element each.
fn store_to<'s, W: Drop>(
    s: &mut State<Objects, W>,
    stack: &mut Vec<Control<'s>>,
    targets: &'s Items<Target>,
    is_tuple: bool,
    x: Value,
) -> Result<Doing<'s>, Memory>
    ensures meant { IfOk result (λ next. Continues (λ watcher program. stores_to program (value_of watcher program) is_tuple targets.now x) stack.old.items s.old stack.new.items next s.new) }
    ensures falls { IfOk result (λ next. Sinks s.old.left s.new.left (weight stack.old.items + 8) (load stack.new.items next)) }
{
    if is_tuple {
        match unpack(s, targets.len(), &x)? {
            Ok(items) => {
                let next = next_store(s, stack, Tail::all(targets), items.as_slice())?;
                Ok(next)
            }
            Err(why) => Ok(Doing::Finished(Err(why))),
        }
    } else {
        let one = [x];
        let next = next_store(s, stack, Tail::all(targets), &one)?;
        Ok(next)
    }
}

/// The other targets get their values.
fn store_others<'s, W: Drop>(
    s: &mut State<Objects, W>,
    stack: &mut Vec<Control<'s>>,
    targets: Tail<'s, Target>,
    values: Sequence<Value>,
) -> Result<Doing<'s>, Memory>
    ensures meant { IfOk result (λ next. Continues (λ watcher program. stores_all program (value_of watcher program) targets.entry values) stack.old.items s.old stack.new.items next s.new) }
    ensures falls { IfOk result (λ next. Sinks s.old.left s.new.left (weight stack.old.items + 8) (load stack.new.items next)) }
{
    let next = next_store(s, stack, targets, values.as_slice())?;
    Ok(next)
}

/// `of.name = x`.
fn put_attribute<W: Drop>(
    s: &mut State<Objects, W>,
    tables: &Tables,
    of: Value,
    name: &Name,
    x: Value,
) -> Result<Outcome<Finding>, Memory>
    ensures meant { IfOk result (λ end. sets_attribute tables.now of name.now x s.old ≡ (end, s.new)) }
    ensures spends { s.new.left ≡ s.old.left }
{
    let end = set_attribute(s, tables, &of, name, x)?;
    Ok(end)
}

/// `of[at] = x`.
fn put_item<W: Drop>(
    s: &mut State<Objects, W>,
    of: Value,
    at: Value,
    x: Value,
) -> Result<Outcome<Finding>, Memory>
    ensures meant { IfOk result (λ end. sets_item of at x s.old ≡ (end, s.new)) }
    ensures spends { s.new.left ≤ s.old.left }
{
    let end = set_item(s, &of, &at, x)?;
    Ok(end)
}

/// `del of[at]`.
fn remove_item<W: Drop>(
    s: &mut State<Objects, W>,
    of: Value,
    at: Value,
) -> Result<Outcome<Finding>, Memory>
    ensures meant { IfOk result (λ end. deletes_item of at s.old ≡ (end, s.new)) }
    ensures spends { s.new.left ≤ s.old.left }
{
    let end = delete_item(s, &of, &at)?;
    Ok(end)
}

/// The index of this object comes next, at which it gets a value.
fn next_index<'s, W>(
    stack: &mut Vec<Control<'s>>,
    of: Value,
    at: &'s Expr,
    x: Value,
) -> Result<Doing<'s>, Memory>
    ensures meant { IfOk result (λ next. Anywhere W (λ watcher program. after_store watcher program (store.IndexOf at.entry x) (of, j.Plain false)) stack.old.items stack.new.items next) }
    ensures falls { IfOk result (λ next. load stack.new.items next ≡ weight stack.old.items + 4) }
{
    laws_of_frames::<W>();
    stack.push(Control::Then(Pending::Store(Store::ItemAt(of, x))))?;
    Ok(Doing::Eval(at))
}

/// The index of this object comes next, at which an operator changes it.
fn next_augmented<'s, W>(
    stack: &mut Vec<Control<'s>>,
    of: Value,
    at: &'s Expr,
    op: BinOp,
    e: &'s Expr,
) -> Result<Doing<'s>, Memory>
    ensures meant { IfOk result (λ next. Anywhere W (λ watcher program. after_store watcher program (store.AugmentIndexOf at.entry op e.entry) (of, j.Plain false)) stack.old.items stack.new.items next) }
    ensures falls { IfOk result (λ next. load stack.new.items next ≡ weight stack.old.items + 4) }
{
    laws_of_frames::<W>();
    stack.push(Control::Then(Pending::Store(Store::AugmentItemAt(of, op, e))))?;
    Ok(Doing::Eval(at))
}

/// The index of this object comes next, at which its item is deleted.
fn next_deleted<'s, W>(
    stack: &mut Vec<Control<'s>>,
    of: Value,
    at: &'s Expr,
) -> Result<Doing<'s>, Memory>
    ensures meant { IfOk result (λ next. Anywhere W (λ watcher program. after_store watcher program (store.DeleteIndex at.entry) (of, j.Plain false)) stack.old.items stack.new.items next) }
    ensures falls { IfOk result (λ next. load stack.new.items next ≡ weight stack.old.items + 4) }
{
    laws_of_frames::<W>();
    stack.push(Control::Then(Pending::Store(Store::DeleteOf(of))))?;
    Ok(Doing::Eval(at))
}

/// An assignment or a deletion goes on with the value of the part that was evaluated.
pub fn resume_store<'s, W: Drop>(
    s: &mut State<Objects, W>,
    stack: &mut Vec<Control<'s>>,
    tables: &Tables,
    pending: Store<'s>,
    x: Finding,
) -> Result<Doing<'s>, Memory>
    ensures meant { IfOk result (λ next. GoesOn tables.now (λ watcher. after_store watcher tables.now pending.entry x) stack.old.items s.old stack.new.items next s.new) }
    ensures falls { IfOk result (λ next. Sinks s.old.left s.new.left (weight stack.old.items + 8) (load stack.new.items next)) }
{
    let x = value_found(x);
    match pending {
        Store::Targets(targets, is_tuple) => {
            let next = store_to(s, stack, targets, is_tuple, x)?;
            Ok(next)
        }
        Store::Others(targets, values) => {
            let next = store_others(s, stack, targets, values)?;
            Ok(next)
        }
        Store::AttributeOf(name, new) => {
            let end = put_attribute(s, tables, x, name, new)?;
            Ok(Doing::Finished(end))
        }
        Store::IndexOf(at, new) => {
            let next = next_index::<W>(stack, x, at, new)?;
            Ok(next)
        }
        Store::ItemAt(of, new) => {
            let end = put_item(s, of, x, new)?;
            Ok(Doing::Finished(end))
        }
        Store::AugmentName(name, op, old) => {
            let end = store_new_name(s, name, op, old, x)?;
            Ok(Doing::Finished(end))
        }
        Store::AugmentAttributeOf(name, op, e) => {
            let next = add_to_attribute(s, stack, tables, x, name, op, e)?;
            Ok(next)
        }
        Store::AugmentAttribute(of, name, op, old) => {
            let end = store_new_attribute(s, tables, of, name, op, old, x)?;
            Ok(Doing::Finished(end))
        }
        Store::AugmentIndexOf(at, op, e) => {
            let next = next_augmented::<W>(stack, x, at, op, e)?;
            Ok(next)
        }
        Store::AugmentItemAt(of, op, e) => {
            let next = add_to_item(s, stack, of, x, op, e)?;
            Ok(next)
        }
        Store::AugmentItem(of, at, op, old) => {
            let end = store_new_item(s, of, at, op, old, x)?;
            Ok(Doing::Finished(end))
        }
        Store::DeleteIndex(at) => {
            let next = next_deleted::<W>(stack, x, at)?;
            Ok(next)
        }
        Store::DeleteOf(of) => {
            let end = remove_item(s, of, x)?;
            Ok(Doing::Finished(end))
        }
    }
}
