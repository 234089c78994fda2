// Augmented assignments: the target's parts are evaluated once, and it is read before the right side is (Language Reference 7.2.1).
ghost use Rattle.std.specs.Prelude.{◌≡◌, ◌≤◌, ◌+◌, IfOk};
ghost use Rattle.py_plain.specs.Assignments.{augments_name, augments_attribute, augments_item};
ghost use Rattle.py_plain.specs.Statements.{value_of};
ghost use Rattle.py_frames.specs.Loads.{weight, load, Sinks};
ghost use Rattle.py_eval.specs.Transitions.{Continues, GoesOn};
ghost use Rattle.py_eval.specs.Words.{adds_to_attribute, adds_to_item, adds_to_name};

use py_effects::{Finding, Outcome, augment, bind, get_item, set_item};
use py_frames::{Control, Doing, Pending, Store, laws_of_frames};
use py_lookups::{find, read, read_found, set_attribute};
use py_meaning::Value;
use py_objects::Objects;
use py_plain::{Judged, State};
use py_syntax::{BinOp, Expr};
use py_tables::Tables;
use pyn_base::{Memory, Name};

/// A name is read, and then the right side comes.
pub fn start_augmented_name<'s, W: Drop>(
    s: &mut State<Objects, W>,
    stack: &mut Vec<Control<'s>>,
    tables: &Tables,
    name: &'s Name,
    op: BinOp,
    e: &'s Expr,
) -> Result<Doing<'s>, Memory>
    ensures meant { IfOk result (λ next. GoesOn tables.now (λ watcher. augments_name tables.now (value_of watcher tables.now) name.now op e.now) stack.old.items s.old stack.new.items next s.new) }
    ensures spends { s.new.left ≤ s.old.left }
{
    laws_of_frames::<W>();
    match read(s, tables, name)? {
        Ok(old) => {
            stack.push(Control::Then(Pending::Store(Store::AugmentName(name, op, old.0))))?;
            Ok(Doing::Eval(e))
        }
        Err(why) => Ok(Doing::Finished(Err(why))),
    }
}

/// An attribute of this object is read, and then the right side comes.
pub(crate) fn add_to_attribute<'s, W: Drop>(
    s: &mut State<Objects, W>,
    stack: &mut Vec<Control<'s>>,
    tables: &Tables,
    of: Value,
    name: &'s Name,
    op: BinOp,
    e: &'s Expr,
) -> Result<Doing<'s>, Memory>
    ensures meant { IfOk result (λ next. GoesOn tables.now (λ watcher. augments_attribute tables.now (value_of watcher tables.now) of name.now op e.now) stack.old.items s.old stack.new.items next s.new) }
    ensures falls { IfOk result (λ next. Sinks s.old.left s.new.left (weight stack.old.items + 6) (load stack.new.items next)) }
{
    laws_of_frames::<W>();
    match find(s, tables, &of, name)? {
        Ok(found) => match read_found(s, found) {
            Ok(old) => {
                let entry = Store::AugmentAttribute(of, name, op, old.0);
                stack.push(Control::Then(Pending::Store(entry)))?;
                Ok(Doing::Eval(e))
            }
            Err(why) => Ok(Doing::Finished(Err(why))),
        },
        Err(why) => Ok(Doing::Finished(Err(why))),
    }
}

/// An item of this object is read, and then the right side comes.
pub(crate) fn add_to_item<'s, W: Drop>(
    s: &mut State<Objects, W>,
    stack: &mut Vec<Control<'s>>,
    of: Value,
    at: Value,
    op: BinOp,
    e: &'s Expr,
) -> Result<Doing<'s>, Memory>
    ensures meant { IfOk result (λ next. Continues (λ watcher program. augments_item program (value_of watcher program) of at op e.now) stack.old.items s.old stack.new.items next s.new) }
    ensures falls { IfOk result (λ next. Sinks s.old.left s.new.left (weight stack.old.items + 6) (load stack.new.items next)) }
{
    laws_of_frames::<W>();
    match get_item(s, &of, &at)? {
        Ok(old) => {
            let entry = Store::AugmentItem(of, at, op, old.0);
            stack.push(Control::Then(Pending::Store(entry)))?;
            Ok(Doing::Eval(e))
        }
        Err(why) => Ok(Doing::Finished(Err(why))),
    }
}

/// A name gets what the operator makes of its old value.
pub(crate) fn store_new_name<W: Drop>(
    s: &mut State<Objects, W>,
    name: &Name,
    op: BinOp,
    old: Value,
    x: Value,
) -> Result<Outcome<Finding>, Memory>
    ensures meant { IfOk result (λ end. adds_to_name name.now op old x s.old ≡ (end, s.new)) }
    ensures spends { s.new.left ≤ s.old.left }
{
    match augment(s, op, &old, &x)? {
        Ok(new) => {
            bind(s, name, new.0)?;
            Ok(Ok((Value::None, Judged::Plain(false))))
        }
        Err(why) => Ok(Err(why)),
    }
}

/// An attribute gets what the operator makes of its old value.
pub(crate) fn store_new_attribute<W: Drop>(
    s: &mut State<Objects, W>,
    tables: &Tables,
    of: Value,
    name: &Name,
    op: BinOp,
    old: Value,
    x: Value,
) -> Result<Outcome<Finding>, Memory>
    ensures meant { IfOk result (λ end. adds_to_attribute tables.now of name.now op old x s.old ≡ (end, s.new)) }
    ensures spends { s.new.left ≤ s.old.left }
{
    match augment(s, op, &old, &x)? {
        Ok(new) => {
            let end = set_attribute(s, tables, &of, name, new.0)?;
            Ok(end)
        }
        Err(why) => Ok(Err(why)),
    }
}

/// An item gets what the operator makes of its old value.
pub(crate) fn store_new_item<W: Drop>(
    s: &mut State<Objects, W>,
    of: Value,
    at: Value,
    op: BinOp,
    old: Value,
    x: Value,
) -> Result<Outcome<Finding>, Memory>
    ensures meant { IfOk result (λ end. adds_to_item of at op old x s.old ≡ (end, s.new)) }
    ensures spends { s.new.left ≤ s.old.left }
{
    match augment(s, op, &old, &x)? {
        Ok(new) => {
            let end = set_item(s, &of, &at, new.0)?;
            Ok(end)
        }
        Err(why) => Ok(Err(why)),
    }
}
