// Displays, part by part (Language Reference 6.2.5, 6.2.7 and 6.15).
ghost use Rattle.std.specs.Prelude.{◌≡◌, ◌+◌, IfOk};
ghost use Rattle.py_plain.specs.Displays.{list_display, tuple_display, dict_display};
ghost use Rattle.py_plain.specs.Statements.{value_of};
ghost use Rattle.py_frames.specs.Loads.{weight, load, Sinks};
ghost use Rattle.py_eval.specs.Transitions.{Continues};

use py_effects::{make_dict, make_list, make_tuple};
use py_frames::{Control, Doing, Operand, Pending, Tail, laws_of_frames};
use py_meaning::{Sequence, Value};
use py_objects::Objects;
use py_plain::State;
use py_syntax::Expr;
use pyn_base::Memory;

/// The next item of a list display, or the list.
pub fn next_item<'s, W: Drop>(
    s: &mut State<Objects, W>,
    stack: &mut Vec<Control<'s>>,
    done: Sequence<Value>,
    items: Tail<'s, Expr>,
) -> Result<Doing<'s>, Memory>
    ensures meant { IfOk result (λ next. Continues (λ watcher program. list_display (value_of watcher program) done items.entry) stack.old.items s.old stack.new.items next s.new) }
    ensures falls { IfOk result (λ next. Sinks s.old.left s.new.left (weight stack.old.items + 6) (load stack.new.items next)) }
{
    match items.first() {
        None => {
            let end = make_list(s, done)?;
            Ok(Doing::Finished(end))
        }
        Some((first, more)) => {
            laws_of_frames::<W>();
            stack.push(Control::Then(Pending::Operand(Operand::ListItem(done, more))))?;
            Ok(Doing::Eval(first))
        }
    }
}

/// The next part of a tuple display, or the tuple.
pub fn next_part<'s, W: Drop>(
    s: &mut State<Objects, W>,
    stack: &mut Vec<Control<'s>>,
    done: Sequence<Value>,
    parts: Tail<'s, Expr>,
) -> Result<Doing<'s>, Memory>
    ensures meant { IfOk result (λ next. Continues (λ watcher program. tuple_display (value_of watcher program) done parts.entry) stack.old.items s.old stack.new.items next s.new) }
    ensures falls { IfOk result (λ next. Sinks s.old.left s.new.left (weight stack.old.items + 6) (load stack.new.items next)) }
{
    match parts.first() {
        None => {
            let end = make_tuple(s, done)?;
            Ok(Doing::Finished(end))
        }
        Some((first, more)) => {
            laws_of_frames::<W>();
            stack.push(Control::Then(Pending::Operand(Operand::TuplePart(done, more))))?;
            Ok(Doing::Eval(first))
        }
    }
}

/// The next pair of a dict display, or the dict.
pub fn next_pair<'s, W: Drop>(
    s: &mut State<Objects, W>,
    stack: &mut Vec<Control<'s>>,
    done: Sequence<(Value, Value)>,
    pairs: Tail<'s, (Expr, Expr)>,
) -> Result<Doing<'s>, Memory>
    ensures meant { IfOk result (λ next. Continues (λ watcher program. dict_display (value_of watcher program) done pairs.entry) stack.old.items s.old stack.new.items next s.new) }
    ensures falls { IfOk result (λ next. Sinks s.old.left s.new.left (weight stack.old.items + 6) (load stack.new.items next)) }
{
    match pairs.first() {
        None => {
            let end = make_dict(s, done)?;
            Ok(Doing::Finished(end))
        }
        Some((pair, more)) => {
            laws_of_frames::<W>();
            stack.push(Control::Then(Pending::Operand(Operand::DictKey(done, pair, more))))?;
            Ok(Doing::Eval(&pair.0))
        }
    }
}
