// `while` loops (Language Reference 8.2 and 7.9 to 7.10).
ghost use Rattle.std.specs.Prelude.{◌≡◌, ◌+◌, ◌<◌, IfOk};
ghost use Rattle.py_plain.specs.Loops.{after_turn, while_loop};
ghost use Rattle.py_plain.specs.Statements.{value_of, means};
ghost use Rattle.py_frames.specs.declared.control.Doing.TheVariants as d;
ghost use Rattle.py_frames.specs.Loads.{weight, load, load_of};
ghost use Rattle.py_eval.specs.Transitions.{Anywhere};

use crate::blocks::passed;
use py_effects::{Finding, Outcome};
use py_frames::{Control, Doing, Pending, Step, laws_of_frames};
use py_plain::{Abrupt, laws_of_meaning};
use py_syntax::{Expr, Stmt};
use pyn_base::Memory;
use sqlite_items::Items;

/// A turn of a `while`: its test comes first.
pub(crate) fn start_turn<'s, W>(
    stack: &mut Vec<Control<'s>>,
    test: &'s Expr,
    body: &'s Items<Stmt>,
) -> Result<Doing<'s>, Memory>
    ensures meant { IfOk result (λ next. Anywhere W (λ watcher program. while_loop watcher program (value_of watcher program) (means watcher program) test.now body.now) stack.old.items stack.new.items next) }
    ensures falls { IfOk result (λ next. load stack.new.items next ≡ weight stack.old.items + 4) }
{
    laws_of_frames::<W>();
    laws_of_meaning::<W, W>();
    stack.push(Control::Then(Pending::Step(Step::While(test, body))))?;
    Ok(Doing::Eval(test))
}

/// After a turn's block: the next turn, or the end of the loop.
pub fn end_turn<'s, W>(
    stack: &mut Vec<Control<'s>>,
    test: &'s Expr,
    body: &'s Items<Stmt>,
    end: Outcome<Finding>,
) -> Result<Doing<'s>, Memory>
    ensures meant { IfOk result (λ next. Anywhere W (λ watcher program. after_turn (while_loop watcher program (value_of watcher program) (means watcher program) test.now body.now) end) stack.old.items stack.new.items next) }
    ensures falls { IfOk result (λ next. load stack.new.items next < weight stack.old.items + 1 + load_of (d.Finished end)) }
{
    match end {
        Ok(_) => {
            let next = start_turn::<W>(stack, test, body)?;
            Ok(next)
        }
        Err(Abrupt::Continued) => {
            let next = start_turn::<W>(stack, test, body)?;
            Ok(next)
        }
        Err(Abrupt::Broke) => Ok(passed()),
        Err(why) => Ok(Doing::Finished(Err(why))),
    }
}
