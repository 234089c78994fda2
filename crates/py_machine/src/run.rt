// Runs of the machine, turn by turn.
ghost use Rattle.std.specs.Prelude.{◌≡◌, IfOk};
ghost use Rattle.py_plain.specs.Runs.{watched_by};
ghost use Rattle.py_plain.specs.Statements.{means};
ghost use Rattle.py_frames.specs.Rest.{rest, doing_now};
ghost use Rattle.py_machine.specs.Turns.{Turned, TurnFalls};

use crate::ends::resume;
use crate::expressions::eval;
use py_effects::{Finding, Outcome};
use py_exec::{exec, next_stmt};
use py_frames::{Control, Doing, Probe, laws_of_frames};
use py_objects::Objects;
use py_plain::State;
use py_syntax::Stmt;
use py_tables::Tables;
use pyn_base::Memory;
use std::alloc::Global;

/// What a turn of the machine leaves: what is done next, or the end of the run.
#[derive(Drop)]
pub(crate) enum Turn<'s> {
    Goes(Doing<'s>),
    Over(Outcome<Finding>),
}

/// One turn of the machine.
fn take_turn<'s, P: Probe>(
    s: &mut State<Objects, P>,
    stack: &mut Vec<Control<'s>>,
    tables: &'s Tables<'_>,
    doing: Doing<'s>,
) -> Result<Turn<'s>, Memory>
    ensures meant { let watcher = watched_by P.after_began P.after_judged in IfOk result (λ turn. Turned watcher tables.now turn stack.new.items s.new ≡ rest watcher tables.now stack.old.items doing.entry s.old) }
    ensures falls { IfOk result (λ turn. TurnFalls turn s.old.left s.new.left stack.old.items doing.entry stack.new.items) }
{
    laws_of_frames::<P>();
    match doing {
        Doing::Eval(e) => {
            let next = eval(s, stack, tables, e)?;
            Ok(Turn::Goes(next))
        }
        Doing::Exec(stmt) => {
            let next = exec(s, stack, tables, stmt)?;
            Ok(Turn::Goes(next))
        }
        Doing::Block(body) => {
            let next = next_stmt::<P>(stack, body)?;
            Ok(Turn::Goes(next))
        }
        Doing::Finished(end) => match stack.pop() {
            None => Ok(Turn::Over(end)),
            Some(entry) => {
                let next = resume(s, stack, tables, entry, end)?;
                Ok(Turn::Goes(next))
            }
        },
    }
}

/// A statement, from its first node to its end.
pub(crate) fn run<'s, P: Probe>(
    alloc: Global,
    s: &mut State<Objects, P>,
    tables: &'s Tables<'_>,
    stmt: &'s Stmt,
) -> Result<Outcome<Finding>, Memory>
    ensures { let watcher = watched_by P.after_began P.after_judged in IfOk result (λ end. means watcher tables.now stmt.now s.old ≡ (end, s.new)) }
{
    laws_of_frames::<P>();
    let mut stack = Vec::new(alloc);
    let mut doing = Doing::Exec(stmt);
    loop {
        match take_turn(s, &mut stack, tables, doing)? {
            Turn::Goes(next) => doing = next,
            Turn::Over(end) => return Ok(end),
        }
    }
}
