// From the answers of operations to ends of runs.
ghost use Rattle.std.specs.Prelude.{◌≡◌, ℕ, Ok, IfOk};
ghost use Rattle.py_meaning.specs.declared.value.Value.TheVariants.{Ref};
ghost use Rattle.py_meaning.specs.Steps.{Change, changes, UnlessMemory};
ghost use Rattle.py_meaning.specs.Worlds.{World};
ghost use Rattle.py_plain.specs.Runs.{go_on, gives, tests, passes, performs};
ghost use Rattle.py_effects.specs.Answers.{Answers};

use crate::raise;
use py_meaning::{Op, Value};
use py_objects::Objects;
use py_plain::{Abrupt, Judged, State};
use pyn_base::{Memory, ObjId};

/// What an expression gives: its value, and how it was judged. A statement gives None.
pub type Finding = (Value, Judged);

/// How something ends: with what it gives, or abruptly.
pub type Outcome<T> = Result<T, Abrupt>;

/// Whether a value counts as true (Language Reference 6.11).
pub fn is_true<W: Drop>(s: &State<Objects, W>, x: &Value) -> bool
    ensures { tests x.now s.now ≡ (Ok result, s.now) }
{
    s.objects.truth(x)
}

/// A value that is judged by its truth alone.
pub fn give<W: Drop>(s: &State<Objects, W>, x: Value) -> Finding
    ensures { gives x s.now ≡ (Ok result, s.now) }
{
    let holds = s.objects.truth(&x);
    (x, Judged::Plain(holds))
}

/// How an operation ends a run whose state has the objects and the steps that it left. What it raises is a new object.
pub(crate) fn settle<W: Drop, T: Drop>(
    s: &mut State<Objects, W>,
    answer: Op<T>,
) -> Result<Outcome<T>, Memory>
    ensures meant { IfOk result (λ end. Answers answer s.old (end, s.new)) }
    ensures spends { s.new.left ≡ s.old.left }
{
    match answer {
        Op::Done(x) => Ok(Ok(x)),
        Op::Raises(class) => raise(s, class),
        Op::Leaves(construct) => Ok(Err(Abrupt::Left(construct))),
        Op::OutOfSteps => Ok(Err(Abrupt::OutOfSteps)),
        Op::Memory => Err(Memory),
    }
}

/// The same, said of the change that the operation makes, from the objects and the steps before it.
pub fn settle_change<W: Drop, T: Drop>(
    s: &mut State<Objects, W>,
    answer: Op<T>,
) -> Result<Outcome<T>, Memory>
    ensures meant { IfOk result (λ end. (change : Change World T) (before : World) (had : ℕ) → UnlessMemory answer (changes change before had ≡ (answer, s.old.objects, s.old.left)) → performs change (record s.old { objects = before; left = had }) ≡ (end, s.new)) }
    ensures spends { s.new.left ≡ s.old.left }
{
    let end = settle(s, answer)?;
    Ok(end)
}

/// A value that an operation has made is judged by its truth.
pub fn given<W: Drop>(s: &State<Objects, W>, end: Outcome<Value>) -> Outcome<Finding>
    ensures { go_on end s.now gives ≡ (result, s.now) }
{
    match end {
        Ok(x) => Ok(give(s, x)),
        Err(why) => Err(why),
    }
}

/// A reference to an object that was made.
pub(crate) fn referred<W: Drop>(s: &State<Objects, W>, end: Outcome<ObjId>) -> Outcome<Finding>
    ensures { go_on end s.now (λ id. gives (Ref id)) ≡ (result, s.now) }
{
    match end {
        Ok(id) => Ok(give(s, Value::Ref(id))),
        Err(why) => Err(why),
    }
}

/// What is done gives nothing.
pub(crate) fn passed<W: Drop>(s: &State<Objects, W>, end: Outcome<()>) -> Outcome<Finding>
    ensures { go_on end s.now (λ _. passes) ≡ (result, s.now) }
{
    match end {
        Ok(()) => Ok((Value::None, Judged::Plain(false))),
        Err(why) => Err(why),
    }
}
