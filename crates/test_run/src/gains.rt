// The goals that marks take.
ghost use Rattle.std.specs.Prelude.{◌≡◌, IfOk};
ghost use Rattle.test_run.specs.Gains.{marked_from};

use goal_graph::Goals;
use py_frames::{Chains, Marks};
use pyn_base::{GoalId, Ids, Memory};
use std::alloc::Global;

/// The goals that a run with these marks takes, in ascending order.
pub(crate) fn gains_of(alloc: Global, goals: &Goals, marks: &Marks) -> Result<Ids, Memory>
    ensures { IfOk result (λ gains. gains ≡ marked_from 0 marks.now goals.now) }
{
    let mut gains = Ids::new(alloc);
    for number in 0..goals.count() {
        if goals.taken(GoalId(number), marks) {
            gains.push(number)?;
        }
    }
    Ok(gains)
}
