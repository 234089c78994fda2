// What the timed marks of a run tell of its trail.
ghost use Rattle.test_run.specs.Laws.{TimedAsKept, MarksGive};

use crate::recorded::Recorded;
use goal_graph::laws_of_marks;
use py_plain::laws_of_meaning;
use timed_marks::{TimedMarks, law_of_times};

/// A timed run tells what a recorded one keeps.
#[tactic(auto, using(crate::proofs::Told::timed_as_kept))]
pub(crate) fn law_of_runs()
    ensures { TimedAsKept }
{
    laws_of_meaning::<Recorded, TimedMarks>();
    laws_of_meaning::<Recorded, Recorded>();
    law_of_times();
}

/// Marks that a trail leaves give the goals that the trail takes.
#[tactic(auto, using(crate::proofs::Given::marks_give))]
pub(crate) fn law_of_gains()
    ensures { MarksGive }
{
    laws_of_marks();
}
