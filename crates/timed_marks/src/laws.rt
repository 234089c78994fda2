// What the times tell of a trail.
ghost use Rattle.timed_marks.specs.Laws.{TimesTell};

/// What was set before a trail's end are the marks that the trail leaves, whatever came after it.
#[tactic(auto, using(crate::proofs::Telling::times_tell))]
pub fn law_of_times()
    ensures { TimesTell }
{}
