// When a node's marks were first set.
ghost use Rattle.std.specs.Prelude.{◌≡◌};
ghost use Rattle.timed_marks.specs.Timed.{first, begun_at, came_at, is_before, mark_before};

use py_frames::Mark;

/// When each mark of a node was first set, in events from 1; 0 is never.
#[derive(Clone, Copy, Debug, PartialEq, Eq)]
pub struct Times {
    pub began: u64,
    pub held: u64,
    pub failed: u64,
}

/// A time that stays once it is set.
fn first(time: u64, now: u64) -> u64
    ensures { result ≡ first time now }
{
    if time == 0 { now } else { time }
}

/// Whether a mark was set before a time.
fn is_before(end: u64, time: u64) -> bool
    ensures { result ≡ is_before end time }
{
    time != 0 && time < end
}

impl Times {
    /// No mark set.
    pub(crate) const NEVER: Times = Times {
        began: 0,
        held: 0,
        failed: 0,
    };

    /// The node begins now.
    pub(crate) fn begin(&mut self, now: u64)
        ensures { self.new ≡ begun_at now self.old }
    {
        self.began = first(self.began, now);
    }

    /// The node's decision has an outcome now.
    pub(crate) fn come(&mut self, outcome: bool, now: u64)
        ensures { self.new ≡ came_at outcome now self.old }
    {
        match outcome {
            true => self.held = first(self.held, now),
            false => self.failed = first(self.failed, now),
        }
    }

    /// The marks that were set before a time.
    pub(crate) fn before(&self, end: u64) -> Mark
        ensures { result ≡ mark_before end self.now }
    {
        Mark {
            began: is_before(end, self.began),
            held: is_before(end, self.held),
            failed: is_before(end, self.failed),
        }
    }
}
