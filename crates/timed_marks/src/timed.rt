// Who watches a run, and can tell what was seen before a time.
ghost use Rattle.std.specs.Prelude.{◌≡◌, List, ◌∷◌, ◌++◌, length, slice_get, IfOk};
ghost use Rattle.py_frames.specs.declared.marks.Mark.{Mark};
ghost use Rattle.py_frames.specs.Marked.{unmarked};
ghost use Rattle.pyn_base.specs.declared.ids.NodeId.{NodeId};
ghost use Rattle.py_plain.specs.declared.judged.Judged.{Judged};
ghost use Rattle.timed_marks.specs.Timed.{untouched, after_event, begun_at, came_at, marks_before};

use crate::times::Times;
use py_frames::{Mark, Marks, Probe};
use py_plain::Judged;
use pyn_base::{Memory, NodeId};
use std::alloc::Global;
use std::marker::Model;

/// A probe that keeps for each node when it first began, and when its decision first had each outcome.
#[derive(Debug, Drop)]
pub struct TimedMarks {
    times: Vec<Times>,
    clock: u64,
}

impl Model for TimedMarks {
    ghost use Rattle.timed_marks.specs.Timed.{Timed};

    ghost Value = { Timed };

    ghost view = { λ t. record { times = t.times.items; clock = t.clock } };
}

impl TimedMarks {
    /// Marks for so many nodes, of which none was seen. All room is reserved here.
    pub fn new(alloc: Global, nodes: u32) -> Result<TimedMarks, Memory>
        ensures { IfOk result (λ marks. marks ≡ untouched nodes) }
    {
        Ok(TimedMarks {
            times: Vec::from_elem(alloc, Times::NEVER, nodes as usize)?,
            clock: 1,
        })
    }

    /// The time of the next event. Two readings with no event between them are the same.
    pub fn clock(&self) -> u64
        ensures { result ≡ self.now.clock }
    {
        self.clock
    }

    /// The marks that were set before a time.
    #[tactic(auto, using(crate::proofs::Setting::none_set, crate::proofs::Setting::one_more, crate::proofs::Setting::all_set))]
    pub fn before(&self, alloc: Global, end: u64) -> Result<Marks, Memory>
        ensures { IfOk result (λ marks. marks ≡ marks_before end self.now.times) }
    {
        let nodes = u32::try_from(self.times.len()).map_err(|_| Memory)?;
        let mut marks = Marks::new(alloc, nodes)?;
        let mut node = 0u32;
        for times in &self.times {
            set_marks(&mut marks, NodeId(node), times.before(end));
            node += 1;
        }
        Ok(marks)
    }
}

/// Sets the marks of a node, of which none is set yet.
fn set_marks(marks: &mut Marks, node: NodeId, mark: Mark)
    ensures { (front rest : List Mark) → node.0 ≡ length front → marks.old ≡ front ++ unmarked ∷ rest → marks.new ≡ front ++ mark ∷ rest }
{
    if mark.began {
        marks.began(node);
    }
    if mark.held {
        marks.judged(node, &Judged::Plain(true), true);
    }
    if mark.failed {
        marks.judged(node, &Judged::Plain(false), false);
    }
}

impl Probe for TimedMarks {
    ghost after_began = { λ node t. after_event begun_at node t };

    ghost after_judged = { λ node judged outcome t. after_event (came_at outcome) node t };

    fn began(&mut self, node: NodeId) {
        let now = self.clock;
        if let Some(times) = self.times.get_mut(node.0 as usize) {
            times.begin(now);
        }
        self.clock = now.saturating_add(1);
    }

    fn judged(&mut self, node: NodeId, _judged: &Judged, outcome: bool) {
        let now = self.clock;
        if let Some(times) = self.times.get_mut(node.0 as usize) {
            times.come(outcome, now);
        }
        self.clock = now.saturating_add(1);
    }
}
