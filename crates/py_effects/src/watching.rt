// Steps, and what a probe is told (Language Reference 4.1).
ghost use Rattle.std.specs.Prelude.{◌≡◌, ◌≤◌, ◌<◌, Ok, OnOk};
ghost use Rattle.py_plain.specs.Runs.{watched_by, begins, decides, noted, told, takes};

use crate::Outcome;
use py_frames::Probe;
use py_objects::Objects;
use py_plain::{Abrupt, Judged, State};
use pyn_base::NodeId;

/// A node of the module is shown, and one of a test's own isn't.
fn note<P: Probe>(s: &mut State<Objects, P>, node: NodeId)
    ensures { s.new ≡ record s.old { seen = noted (watched_by P.after_began P.after_judged) s.old.frame.function node s.old.seen } }
{
    if let Some(_) = s.frame.function {
        s.seen.began(node);
    }
}

/// A node begins, and takes a step if one is left.
pub fn begin<P: Probe>(s: &mut State<Objects, P>, node: NodeId) -> Outcome<()>
    ensures meant { begins (watched_by P.after_began P.after_judged) node s.old ≡ (result, s.new) }
    ensures spends { s.new.left ≤ s.old.left }
    ensures takes { OnOk result (s.new.left < s.old.left) }
{
    if s.left == 0 {
        return Err(Abrupt::OutOfSteps);
    }
    s.left -= 1;
    note(s, node);
    Ok(())
}

/// A decision is told, of a node of the module.
pub fn decide<P: Probe>(s: &mut State<Objects, P>, node: NodeId, judged: &Judged, outcome: bool)
    ensures meant { decides (watched_by P.after_began P.after_judged) node judged.now outcome s.old ≡ (Ok tt, s.new) }
    ensures spends { s.new.left ≡ s.old.left }
{
    if let Some(_) = s.frame.function {
        s.seen.judged(node, judged, outcome);
    }
}

/// Takes steps, or none where fewer are left.
pub fn take<W: Drop>(s: &mut State<Objects, W>, steps: u32) -> Outcome<()>
    ensures meant { takes steps s.old ≡ (result, s.new) }
    ensures spends { s.new.left ≤ s.old.left }
{
    if steps > s.left {
        return Err(Abrupt::OutOfSteps);
    }
    s.left -= steps;
    Ok(())
}
