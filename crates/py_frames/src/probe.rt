// Who watches a run.
ghost use Rattle.std.specs.Prelude.{◌≡◌, Bool};
ghost use Rattle.pyn_base.specs.declared.ids.NodeId.{NodeId};
ghost use Rattle.py_plain.specs.declared.judged.Judged.{Judged};

use py_plain::Judged;
use pyn_base::NodeId;

/// Who watches a run. Nothing that it keeps reaches the run.
pub trait Probe: Drop {
    ghost after_began: { NodeId → Self → Self };

    ghost after_judged: { NodeId → Judged → Bool → Self → Self };

    /// A node of the module begins.
    fn began(&mut self, node: NodeId)
        ensures { self.new ≡ after_began node self.old };

    /// The decision of a node came out so, by these values.
    fn judged(&mut self, node: NodeId, judged: &Judged, outcome: bool)
        ensures { self.new ≡ after_judged node judged.now outcome self.old };
}

/// A probe that keeps nothing.
#[derive(Debug, Drop)]
pub struct NoProbe;

impl Probe for NoProbe {
    ghost after_began = { λ node kept. kept };

    ghost after_judged = { λ node judged outcome kept. kept };

    fn began(&mut self, _node: NodeId) {}

    fn judged(&mut self, _node: NodeId, _judged: &Judged, _outcome: bool) {}
}
