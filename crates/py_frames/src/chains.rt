// What goals tell of themselves: how they hang together, and what takes each.
ghost use Rattle.std.specs.Prelude.{◌≡◌, ℕ, ◌<◌, Bool, Option, IfSome};
ghost use Rattle.pyn_base.specs.declared.ids.GoalId.{GoalId};
ghost use Rattle.pyn_base.specs.declared.ids.NodeId.{NodeId};

use pyn_base::{GoalId, NodeId};

/// Goals, each with its parent and its mark.
pub trait Chains {
    ghost count_of: { Self → ℕ };

    ghost nodes_of: { Self → ℕ };

    ghost parent_of: { GoalId → Self → Option GoalId };

    ghost mark_of: { GoalId → Self → NodeId × Option Bool };

    /// How many goals there are: they are numbered from 0.
    fn count(&self) -> u32
        ensures { result ≡ count_of self.now };

    /// How many nodes the module has: they are numbered from 0.
    fn nodes(&self) -> u32
        ensures { result ≡ nodes_of self.now };

    /// The goal that is taken before it, which has a lower number.
    fn parent(&self, goal: GoalId) -> Option<GoalId>
        ensures parent { result ≡ parent_of goal self.now }
        ensures earlier { IfSome result (λ parent. parent.0 < goal.0) };

    /// What takes the goal: a node of the module that begins, or its decision, with the outcome.
    fn mark(&self, goal: GoalId) -> (NodeId, Option<bool>)
        requires { goal.0 < count_of self.now }
        ensures mark { result ≡ mark_of goal self.now }
        ensures within { result.0.0 < nodes_of self.now };
}
