// Lists of goals.
ghost use Rattle.std.specs.Prelude.{◌≡◌, ℕ, ◌<◌, ◌^◌, [], ◌∷◌, ◌++◌, length, replicate, slice_get, Some, IfOk, OnOk};
ghost use Rattle.goal_graph.specs.Graph.{goal_id, children_from, child_added, parent_added};

use pyn_base::{GoalId, Memory};
use std::alloc::Global;
use std::marker::Model;

/// Goals in order, which a contract sees as their list.
#[derive(Drop)]
pub struct GoalList {
    goals: Vec<GoalId>,
}

impl Model for GoalList {
    ghost use Rattle.std.specs.Prelude.{List};
    ghost use Rattle.pyn_base.specs.declared.ids.GoalId.{GoalId};

    ghost Value = { List GoalId };

    ghost view = { λ l. l.goals.items };
}

impl GoalList {
    pub(crate) fn new(alloc: Global) -> GoalList
        ensures { result ≡ [] }
    {
        GoalList {
            goals: Vec::new(alloc),
        }
    }

    pub(crate) fn push(&mut self, goal: GoalId) -> Result<(), Memory>
        ensures ok { OnOk result (self.new ≡ self.old ++ goal ∷ []) }
    {
        self.goals.push(goal)?;
        Ok(())
    }

    pub fn as_slice(&self) -> &[GoalId]
        ensures { result.now ≡ self.now }
    {
        self.goals.as_slice()
    }
}

/// The children of each goal, where these are the parents of all of them.
#[tactic(auto, using(crate::proofs::Families::lists_none))]
pub(crate) fn children_of(
    alloc: Global,
    parents: &[Option<GoalId>],
) -> Result<Vec<GoalList>, Memory>
    requires { length parents.now < 2 ^ 32 }
    ensures { IfOk result (λ lists. (k : ℕ) → k < length parents.now → slice_get lists.items k ≡ Some (children_from (goal_id k) 0 parents.now)) }
{
    let mut lists = empty_lists(alloc, parents.len())?;
    let mut number = 0u32;
    for parent in parents {
        add_parent(&mut lists, *parent, GoalId(number))?;
        number += 1;
    }
    Ok(lists)
}

#[tactic(auto, using(crate::proofs::Families::replicate_more))]
fn empty_lists(alloc: Global, count: usize) -> Result<Vec<GoalList>, Memory>
    ensures { IfOk result (λ lists. lists.items ≡ replicate count []) }
{
    let mut lists = Vec::new(alloc);
    for _ in 0..count {
        lists.push(GoalList::new(alloc))?;
    }
    Ok(lists)
}

fn add_parent(
    lists: &mut Vec<GoalList>,
    parent: Option<GoalId>,
    child: GoalId,
) -> Result<(), Memory>
    ensures { OnOk result (lists.new.items ≡ parent_added lists.old.items parent child) }
{
    match parent {
        None => Ok(()),
        Some(parent) => add_child(lists, parent, child),
    }
}

fn add_child(lists: &mut Vec<GoalList>, parent: GoalId, child: GoalId) -> Result<(), Memory>
    ensures { OnOk result (lists.new.items ≡ child_added lists.old.items parent child) }
{
    if let Some(list) = lists.get_mut(parent.0 as usize) {
        list.push(child)?;
    }
    Ok(())
}
