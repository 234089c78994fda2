// Goals, by their numbers.
ghost use Rattle.std.specs.Prelude.{◌≡◌, ℕ, ◌+◌, ◌<◌, ◌^◌, [], ◌∷◌, ◌++◌, length, reverse, slice_get, Some, IfOk};
ghost use Rattle.std.specs.Option.{option_map};
ghost use Rattle.goal_model.specs.Goals.{goals_of};
ghost use Rattle.goal_model.specs.Parents.{chain, targets};
ghost use Rattle.goal_graph.specs.Graph.{parent_id, children_of, mark_at, nodes_of, is_marked};

use crate::build::{number_of, rows_of};
use crate::children::{GoalList, children_of};
use crate::numbers::numbers_of;
use crate::parents::{parent_in, parents_of, reversed, targets_of};
use crate::row::{Row, is_marked, mark_at, node_bound};
use goal_model::GoalKind;
use py_frames::{Chains, Marks};
use py_syntax::{Line, Module};
use pyn_base::{GoalId, Ids, Memory, NodeId};
use std::alloc::Global;
use std::marker::Model;

/// The goals of a module, which a contract sees as their list.
#[derive(Drop)]
pub struct Goals {
    rows: Vec<Row>,
    parents: Vec<Option<GoalId>>,
    children: Vec<GoalList>,
    nodes: u32,
}

impl Model for Goals {
    ghost use Rattle.std.specs.Prelude.{List};
    ghost use Rattle.goal_model.specs.Goals.{Goal};
    ghost use Rattle.goal_graph.specs.Graph.{IsGraph};

    ghost Value = { List Goal };

    ghost view = { λ g. g.rows.items };

    ghost invariant = { λ g. IsGraph g.rows.items g.parents.items g.children.items g.nodes };
}

impl Goals {
    /// The goals of a module.
    pub fn of(alloc: Global, tree: &Module) -> Result<Goals, Memory>
        ensures { IfOk result (λ goals. goals ≡ goals_of tree.now) }
    {
        let rows = rows_of(alloc, tree)?;
        let count = number_of(rows.len() as u64)?;
        let numbers = numbers_of(alloc, rows.as_slice())?;
        let parents = parents_of(alloc, rows.as_slice(), &numbers, count)?;
        let children = children_of(alloc, parents.as_slice())?;
        let nodes = number_of(node_bound(rows.as_slice()))?;
        Ok(Goals {
            rows,
            parents,
            children,
            nodes,
        })
    }

    /// What a goal is about.
    pub fn kind(&self, goal: GoalId) -> GoalKind
        requires { goal.0 < length self.now }
        ensures { option_map (λ g. g.kind) (slice_get self.now goal.0) ≡ Some result }
    {
        let row = &self.rows[goal.0 as usize];
        row.kind
    }

    /// The line of a goal.
    pub fn line(&self, goal: GoalId) -> Line
        requires { goal.0 < length self.now }
        ensures { option_map (λ g. g.line) (slice_get self.now goal.0) ≡ Some result }
    {
        let row = &self.rows[goal.0 as usize];
        row.line
    }

    /// The goals whose parent this is, in order.
    pub fn children(&self, goal: GoalId) -> &[GoalId]
        requires { goal.0 < length self.now }
        ensures { result.now ≡ children_of self.now goal }
    {
        match self.children.get(goal.0 as usize) {
            Some(list) => list.as_slice(),
            None => unreachable!(),
        }
    }

    /// The goals from the root, which is an entry, to a goal.
    pub fn chain(&self, alloc: Global, goal: GoalId) -> Result<Ids, Memory>
        ensures { IfOk result (λ ids. ids ≡ chain self.now goal.0) }
    {
        let up = self.up_from(alloc, goal)?;
        reversed(alloc, up.as_slice())
    }

    fn up_from(&self, alloc: Global, goal: GoalId) -> Result<Vec<u32>, Memory>
        ensures { IfOk result (λ up. reverse up.items ≡ chain self.now goal.0) }
    {
        let mut up = Vec::new(alloc);
        let mut next = Some(goal);
        while let Some(number) = next {
            up.push(number.0)?;
            next = parent_in(self.parents.as_slice(), number);
        }
        Ok(up)
    }

    /// The goals that aren't covered, and whose parent is.
    pub fn targets(&self, alloc: Global, covered: &Ids) -> Result<Ids, Memory>
        ensures { IfOk result (λ ids. ids ≡ targets self.now covered.now) }
    {
        targets_of(alloc, self.parents.as_slice(), covered.as_slice())
    }

    /// Whether a run that left these marks takes a goal. A line is taken by each statement on it.
    pub fn taken(&self, goal: GoalId, marks: &Marks) -> bool
        requires { goal.0 < length self.now }
        ensures { option_map (is_marked marks.now) (slice_get self.now goal.0) ≡ Some result }
    {
        is_marked(&self.rows[goal.0 as usize], marks)
    }
}

impl Chains for Goals {
    ghost count_of = { λ goals. length goals };

    ghost nodes_of = { nodes_of };

    ghost parent_of = { parent_id };

    ghost mark_of = { mark_at };

    fn count(&self) -> u32 {
        self.rows.len() as u32
    }

    fn nodes(&self) -> u32 {
        let _ = &self.rows;
        self.nodes
    }

    fn parent(&self, goal: GoalId) -> Option<GoalId> {
        parent_in(self.parents.as_slice(), goal)
    }

    fn mark(&self, goal: GoalId) -> (NodeId, Option<bool>) {
        mark_at(self.rows.as_slice(), goal)
    }
}
