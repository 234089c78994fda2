// The number of a goal by what it is about.
ghost use Rattle.std.specs.Prelude.{◌≡◌, ◌<◌, ◌^◌, None, length, IfOk, OnOk};
ghost use Rattle.goal_model.specs.declared.kind.GoalKind.{GoalKind as Kind};
ghost use Rattle.goal_graph.specs.Numbers.{found_in, found_after, first_number};

use crate::row::Row;
use goal_model::GoalKind;
use pyn_base::Memory;
use std::alloc::Global;
use std::collections::BTreeMap;

/// The numbers of entries by their functions, of branches by the nodes of their decisions, and of lines by their statements.
#[derive(Drop)]
pub(crate) struct Numbers {
    entries: BTreeMap<u32, u32>,
    held: BTreeMap<u32, u32>,
    failed: BTreeMap<u32, u32>,
    reached: BTreeMap<u32, u32>,
}

impl Numbers {
    fn new(alloc: Global) -> Numbers
        ensures { (q : Kind) → found_in result q ≡ None }
    {
        Numbers {
            entries: BTreeMap::new(alloc),
            held: BTreeMap::new(alloc),
            failed: BTreeMap::new(alloc),
            reached: BTreeMap::new(alloc),
        }
    }

    fn put(&mut self, kind: GoalKind, number: u32) -> Result<(), Memory>
        ensures { OnOk result ((q : Kind) → found_in self.new q ≡ found_after (found_in self.old) kind number q) }
    {
        match kind {
            GoalKind::Entry(f) => self.entries.insert(f.0, number)?,
            GoalKind::Branch(node, true) => self.held.insert(node.0, number)?,
            GoalKind::Branch(node, false) => self.failed.insert(node.0, number)?,
            GoalKind::Reached(node) => self.reached.insert(node.0, number)?,
        };
        Ok(())
    }

    /// The number of the first goal that is about this.
    pub(crate) fn get(&self, kind: GoalKind) -> Option<u32>
        ensures { result ≡ found_in self.now kind }
    {
        match kind {
            GoalKind::Entry(f) => self.entries.get(&f.0).copied(),
            GoalKind::Branch(node, true) => self.held.get(&node.0).copied(),
            GoalKind::Branch(node, false) => self.failed.get(&node.0).copied(),
            GoalKind::Reached(node) => self.reached.get(&node.0).copied(),
        }
    }
}

/// The numbers of goals. They are put in from the last to the first, so that the first of a kind stays.
pub(crate) fn numbers_of(alloc: Global, rows: &[Row]) -> Result<Numbers, Memory>
    requires { length rows.now < 2 ^ 32 }
    ensures { IfOk result (λ numbers. (q : Kind) → found_in numbers q ≡ first_number 0 rows.now q) }
{
    let mut numbers = Numbers::new(alloc);
    let mut at = rows.len();
    while at > 0 {
        at -= 1;
        let row = &rows[at];
        numbers.put(row.kind, at as u32)?;
    }
    Ok(numbers)
}
