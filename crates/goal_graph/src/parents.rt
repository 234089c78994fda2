// Parents by numbers.
ghost use Rattle.std.specs.Prelude.{◌≡◌, ℕ, ◌<◌, ◌^◌, ◌==◌, if◌then◌else◌, [], ◌∷◌, ◌++◌, length, reverse, slice_get, IfOk, OnOk};
ghost use Rattle.std.specs.Ordering.{nat_cmp};
ghost use Rattle.std.specs.List.{list_any};
ghost use Rattle.std.specs.BTreeSet as tree;
ghost use Rattle.goal_model.specs.declared.kind.GoalKind.{GoalKind as Kind};
ghost use Rattle.goal_graph.specs.Graph.{parent_ids, or_no_parent};
ghost use Rattle.goal_graph.specs.Targets.{is_ready_by, is_target_by, targets_by};
ghost use Rattle.goal_graph.specs.Numbers.{found_in, first_number, governor_id};

use crate::numbers::Numbers;
use crate::row::Row;
use pyn_base::{GoalId, Ids, Memory};
use std::alloc::Global;
use std::collections::BTreeSet;

/// The parent of each goal, found by what its governor is.
pub(crate) fn parents_of(
    alloc: Global,
    rows: &[Row],
    numbers: &Numbers,
    count: u32,
) -> Result<Vec<Option<GoalId>>, Memory>
    requires count { count ≡ length rows.now }
    requires numbers { (q : Kind) → found_in numbers.now q ≡ first_number 0 rows.now q }
    ensures { IfOk result (λ parents. parents.items ≡ parent_ids rows.now) }
{
    let mut parents = Vec::new(alloc);
    for row in rows {
        parents.push(parent_of(row, numbers, count))?;
    }
    Ok(parents)
}

fn parent_of(row: &Row, numbers: &Numbers, count: u32) -> Option<GoalId>
    ensures { result ≡ governor_id count numbers.now row.now.parent }
{
    match row.governor {
        None => None,
        Some(governor) => Some(GoalId(numbers.get(governor).unwrap_or(count))),
    }
}

/// The parent of a goal; none where there is no such goal.
pub(crate) fn parent_in(parents: &[Option<GoalId>], goal: GoalId) -> Option<GoalId>
    ensures { result ≡ or_no_parent (slice_get parents.now goal.0) }
{
    match parents.get(goal.0 as usize) {
        Some(parent) => *parent,
        None => None,
    }
}

pub(crate) fn reversed(alloc: Global, up: &[u32]) -> Result<Ids, Memory>
    ensures { IfOk result (λ ids. ids ≡ reverse up.now) }
{
    let mut ids = Ids::new(alloc);
    let mut at = up.len();
    while at > 0 {
        at -= 1;
        ids.push(up[at])?;
    }
    Ok(ids)
}

fn numbers_in(alloc: Global, covered: &[u32]) -> Result<BTreeSet<u32>, Memory>
    ensures { IfOk result (λ set. (q : ℕ) → tree.contains nat_cmp set q ≡ list_any (λ c. c == q) covered.now) }
{
    let mut set = BTreeSet::new(alloc);
    for number in covered {
        set.insert(*number)?;
    }
    Ok(set)
}

/// The goals that aren't covered, and whose parent is.
pub(crate) fn targets_of(
    alloc: Global,
    parents: &[Option<GoalId>],
    covered: &[u32],
) -> Result<Ids, Memory>
    requires { length parents.now < 2 ^ 32 }
    ensures { IfOk result (λ ids. ids ≡ targets_by covered.now 0 parents.now) }
{
    let set = numbers_in(alloc, covered)?;
    let mut ids = Ids::new(alloc);
    let mut number = 0u32;
    for parent in parents {
        add_target(&mut ids, &set, number, *parent)?;
        number += 1;
    }
    Ok(ids)
}

fn add_target(
    ids: &mut Ids,
    covered: &BTreeSet<u32>,
    number: u32,
    parent: Option<GoalId>,
) -> Result<(), Memory>
    ensures { OnOk result (ids.new ≡ ids.old ++ (if is_target_by (λ q. tree.contains nat_cmp covered.now q) number parent then number ∷ [] else [])) }
{
    if is_target(covered, number, parent) {
        ids.push(number)?;
    }
    Ok(())
}

fn is_target(covered: &BTreeSet<u32>, number: u32, parent: Option<GoalId>) -> bool
    ensures { result ≡ is_target_by (λ q. tree.contains nat_cmp covered.now q) number parent }
{
    !covered.contains(&number) && is_ready(covered, parent)
}

fn is_ready(covered: &BTreeSet<u32>, parent: Option<GoalId>) -> bool
    ensures { result ≡ is_ready_by (λ q. tree.contains nat_cmp covered.now q) parent }
{
    match parent {
        None => true,
        Some(parent) => covered.contains(&parent.0),
    }
}
