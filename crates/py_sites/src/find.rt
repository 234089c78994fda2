// Finding nodes by their numbers.
ghost use Rattle.std.specs.Prelude.{◌≡◌, map, None, Some, IfOk};
ghost use Rattle.py_sites.specs.Nodes.{nodes, number, nodes_of, with_number, sites, Ascend, AreConsecutive};
ghost use Rattle.py_sites.specs.Refs.{seen, seen_option};
ghost use Rattle.py_sites.specs.Walks.{last_from};

use crate::last_part::{Parted, part_of};
use crate::node_ref::{NodeRef, number_of};
use py_syntax::{Func, Module};
use pyn_base::{Ids, Memory, NodeId};
use std::alloc::Global;

/// The node that has a number: itself, or one in it. Where the numbers ascend it is in the last part whose own number is not above it.
fn node_below<'a>(top: NodeRef<'a>, number: u32) -> Option<NodeRef<'a>>
    ensures { Ascend (nodes (seen top.entry)) → seen_option result ≡ with_number number (nodes (seen top.entry)) }
{
    let mut here = top;
    while number_of(here) != number {
        match part_of(here, Some(number)) {
            None => return None,
            Some(part) => here = part,
        }
    }
    Some(here)
}

/// The node of a module that has a number; none, exactly where no node has it. It takes no memory, and passes the nodes above it and
/// those before them in the same node.
pub fn node_at(tree: &Module, node: NodeId) -> Option<NodeRef<'_>>
    ensures { Ascend (nodes_of tree.now) → seen_option result ≡ with_number node.0 (nodes_of tree.now) }
{
    match tree.items.last_part(Some(node.0), None) {
        None => None,
        Some(top) => node_below(top, node.0),
    }
}

/// The last of a node and those in it.
fn last_below<'a>(top: NodeRef<'a>) -> NodeRef<'a>
    ensures { last_from None None (nodes (seen top.entry)) ≡ Some (seen result) }
{
    let mut here = top;
    while let Some(part) = part_of(here, None) {
        here = part;
    }
    here
}

/// The numbers of the nodes of a function's body, in ascending order, if they follow one another, as in a module whose nodes are
/// numbered.
///
/// # Errors
///
/// `Memory` when memory runs out.
pub fn sites_in(alloc: Global, func: &Func) -> Result<Ids, Memory>
    ensures { AreConsecutive func.now → IfOk result (λ ids. ids ≡ map number (sites func.now)) }
{
    let last = number_of(last_below(NodeRef::Func(func)));
    let mut next = func.node.0;
    let mut ids = Ids::new(alloc);
    while next < last {
        next += 1;
        ids.push(next)?;
    }
    Ok(ids)
}
