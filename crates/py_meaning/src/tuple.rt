// Tuples: how deep they are, and the one way in which they are made.
ghost use Rattle.std.specs.Prelude.{◌≡◌, ◌≤◌, ℕ, map, IfOk};
ghost use Rattle.py_meaning.specs.Steps.{UnlessMemory};
ghost use Rattle.py_meaning.specs.Tuples.{depth, deepest, measured_within_limit, new_tuple};

use crate::{Measured, Op, PyTuple, Shared, Value};
use pyn_base::{Construct, Memory};
use std::alloc::Global;

/// A tuple is no deeper than this.
pub const TUPLE_LIMIT: u32 = 50;

impl Value {
    /// How deep a tuple is, and 0 of everything else.
    #[tactic(auto, using(crate::specs::Folds::views))]
    pub fn depth(&self) -> u32
        ensures { result ≡ depth self.now }
    {
        match self {
            Value::Tuple(tuple) => tuple.depth,
            _ => 0,
        }
    }
}

/// How deep the deepest of some values is.
pub fn deepest(parts: &[Value]) -> u32
    ensures { result ≡ deepest (map depth parts.now) }
{
    let mut found = 0;
    for part in parts {
        found = found.max(part.depth());
    }
    found
}

impl PyTuple {
    /// A tuple of these parts, and none where it would be too deep.
    pub fn new(alloc: Global, parts: Vec<Value>) -> Result<Option<PyTuple>, Memory>
        ensures { IfOk result (λ made. made ≡ measured_within_limit parts.items) }
    {
        let depth = deepest(parts.as_slice());
        if depth >= TUPLE_LIMIT {
            drop(parts);
            return Ok(None);
        }
        Ok(Some(Measured {
            parts: Shared::from_vec(alloc, parts)?,
            depth: depth + 1,
        }))
    }
}

/// A tuple of these parts. One that would be too deep leaves.
#[tactic(auto, unfolding(crate::specs::Tuples::tuple))]
pub fn new_tuple(alloc: Global, parts: Vec<Value>) -> Op<Value>
    ensures { UnlessMemory result ((left : ℕ) → new_tuple parts.items left ≡ (result, left)) }
{
    match PyTuple::new(alloc, parts) {
        Ok(Some(tuple)) => Op::Done(Value::Tuple(tuple)),
        Ok(None) => Op::Leaves(Construct::TupleDepth),
        Err(Memory) => Op::Memory,
    }
}
