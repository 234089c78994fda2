// New lists and tuples of what is walked.
ghost use Rattle.std.specs.Prelude.{◌≡◌, ◌≤◌, ℕ, ◌&&◌, true, false, not, map, nat_le, IfOk};
ghost use Rattle.py_meaning.specs.Steps.{Does, UnlessMemory};
ghost use Rattle.py_meaning.specs.Tuples.{depth, deepest, depth_over, tuple_limit, new_tuple};
ghost use Rattle.py_meaning.specs.Worlds.{object_at};
ghost use Rattle.py_meaning.specs.Walk.{walked, walked_object, walked_view, keys_of, values_of, items_of, gives_new_tuples, shallow};
ghost use Rattle.py_meaning.specs.declared.value.Value.{out-Value};
ghost use Rattle.py_meaning.specs.Builtins.{list_of, tupled};
ghost use Rattle.py_objects.specs.Within.{or_empty};

use crate::walk::gives_new_tuples;
use crate::{Object, Objects, Op, Value, View};
use py_meaning::{TUPLE_LIMIT, deepest, made, new_tuple};
use pyn_base::{BuiltClass, Construct, Fuel, Memory, ObjId};

impl Objects {
    /// A new list of what is walked, at a step for each element. A tuple that the walk makes and that is too deep leaves before
    /// anything is paid.
    pub fn list_of(&mut self, value: &Value, fuel: &mut Fuel) -> Op<Value>
        ensures { Does (list_of value.now) self.old fuel.old result self.new fuel.new }
    {
        let Some(count) = self.length(value) else {
            return Op::Raises(BuiltClass::TypeError);
        };
        if self.makes_deep_items(value) {
            return Op::Leaves(Construct::TupleDepth);
        }
        if !fuel.take(count) {
            return Op::OutOfSteps;
        }
        let items = made!(self.collected(value));
        Op::Done(Value::Ref(made!(self.new_list(items))))
    }

    /// A tuple of what is walked, at a step for each element. One that would be too deep leaves before anything is paid.
    pub fn tuple_of(&self, value: &Value, fuel: &mut Fuel) -> Op<Value>
        ensures meant { UnlessMemory result (tupled (walked self.now value.now) fuel.old ≡ (result, fuel.new)) }
        ensures fuel { fuel.new ≤ fuel.old }
    {
        let Some(count) = self.length(value) else {
            return Op::Raises(BuiltClass::TypeError);
        };
        if !self.are_parts(value) {
            return Op::Leaves(Construct::TupleDepth);
        }
        if !fuel.take(count) {
            return Op::OutOfSteps;
        }
        self.tuple_of_parts(value)
    }

    /// The tuple of what is walked, where it isn't too deep.
    fn tuple_of_parts(&self, value: &Value) -> Op<Value>
        requires { nat_le (depth_over (or_empty (walked self.now value.now))) tuple_limit ≡ true }
        ensures { UnlessMemory result ((left : ℕ) → new_tuple (or_empty (walked self.now value.now)) left ≡ (result, left)) }
    {
        let items = made!(self.collected(value));
        new_tuple(self.alloc, items)
    }

    /// What is walked, where the walk makes no tuple that is too deep.
    #[tactic(auto, using(crate::proofs::Walks::kept))]
    fn collected(&self, value: &Value) -> Result<Vec<Value>, Memory>
        requires { (gives_new_tuples (out-Value value.now) && not (shallow (or_empty (walked self.now value.now)))) ≡ false }
        ensures { IfOk result (λ items. items.items ≡ or_empty (walked self.now value.now)) }
    {
        match self.walked(value)? {
            Some(items) => Ok(items),
            None => unreachable!(),
        }
    }

    /// Whether the walk makes a tuple that is too deep.
    #[tactic(auto, using(crate::proofs::Walks::shallow_by_deepest))]
    fn makes_deep_items(&self, value: &Value) -> bool
        ensures { result ≡ gives_new_tuples (out-Value value.now) && not (shallow (or_empty (walked self.now value.now))) }
    {
        gives_new_tuples(value) && self.deepest_walked(value) > TUPLE_LIMIT as u64
    }

    /// Whether a tuple of what is walked is not too deep.
    fn are_parts(&self, value: &Value) -> bool
        ensures { result ≡ nat_le (depth_over (or_empty (walked self.now value.now))) tuple_limit }
    {
        self.deepest_walked(value) < TUPLE_LIMIT as u64
    }

    /// How deep the deepest element of what is walked is.
    #[tactic(auto, using(py_meaning::specs::Folds::views, crate::proofs::Walks::plain))]
    fn deepest_walked(&self, value: &Value) -> u64
        ensures { result ≡ deepest (map depth (or_empty (walked self.now value.now))) }
    {
        match value {
            Value::Str(_) => 0,
            Value::Tuple(tuple) => deepest(tuple.as_slice()) as u64,
            Value::Ref(id) => self.deepest_of_object(*id) as u64,
            Value::View(view) => self.deepest_of_view(*view),
            _ => 0,
        }
    }

    fn deepest_of_object(&self, id: ObjId) -> u32
        ensures { result ≡ deepest (map depth (or_empty (walked_object (object_at self.now id)))) }
    {
        match self.object(id) {
            None => 0,
            Some(Object::List(items)) => deepest(items.as_slice()),
            Some(Object::Dict(pairs, _)) => deepest_key(pairs.as_slice()),
            Some(Object::Instance(_, _, _)) => 0,
        }
    }

    #[tactic(auto, using(crate::proofs::Walks::plain))]
    fn deepest_of_view(&self, view: View) -> u64
        ensures { result ≡ deepest (map depth (walked_view self.now view)) }
    {
        match view {
            View::Range(_, _, _) => 0,
            View::Keys(dict) => deepest_key(self.pairs(dict)) as u64,
            View::Values(dict) => deepest_value(self.pairs(dict)) as u64,
            View::Items(dict) => deepest_item(self.pairs(dict)),
        }
    }
}

fn deepest_key(pairs: &[(Value, Value)]) -> u32
    ensures { result ≡ deepest (map depth (keys_of pairs.now)) }
{
    let mut found = 0;
    for pair in pairs {
        found = found.max(pair.0.depth());
    }
    found
}

fn deepest_value(pairs: &[(Value, Value)]) -> u32
    ensures { result ≡ deepest (map depth (values_of pairs.now)) }
{
    let mut found = 0;
    for pair in pairs {
        found = found.max(pair.1.depth());
    }
    found
}

/// Each pair as a tuple is one deeper than the deeper of its parts.
#[tactic(auto, using(crate::proofs::Walks::items_deepest))]
fn deepest_item(pairs: &[(Value, Value)]) -> u64
    ensures { result ≡ deepest (map depth (items_of pairs.now)) }
{
    if pairs.is_empty() {
        0
    } else {
        deepest_key(pairs).max(deepest_value(pairs)) as u64 + 1
    }
}
