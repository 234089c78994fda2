// What is walked: the items of lists and tuples, the characters of strings, dicts and views.
ghost use Rattle.std.specs.Prelude.{◌≡◌, ◌≤◌, ◌∷◌, [], true, length, IfOk};
ghost use Rattle.std.specs.Option.{option_map};
ghost use Rattle.py_meaning.specs.Steps.{UnlessMemory};
ghost use Rattle.py_meaning.specs.Tuples.{measured_within_limit};
ghost use Rattle.py_meaning.specs.Walk.{walk, walked, walked_view, keys_of, values_of, items_of, characters_of, gives_new_tuples};
ghost use Rattle.py_meaning.specs.declared.value.Value.{out-Value};
ghost use Rattle.py_objects.specs.Within.{or_empty, unless_deep};

use crate::lists::shared_all;
use crate::ranges::{counted, range_length};
use crate::{Object, Objects, Op, PyStr, PyTuple, Sequence, Value, View};
use py_meaning::made;
use pyn_base::{BuiltClass, Construct, Fuel, Memory};
use std::alloc::Global;

impl Objects {
    /// The elements of what is walked, at a step for each. One that would be too deep a tuple leaves.
    pub fn walk(&self, value: &Value, fuel: &mut Fuel) -> Op<Sequence<Value>>
        ensures meant { UnlessMemory result (walk self.now value.now fuel.old ≡ (result, fuel.new)) }
        ensures fuel { fuel.new ≤ fuel.old }
    {
        let Some(count) = self.length(value) else {
            return Op::Raises(BuiltClass::TypeError);
        };
        if !fuel.take(count) {
            return Op::OutOfSteps;
        }
        match made!(self.walked(value)) {
            Some(items) => Op::Done(Sequence::from_vec(items)),
            None => Op::Leaves(Construct::TupleDepth),
        }
    }

    /// How many elements are walked, where a value is walked at all. What is walked is what has a length.
    #[tactic(auto, using(py_meaning::specs::Folds::views))]
    pub fn length(&self, value: &Value) -> Option<u64>
        ensures { result ≡ option_map length (walked self.now value.now) }
    {
        match value {
            Value::Str(s) => Some(s.as_slice().len() as u64),
            Value::Tuple(parts) => Some(parts.as_slice().len() as u64),
            Value::Ref(id) => match self.object(*id) {
                None => Some(0),
                Some(Object::List(items)) => Some(items.len() as u64),
                Some(Object::Dict(pairs, _)) => Some(pairs.len() as u64),
                Some(Object::Instance(_, _, _)) => None,
            },
            Value::View(view) => Some(self.view_length(*view)),
            _ => None,
        }
    }

    #[tactic(auto, using(crate::proofs::Counting::lengths))]
    fn view_length(&self, view: View) -> u64
        ensures { result ≡ length (walked_view self.now view) }
    {
        match view {
            View::Range(start, stop, step) => range_length(start, stop, step),
            View::Keys(dict) => self.pairs(dict).len() as u64,
            View::Values(dict) => self.pairs(dict).len() as u64,
            View::Items(dict) => self.pairs(dict).len() as u64,
        }
    }

    /// The elements, of which there are none where a value isn't walked. `None` where one that the walk makes is too deep a tuple.
    #[tactic(auto, using(py_meaning::specs::Folds::views))]
    pub(crate) fn walked(&self, value: &Value) -> Result<Option<Vec<Value>>, Memory>
        ensures { IfOk result (λ items. option_map (λ v. v.items) items ≡ unless_deep (gives_new_tuples (out-Value value.now)) (or_empty (walked self.now value.now))) }
    {
        Ok(match value {
            Value::Str(s) => Some(characters_of(self.alloc, s.as_slice())?),
            Value::Tuple(tuple) => Some(shared_all(self.alloc, tuple.as_slice())?),
            Value::Ref(id) => match self.object(*id) {
                None => Some(Vec::new(self.alloc)),
                Some(Object::List(items)) => Some(shared_all(self.alloc, items.as_slice())?),
                Some(Object::Dict(pairs, _)) => Some(keys_of(self.alloc, pairs.as_slice())?),
                Some(Object::Instance(_, _, _)) => Some(Vec::new(self.alloc)),
            },
            Value::View(view) => self.walked_view(*view)?,
            _ => Some(Vec::new(self.alloc)),
        })
    }

    #[tactic(auto, using(py_meaning::specs::Folds::views))]
    fn walked_view(&self, view: View) -> Result<Option<Vec<Value>>, Memory>
        ensures { IfOk result (λ items. option_map (λ v. v.items) items ≡ unless_deep (gives_new_tuples (out-Value (Value.View view))) (walked_view self.now view)) }
    {
        Ok(match view {
            View::Range(start, stop, step) => Some(counted(self.alloc, start, stop, step)?),
            View::Keys(dict) => Some(keys_of(self.alloc, self.pairs(dict))?),
            View::Values(dict) => Some(values_of(self.alloc, self.pairs(dict))?),
            View::Items(dict) => items_of(self.alloc, self.pairs(dict))?,
        })
    }
}

/// Whether the elements are tuples that the walk itself makes.
#[tactic(auto, using(py_meaning::specs::Folds::views))]
pub(crate) fn gives_new_tuples(value: &Value) -> bool
    ensures { result ≡ gives_new_tuples (out-Value value.now) }
{
    match value {
        Value::View(view) => matches!(view, View::Items(_)),
        _ => false,
    }
}

/// Each character as a string of its own.
fn characters_of(alloc: Global, s: &[char]) -> Result<Vec<Value>, Memory>
    ensures { IfOk result (λ items. items.items ≡ characters_of s.now) }
{
    let mut items = Vec::new(alloc);
    for c in s {
        let character = Vec::from_slice(alloc, &[*c])?;
        items.push(Value::Str(PyStr::from_vec(alloc, character)?))?;
    }
    Ok(items)
}

fn keys_of(alloc: Global, pairs: &[(Value, Value)]) -> Result<Vec<Value>, Memory>
    ensures { IfOk result (λ items. items.items ≡ keys_of pairs.now) }
{
    let mut items = Vec::new(alloc);
    for pair in pairs {
        items.push(pair.0.share()?)?;
    }
    Ok(items)
}

fn values_of(alloc: Global, pairs: &[(Value, Value)]) -> Result<Vec<Value>, Memory>
    ensures { IfOk result (λ items. items.items ≡ values_of pairs.now) }
{
    let mut items = Vec::new(alloc);
    for pair in pairs {
        items.push(pair.1.share()?)?;
    }
    Ok(items)
}

/// Each pair as a tuple, unless one is too deep.
fn items_of(alloc: Global, pairs: &[(Value, Value)]) -> Result<Option<Vec<Value>>, Memory>
    ensures { IfOk result (λ items. option_map (λ v. v.items) items ≡ unless_deep true (items_of pairs.now)) }
{
    let mut items = Vec::new(alloc);
    for pair in pairs {
        match pair_of(alloc, &pair.0, &pair.1)? {
            Some(tuple) => items.push(Value::Tuple(tuple))?,
            None => return Ok(None),
        }
    }
    Ok(Some(items))
}

fn pair_of(alloc: Global, key: &Value, value: &Value) -> Result<Option<PyTuple>, Memory>
    ensures { IfOk result (λ pair. pair ≡ measured_within_limit (key.now ∷ value.now ∷ [])) }
{
    let mut parts = Vec::new(alloc);
    parts.push(key.share()?)?;
    parts.push(value.share()?)?;
    PyTuple::new(alloc, parts)
}
