// Keys of dicts: what they cost, which values are keys, and which are the same.
ghost use Rattle.std.specs.Prelude.{◌≡◌, ◌-◌, nat_le, if◌then◌else◌, map};
ghost use Rattle.std.specs.List.{sum_by};
ghost use Rattle.py_meaning.specs.Keys.{key_cost, as_key, all_keys, same_key, key_place, all_agree};
ghost use Rattle.py_objects.specs.Within.{within};

use crate::same::is_same_single;
use crate::{Object, Objects, Op, Value};
use py_meaning::done;
use pyn_base::{BuiltClass, Construct, Fuel};

/// A cost, unless it is above the limit.
fn within(cost: u64, limit: u32) -> Option<u32>
    ensures { result ≡ within cost limit }
{
    if cost <= limit as u64 {
        Some(cost as u32)
    } else {
        None
    }
}

/// What a key costs, unless that is above the limit.
#[cycle(key_cost)]
#[tactic(auto, using(py_meaning::specs::Folds::levels, py_meaning::specs::Folds::views))]
pub(crate) fn key_cost_within(key: &Value, limit: u32) -> Option<u32>
    ensures { result ≡ within (key_cost key.now) limit }
{
    match key {
        Value::Str(s) => within(s.as_slice().len() as u64 + 1, limit),
        Value::Tuple(parts) => match parts_cost_within(parts.as_slice(), limit) {
            Some(cost) => within(cost as u64 + 1, limit),
            None => None,
        },
        _ => within(1, limit),
    }
}

#[cycle(key_cost)]
fn parts_cost_within(parts: &[Value], limit: u32) -> Option<u32>
    ensures { result ≡ within (sum_by key_cost parts.now) limit }
{
    let mut cost = 0;
    for part in parts {
        match key_cost_within(part, limit - cost) {
            Some(more) => cost += more,
            None => return None,
        }
    }
    Some(cost)
}

/// Takes a key's cost, or nothing where fewer steps are left.
pub(crate) fn pay_key(key: &Value, fuel: &mut Fuel) -> bool
    ensures enough { result ≡ nat_le (key_cost key.now) fuel.old }
    ensures left { fuel.new ≡ (if nat_le (key_cost key.now) fuel.old then fuel.old - key_cost key.now else fuel.old) }
{
    match key_cost_within(key, fuel.left()) {
        Some(cost) => fuel.take(cost as u64),
        None => false,
    }
}

/// Whether two keys are the same, so True is 1.
#[cycle(same_key)]
#[tactic(auto, using(py_meaning::specs::Folds::same_keys, py_meaning::specs::Folds::views))]
pub(crate) fn is_same_key(a: &Value, b: &Value) -> bool
    ensures { result ≡ same_key a.now b.now }
{
    match a {
        Value::Tuple(xs) => match b {
            Value::Tuple(ys) => are_same_keys(xs.as_slice(), ys.as_slice()),
            _ => false,
        },
        _ => is_same_single(a, b),
    }
}

#[cycle(same_key)]
fn are_same_keys(xs: &[Value], ys: &[Value]) -> bool
    ensures { result ≡ all_agree (map same_key xs.now) ys.now }
{
    if xs.len() != ys.len() {
        return false;
    }
    for (at, x) in xs.iter().enumerate() {
        if !is_same_key(x, &ys[at]) {
            return false;
        }
    }
    true
}

/// The place of a key among the pairs.
pub(crate) fn key_place(key: &Value, pairs: &[(Value, Value)]) -> Option<usize>
    ensures { result ≡ key_place key.now pairs.now }
{
    pairs.iter().position(|pair| is_same_key(key, &pair.0))
}

impl Objects {
    /// Whether a value is a key: `Done` where it is one, and else why not.
    #[cycle(as_key)]
    #[tactic(auto, using(py_meaning::specs::Folds::as_keys, py_meaning::specs::Folds::views))]
    pub(crate) fn as_key(&self, key: &Value) -> Op<()>
        ensures { result ≡ as_key self.now key.now }
    {
        match key {
            Value::Tuple(tuple) => self.all_keys(tuple.as_slice()),
            Value::Ref(id) => match self.object(*id) {
                Some(Object::Instance(_, _, _)) => Op::Done(()),
                _ => Op::Raises(BuiltClass::TypeError),
            },
            Value::View(_) => Op::Leaves(Construct::View),
            _ => Op::Done(()),
        }
    }

    /// What the first part answers that is no key.
    #[cycle(as_key)]
    fn all_keys(&self, parts: &[Value]) -> Op<()>
        ensures { result ≡ all_keys (map (as_key self.now) parts.now) }
    {
        for part in parts {
            done!(self.as_key(part));
        }
        Op::Done(())
    }
}
