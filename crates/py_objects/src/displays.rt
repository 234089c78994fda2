// A new dict from pairs, or from another's.
ghost use Rattle.std.specs.Prelude.{◌≡◌, ◌≤◌, ◌-◌, nat_le, if◌then◌else◌, [], map, IfOk, OnErr};
ghost use Rattle.std.specs.List.{sum_by};
ghost use Rattle.py_meaning.specs.Steps.{Does};
ghost use Rattle.py_meaning.specs.Keys.{key_cost, as_key, all_keys};
ghost use Rattle.py_meaning.specs.Worlds.{pairs};
ghost use Rattle.py_meaning.specs.Operations.{made, put_all, make_dict, dict_copy};
ghost use Rattle.py_objects.specs.Within.{within};

use crate::fork::shared_pairs;
use crate::held::Held;
use crate::keys::key_cost_within;
use crate::{Object, Objects, Op, Sequence, Value};
use py_meaning::{done, made};
use pyn_base::{Fuel, Memory, ObjId};
use std::alloc::Global;

impl Objects {
    /// A new dict. All keys are paid for at once; then the first that is none raises or leaves; then the pairs are
    /// put in order.
    pub fn make_dict(&mut self, pairs: &[(Value, Value)], fuel: &mut Fuel) -> Op<ObjId>
        ensures { Does (make_dict pairs.now) self.old fuel.old result self.new fuel.new }
    {
        if !pay_keys(pairs, fuel) {
            return Op::OutOfSteps;
        }
        done!(self.are_keys(pairs));
        Op::Done(made!(self.add_dict(pairs)))
    }

    /// A new dict with another's pairs, at a step for each.
    pub fn dict_copy(&mut self, dict: ObjId, fuel: &mut Fuel) -> Op<ObjId>
        ensures { Does (dict_copy dict) self.old fuel.old result self.new fuel.new }
    {
        let count = self.pairs(dict).len() as u64;
        if !fuel.take(count) {
            return Op::OutOfSteps;
        }
        Op::Done(made!(self.add_copy(dict, count)))
    }

    /// A new dict with another's pairs and this number of key changes.
    fn add_copy(&mut self, dict: ObjId, changes: u64) -> Result<ObjId, Memory>
        ensures ok { IfOk result (λ id. made (Object.Dict (pairs self.old dict) changes) self.old ≡ (id, self.new)) }
        ensures err { OnErr result (self.new ≡ self.old) }
    {
        let pairs = Sequence::from_vec(shared_pairs(self.alloc, self.pairs(dict))?);
        let copy = Object::Dict(pairs, changes);
        let held = match self.held(dict) {
            Some(held) => Held::with_hashes_of(self.alloc, copy, held),
            None => Held::new(copy),
        };
        self.make_held(held)
    }

    fn add_dict(&mut self, pairs: &[(Value, Value)]) -> Result<ObjId, Memory>
        ensures ok { IfOk result (λ id. made (put_all pairs.now (Object.Dict [] 0)) self.old ≡ (id, self.new)) }
        ensures err { OnErr result (self.new ≡ self.old) }
    {
        let dict = dict_of(self.alloc, pairs)?;
        self.make_held(dict)
    }

    /// What the first key answers that is none.
    fn are_keys(&self, pairs: &[(Value, Value)]) -> Op<()>
        ensures { result ≡ all_keys (map (λ pair. as_key self.now pair.0) pairs.now) }
    {
        for pair in pairs {
            done!(self.as_key(&pair.0));
        }
        Op::Done(())
    }
}

fn dict_of(alloc: Global, pairs: &[(Value, Value)]) -> Result<Held, Memory>
    ensures { IfOk result (λ dict. dict ≡ put_all pairs.now (Object.Dict [] 0)) }
{
    let mut dict = Held::new(Object::Dict(Sequence::new(alloc), 0));
    for pair in pairs {
        dict.put_pair(alloc, pair.0.share()?, pair.1.share()?)?;
    }
    Ok(dict)
}

/// What all keys cost, unless that is above the limit.
fn keys_cost_within(pairs: &[(Value, Value)], limit: u32) -> Option<u32>
    ensures { result ≡ within (sum_by (λ pair. key_cost pair.0) pairs.now) limit }
{
    let mut cost = 0;
    for pair in pairs {
        match key_cost_within(&pair.0, limit - cost) {
            Some(more) => cost += more,
            None => return None,
        }
    }
    Some(cost)
}

/// Takes what all keys cost, or nothing where fewer steps are left.
fn pay_keys(pairs: &[(Value, Value)], fuel: &mut Fuel) -> bool
    ensures enough { result ≡ nat_le (sum_by (λ pair. key_cost pair.0) pairs.now) fuel.old }
    ensures left { fuel.new ≡ (if nat_le (sum_by (λ pair. key_cost pair.0) pairs.now) fuel.old then fuel.old - sum_by (λ pair. key_cost pair.0) pairs.now else fuel.old) }
{
    match keys_cost_within(pairs, fuel.left()) {
        Some(cost) => fuel.take(cost as u64),
        None => false,
    }
}
