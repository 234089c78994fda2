// Dicts: looked up, written and shortened. A key's cost comes first, also where it is no key.
ghost use Rattle.std.specs.Prelude.{◌≡◌, ◌≤◌, ℕ, ◌+◌, ◌-◌, nat_le, if◌then◌else◌, length, IfOk, OnOk, OnErr};
ghost use Rattle.std.specs.Option.{option_copied};
ghost use Rattle.py_meaning.specs.Steps.{Does, DoesFree, UnlessMemory};
ghost use Rattle.py_meaning.specs.Keys.{key_cost, value_of_key};
ghost use Rattle.py_meaning.specs.Worlds.{pairs};
ghost use Rattle.py_meaning.specs.Operations.{dict_get, dict_put, dict_put_free, dict_delete, dict_delete_free};
ghost use Rattle.py_meaning.specs.DictMethods.{set_default};

use crate::keys::{key_cost_within, pay_key};
use crate::{Objects, Op, Value};
use py_meaning::{done, made};
use pyn_base::{BuiltClass, Fuel, Memory, ObjId};

impl Objects {
    /// The value of a key. A missing key raises KeyError.
    pub fn dict_get(&self, dict: ObjId, key: &Value, fuel: &mut Fuel) -> Op<Value>
        ensures meant { UnlessMemory result (dict_get dict key.now self.now fuel.old ≡ (result, fuel.new)) }
        ensures fuel { fuel.new ≤ fuel.old }
    {
        if !pay_key(key, fuel) {
            return Op::OutOfSteps;
        }
        done!(self.as_key(key));
        match self.value_of_key(dict, key) {
            Some(value) => Op::Done(made!(value.share())),
            None => Op::Raises(BuiltClass::KeyError),
        }
    }

    /// Puts a value under a key.
    pub fn dict_put(&mut self, dict: ObjId, key: Value, value: Value, fuel: &mut Fuel) -> Op<()>
        ensures { Does (dict_put dict key value) self.old fuel.old result self.new fuel.new }
    {
        if !pay_key(&key, fuel) {
            drop(key);
            drop(value);
            return Op::OutOfSteps;
        }
        match self.as_key(&key) {
            Op::Done(()) => {
                made!(self.dict_put_free(dict, key, value));
                Op::Done(())
            }
            fault => {
                drop(key);
                drop(value);
                fault
            }
        }
    }

    /// The value of a key. Under a missing one another is put, at no further cost, and given.
    pub fn dict_set_default(
        &mut self,
        dict: ObjId,
        key: &Value,
        other: &Value,
        fuel: &mut Fuel,
    ) -> Op<Value>
        ensures { Does (set_default dict key.now other.now) self.old fuel.old result self.new fuel.new }
    {
        match self.dict_get(dict, key, fuel) {
            Op::Raises(BuiltClass::KeyError) => Op::Done(made!(self.put_new(dict, key, other))),
            answer => answer,
        }
    }

    /// Removes a key's pair and gives its value, at the key's cost and a step for each pair. A missing key raises KeyError.
    pub fn dict_delete(&mut self, dict: ObjId, key: &Value, fuel: &mut Fuel) -> Op<Value>
        ensures { Does (dict_delete dict key.now) self.old fuel.old result self.new fuel.new }
    {
        if !pay_deletion(key, self.pairs(dict), fuel) {
            return Op::OutOfSteps;
        }
        done!(self.as_key(key));
        self.dict_delete_free(dict, key)
    }

    /// The value of a key, found at the time of the key's cost.
    pub(crate) fn value_of_key(&self, dict: ObjId, key: &Value) -> Option<&Value>
        ensures { option_copied result ≡ value_of_key key.now (pairs self.now dict) }
    {
        match self.held(dict) {
            Some(held) => held.value_of_key(key),
            None => None,
        }
    }

    /// Puts a value under what is a key, and gives it.
    fn put_new(&mut self, dict: ObjId, key: &Value, value: &Value) -> Result<Value, Memory>
        ensures given { IfOk result (λ given. given ≡ value.now) }
        ensures ok { OnOk result (self.new ≡ dict_put_free dict key.now value.now self.old) }
        ensures err { OnErr result (self.new ≡ self.old) }
    {
        let given = value.share()?;
        self.dict_put_free(dict, key.share()?, value.share()?)?;
        Ok(given)
    }

    /// Puts a value under what is a key.
    fn dict_put_free(&mut self, dict: ObjId, key: Value, value: Value) -> Result<(), Memory>
        ensures ok { OnOk result (self.new ≡ dict_put_free dict key value self.old) }
        ensures err { OnErr result (self.new ≡ self.old) }
    {
        let mut held = self.take_held(dict);
        let answer = held.put_pair(self.alloc, key, value);
        self.put_held(dict, held);
        answer
    }

    /// Removes the pair of what is a key.
    fn dict_delete_free(&mut self, dict: ObjId, key: &Value) -> Op<Value>
        ensures { DoesFree (dict_delete_free dict key.now) self.old result self.new }
    {
        let mut held = self.take_held(dict);
        let answer = held.delete_pair(key);
        self.put_held(dict, held);
        answer
    }
}

/// Takes what a deletion costs, or nothing where fewer steps are left.
fn pay_deletion(key: &Value, pairs: &[(Value, Value)], fuel: &mut Fuel) -> bool
    ensures enough { result ≡ nat_le (key_cost key.now + length pairs.now) fuel.old }
    ensures left { fuel.new ≡ (if nat_le (key_cost key.now + length pairs.now) fuel.old then fuel.old - (key_cost key.now + length pairs.now) else fuel.old) }
{
    match key_cost_within(key, fuel.left()) {
        Some(cost) => fuel.take(cost as u64 + pairs.len() as u64),
        None => false,
    }
}
