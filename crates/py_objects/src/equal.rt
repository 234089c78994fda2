// Equality. The recursion is as deep as the comparison limit at most, whatever refers to what.
ghost use Rattle.std.specs.Prelude.{◌≡◌, ◌≤◌, ◌+◌, ◌-◌, nat_le, if◌then◌else◌};
ghost use Rattle.py_meaning.specs.Keys.{key_cost};
ghost use Rattle.py_meaning.specs.Worlds.{pairs};
ghost use Rattle.py_meaning.specs.Equal.{equal, equal_within, parts_within, equal_refs, equal_parts, equal_pair, equal_pairs, of_one_length, equal_texts};

use crate::keys::key_cost_within;
use crate::same::{is_same_single, is_same_text};
use crate::{Object, Objects, Op, Value};
use py_meaning::done;
use pyn_base::{Construct, Fuel, ObjId};

/// How many levels of parts are compared.
pub(crate) const COMPARISON_LIMIT: u8 = 50;

impl Objects {
    /// Whether two values are equal.
    #[tactic(auto, unfolding(py_meaning::specs::Equal::equal))]
    pub fn equal(&self, a: &Value, b: &Value, fuel: &mut Fuel) -> Op<bool>
        ensures meant { equal self.now a.now b.now fuel.old ≡ (result, fuel.new) }
        ensures fuel { fuel.new ≤ fuel.old }
    {
        self.equal_within(COMPARISON_LIMIT, a, b, fuel)
    }

    /// The same, where so many levels of parts may still be compared.
    #[cycle(equal)]
    #[tactic(auto, using(py_meaning::specs::Folds::views))]
    pub(crate) fn equal_within(&self, levels: u8, a: &Value, b: &Value, fuel: &mut Fuel) -> Op<bool>
        ensures { equal_within levels self.now a.now b.now fuel.old ≡ (result, fuel.new) }
    {
        match a {
            Value::Str(s) => match b {
                Value::Str(t) => equal_texts(s.as_slice(), t.as_slice(), fuel),
                _ => Op::Done(false),
            },
            Value::Tuple(xs) => match b {
                Value::Tuple(ys) => self.equal_sequences(
                    levels,
                    xs.as_slice(),
                    ys.as_slice(),
                    fuel,
                ),
                _ => Op::Done(false),
            },
            Value::Ref(i) => match b {
                Value::Ref(j) => self.equal_refs(levels, *i, *j, fuel),
                _ => Op::Done(false),
            },
            Value::View(_) => match b {
                Value::View(_) => Op::Leaves(Construct::View),
                _ => Op::Done(false),
            },
            _ => Op::Done(is_same_single(a, b)),
        }
    }

    #[cycle(equal)]
    fn equal_refs(&self, levels: u8, i: ObjId, j: ObjId, fuel: &mut Fuel) -> Op<bool>
        ensures { equal_refs self.now (parts_within levels self.now) i j fuel.old ≡ (result, fuel.new) }
    {
        if i.0 == j.0 {
            return Op::Done(true);
        }
        match self.object(i) {
            Some(Object::Dict(_, _)) => match self.object(j) {
                Some(Object::Dict(_, _)) => self.equal_dicts(levels, i, j, fuel),
                _ => Op::Done(false),
            },
            Some(Object::Instance(_, _, _)) => Op::Done(false),
            _ => match self.object(j) {
                Some(Object::Dict(_, _)) => Op::Done(false),
                Some(Object::Instance(_, _, _)) => Op::Done(false),
                _ => self.equal_sequences(levels, self.elements(i), self.elements(j), fuel),
            },
        }
    }

    /// Lists or tuples.
    #[cycle(equal)]
    fn equal_sequences(&self, levels: u8, xs: &[Value], ys: &[Value], fuel: &mut Fuel) -> Op<bool>
        ensures { of_one_length (parts_within levels self.now).sequences xs.now ys.now fuel.old ≡ (result, fuel.new) }
    {
        if xs.len() != ys.len() {
            Op::Done(false)
        } else if levels == 0 {
            Op::Leaves(Construct::ComparisonDepth)
        } else {
            self.equal_parts(levels - 1, xs, ys, fuel)
        }
    }

    #[cycle(equal)]
    fn equal_dicts(&self, levels: u8, i: ObjId, j: ObjId, fuel: &mut Fuel) -> Op<bool>
        ensures { of_one_length (parts_within levels self.now).dicts (pairs self.now i) (pairs self.now j) fuel.old ≡ (result, fuel.new) }
    {
        let ys = self.pairs(j);
        if self.pairs(i).len() != ys.len() {
            Op::Done(false)
        } else if levels == 0 {
            Op::Leaves(Construct::ComparisonDepth)
        } else {
            self.equal_pairs(levels - 1, i, ys, fuel)
        }
    }

    /// The parts pair by pair, up to the first unequal ones.
    #[cycle(equal)]
    fn equal_parts(&self, levels: u8, xs: &[Value], ys: &[Value], fuel: &mut Fuel) -> Op<bool>
        ensures { equal_parts (equal_within levels self.now) xs.now ys.now fuel.old ≡ (result, fuel.new) }
    {
        for (at, x) in xs.iter().enumerate() {
            let Some(y) = ys.get(at) else {
                return Op::Done(true);
            };
            if !fuel.take(1) {
                return Op::OutOfSteps;
            }
            if !done!(self.equal_within(levels, x, y, fuel)) {
                return Op::Done(false);
            }
        }
        Op::Done(true)
    }

    /// The right dict's pairs in order, up to the first that the left one lacks or has another value for.
    #[cycle(equal)]
    fn equal_pairs(
        &self,
        levels: u8,
        left: ObjId,
        right: &[(Value, Value)],
        fuel: &mut Fuel,
    ) -> Op<bool>
        ensures { equal_pairs (equal_within levels self.now) (pairs self.now left) right.now fuel.old ≡ (result, fuel.new) }
    {
        for pair in right {
            if !done!(self.equal_pair(levels, left, pair, fuel)) {
                return Op::Done(false);
            }
        }
        Op::Done(true)
    }

    #[cycle(equal)]
    #[tactic(auto, unfolding(py_meaning::specs::Equal::equal_pair))]
    fn equal_pair(
        &self,
        levels: u8,
        left: ObjId,
        pair: &(Value, Value),
        fuel: &mut Fuel,
    ) -> Op<bool>
        ensures { equal_pair (equal_within levels self.now) (pairs self.now left) pair.now fuel.old ≡ (result, fuel.new) }
    {
        if !pay_pair(&pair.0, fuel) {
            return Op::OutOfSteps;
        }
        match self.value_of_key(left, &pair.0) {
            Some(x) => self.equal_within(levels, x, &pair.1, fuel),
            None => Op::Done(false),
        }
    }
}

/// Takes what a pair's lookup costs, or nothing where fewer steps are left.
fn pay_pair(key: &Value, fuel: &mut Fuel) -> bool
    ensures enough { result ≡ nat_le (1 + key_cost key.now) fuel.old }
    ensures left { fuel.new ≡ (if nat_le (1 + key_cost key.now) fuel.old then fuel.old - (1 + key_cost key.now) else fuel.old) }
{
    match key_cost_within(key, fuel.left()) {
        Some(cost) => fuel.take(1 + cost as u64),
        None => false,
    }
}

/// Strings of one length cost that length.
fn equal_texts(s: &[char], t: &[char], fuel: &mut Fuel) -> Op<bool>
    ensures { equal_texts s.now t.now fuel.old ≡ (result, fuel.new) }
{
    if s.len() != t.len() {
        Op::Done(false)
    } else if fuel.take(s.len() as u64) {
        Op::Done(is_same_text(s, t))
    } else {
        Op::OutOfSteps
    }
}
