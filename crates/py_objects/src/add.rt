// What `+` gives.
ghost use Rattle.std.specs.Prelude.{◌≡◌, ◌≤◌, ℕ, ◌++◌, IfOk};
ghost use Rattle.py_meaning.specs.Steps.{Does, UnlessMemory};
ghost use Rattle.py_meaning.specs.Worlds.{object_at};
ghost use Rattle.py_meaning.specs.Sums.{add, is_list, add_refs, add_numbers, add_texts, add_tuples};

use crate::lists::shared_all;
use crate::same::{is_view, number};
use crate::{Object, Objects, Op, PyStr, Value};
use py_meaning::{made, new_tuple};
use pyn_base::{BuiltClass, Construct, Fuel, Memory, ObjId, PyInt};
use std::alloc::Global;

impl Objects {
    /// Integers are added; strings, tuples and lists are joined, lists to a new one, at a step for each element of
    /// the result.
    #[tactic(auto, using(py_meaning::specs::Folds::views))]
    pub fn add(&mut self, a: &Value, b: &Value, fuel: &mut Fuel) -> Op<Value>
        ensures { Does (add a.now b.now) self.old fuel.old result self.new fuel.new }
    {
        if is_view(a) || is_view(b) {
            return Op::Leaves(Construct::View);
        }
        match a {
            Value::Str(s) => match b {
                Value::Str(t) => add_texts(self.alloc, s.as_slice(), t.as_slice(), fuel),
                _ => Op::Raises(BuiltClass::TypeError),
            },
            Value::Tuple(xs) => match b {
                Value::Tuple(ys) => add_tuples(self.alloc, xs.as_slice(), ys.as_slice(), fuel),
                _ => Op::Raises(BuiltClass::TypeError),
            },
            Value::Ref(i) => match b {
                Value::Ref(j) => self.add_refs(*i, *j, fuel),
                _ => Op::Raises(BuiltClass::TypeError),
            },
            Value::Bool(_) => add_numbers(number(a), number(b)),
            Value::Int(_) => add_numbers(number(a), number(b)),
            Value::None => Op::Raises(BuiltClass::TypeError),
            Value::Class(_) => Op::Raises(BuiltClass::TypeError),
            Value::Func(_) => Op::Raises(BuiltClass::TypeError),
            Value::View(_) => Op::Raises(BuiltClass::TypeError),
            Value::ModuleRef => Op::Raises(BuiltClass::TypeError),
        }
    }

    fn add_refs(&mut self, i: ObjId, j: ObjId, fuel: &mut Fuel) -> Op<Value>
        ensures { Does (add_refs i j) self.old fuel.old result self.new fuel.new }
    {
        if !self.is_list(i) || !self.is_list(j) {
            return Op::Raises(BuiltClass::TypeError);
        }
        let count = self.elements(i).len() as u64 + self.elements(j).len() as u64;
        if !fuel.take(count) {
            return Op::OutOfSteps;
        }
        let joined = made!(joined_values(self.alloc, self.elements(i), self.elements(j)));
        Op::Done(Value::Ref(made!(self.new_list(joined))))
    }

    /// Whether a reference names a list, or nothing.
    pub fn is_list(&self, id: ObjId) -> bool
        ensures { result ≡ is_list (object_at self.now id) }
    {
        match self.object(id) {
            Some(Object::Dict(_, _)) => false,
            Some(Object::Instance(_, _, _)) => false,
            _ => true,
        }
    }
}

fn joined_values(alloc: Global, xs: &[Value], ys: &[Value]) -> Result<Vec<Value>, Memory>
    ensures { IfOk result (λ joined. joined.items ≡ xs.now ++ ys.now) }
{
    let mut joined = shared_all(alloc, xs)?;
    let mut more = shared_all(alloc, ys)?;
    joined.append(&mut more)?;
    Ok(joined)
}

fn joined_texts(alloc: Global, s: &[char], t: &[char]) -> Result<PyStr, Memory>
    ensures { IfOk result (λ joined. joined ≡ s.now ++ t.now) }
{
    let mut joined = Vec::from_slice(alloc, s)?;
    joined.extend_from_slice(t)?;
    PyStr::from_vec(alloc, joined)
}

fn add_texts(alloc: Global, s: &[char], t: &[char], fuel: &mut Fuel) -> Op<Value>
    ensures meant { UnlessMemory result (add_texts s.now t.now fuel.old ≡ (result, fuel.new)) }
    ensures fuel { fuel.new ≤ fuel.old }
{
    if !fuel.take(s.len() as u64 + t.len() as u64) {
        return Op::OutOfSteps;
    }
    Op::Done(Value::Str(made!(joined_texts(alloc, s, t))))
}

fn add_tuples(alloc: Global, xs: &[Value], ys: &[Value], fuel: &mut Fuel) -> Op<Value>
    ensures meant { UnlessMemory result (add_tuples xs.now ys.now fuel.old ≡ (result, fuel.new)) }
    ensures fuel { fuel.new ≤ fuel.old }
{
    if !fuel.take(xs.len() as u64 + ys.len() as u64) {
        return Op::OutOfSteps;
    }
    new_tuple(alloc, made!(joined_values(alloc, xs, ys)))
}

fn add_numbers(a: Option<PyInt>, b: Option<PyInt>) -> Op<Value>
    ensures { (left : ℕ) → add_numbers a b left ≡ (result, left) }
{
    match (a, b) {
        (Some(a), Some(b)) => match a.add(b) {
            Some(sum) => Op::Done(Value::Int(sum)),
            None => Op::Leaves(Construct::IntegerRange),
        },
        _ => Op::Raises(BuiltClass::TypeError),
    }
}
