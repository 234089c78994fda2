// Lists: made, written, grown and shortened, at their costs.
ghost use Rattle.std.specs.Prelude.{◌≡◌, ◌≤◌, ℕ, IfOk};
ghost use Rattle.py_meaning.specs.Steps.{Does, DoesFree};
ghost use Rattle.py_meaning.specs.Worlds.{object_at, with_object};
ghost use Rattle.py_meaning.specs.Operations.{make_list, list_set, set_item, list_insert, list_remove, list_extend, list_pop, list_reverse, turned};

use crate::places::index_place;
use crate::ranges::int;
use crate::{Object, Objects, Op, Value};
use py_meaning::made;
use pyn_base::{BuiltClass, Fuel, Memory, ObjId, PyInt};
use std::alloc::Global;

/// The same values for one more owner.
pub fn shared_all(alloc: Global, items: &[Value]) -> Result<Vec<Value>, Memory>
    ensures { IfOk result (λ shared. shared.items ≡ items.now) }
{
    let mut shared = Vec::new(alloc);
    for item in items {
        shared.push(item.share()?)?;
    }
    Ok(shared)
}

impl Objects {
    /// A new list, at a step for each item.
    pub fn make_list(&mut self, items: &[Value], fuel: &mut Fuel) -> Op<ObjId>
        ensures { Does (make_list items.now) self.old fuel.old result self.new fuel.new }
    {
        if !fuel.take(items.len() as u64) {
            return Op::OutOfSteps;
        }
        let items = made!(shared_all(self.alloc, items));
        Op::Done(made!(self.new_list(items)))
    }

    /// Writes an item of a list. An index out of range raises IndexError.
    pub fn list_set(&mut self, list: ObjId, at: PyInt, value: Value) -> Op<()>
        ensures { DoesFree (list_set list at value) self.old result self.new }
    {
        let mut object = self.take(list);
        let answer = set_item(&mut object, at, value);
        self.put(list, object);
        answer
    }

    /// Puts an item before the one at an index, at a step for each item and one more.
    pub fn list_insert(&mut self, list: ObjId, at: PyInt, value: Value, fuel: &mut Fuel) -> Op<()>
        ensures { Does (list_insert list at value) self.old fuel.old result self.new fuel.new }
    {
        if !fuel.take(self.elements(list).len() as u64 + 1) {
            drop(value);
            return Op::OutOfSteps;
        }
        made!(self.list_insert_free(list, at, value));
        Op::Done(())
    }

    /// Removes an item and gives it, at a step for each item. An index out of range raises IndexError.
    pub fn list_remove(&mut self, list: ObjId, at: PyInt, fuel: &mut Fuel) -> Op<Value>
        ensures { Does (list_remove list at) self.old fuel.old result self.new fuel.new }
    {
        if !fuel.take(self.elements(list).len() as u64) {
            return Op::OutOfSteps;
        }
        self.list_remove_free(list, at)
    }

    /// Removes the last item and gives it, at one step. An empty list raises IndexError.
    pub fn list_pop(&mut self, list: ObjId, fuel: &mut Fuel) -> Op<Value>
        ensures { Does (list_pop list) self.old fuel.old result self.new fuel.new }
    {
        if !fuel.take(1) {
            return Op::OutOfSteps;
        }
        self.list_remove_free(list, int(-1))
    }

    /// Turns a list's items round, at a step for each.
    pub fn list_reverse(&mut self, list: ObjId, fuel: &mut Fuel) -> Op<()>
        ensures { Does (list_reverse list) self.old fuel.old result self.new fuel.new }
    {
        if !fuel.take(self.elements(list).len() as u64) {
            return Op::OutOfSteps;
        }
        self.turn(list);
        Op::Done(())
    }

    fn turn(&mut self, list: ObjId)
        ensures { self.new ≡ with_object self.old list (turned (object_at self.old list)) }
    {
        let mut object = self.take(list);
        turned(&mut object);
        self.put(list, object);
    }

    /// Puts items at the end, at a step for each.
    pub fn list_extend(&mut self, list: ObjId, items: &[Value], fuel: &mut Fuel) -> Op<()>
        ensures { Does (list_extend list items.now) self.old fuel.old result self.new fuel.new }
    {
        if !fuel.take(items.len() as u64) {
            return Op::OutOfSteps;
        }
        let more = made!(shared_all(self.alloc, items));
        made!(self.list_extend_free(list, more));
        Op::Done(())
    }
}

fn set_item(object: &mut Object, at: PyInt, value: Value) -> Op<()>
    ensures { DoesFree (set_item at value) object.old result object.new }
{
    match object {
        Object::List(items) => match index_place(at, items.len()) {
            Some(place) => {
                items.set(place, value);
                Op::Done(())
            }
            None => {
                drop(value);
                Op::Raises(BuiltClass::IndexError)
            }
        },
        _ => {
            drop(value);
            Op::Raises(BuiltClass::IndexError)
        }
    }
}

fn turned(object: &mut Object)
    ensures { object.new ≡ turned object.old }
{
    match object {
        Object::List(items) => items.reverse(),
        _ => {}
    }
}
