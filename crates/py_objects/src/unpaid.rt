// Lists written at no cost: the caller has paid for it.
ghost use Rattle.std.specs.Prelude.{◌≡◌, ℕ, IfOk, OnOk, OnErr};
ghost use Rattle.py_meaning.specs.Steps.{DoesFree};
ghost use Rattle.py_meaning.specs.Operations.{made, grown, inserted, list_extend_free, list_insert_free, list_remove_free, remove_item, set_elements};

use crate::places::{index_place, insert_place};
use crate::{Object, Objects, Op, Sequence, Value};
use pyn_base::{BuiltClass, Memory, ObjId, PyInt};

impl Objects {
    /// A new list of items.
    pub fn new_list(&mut self, items: Vec<Value>) -> Result<ObjId, Memory>
        ensures ok { IfOk result (λ id. made (Object.List items.items) self.old ≡ (id, self.new)) }
        ensures err { OnErr result (self.new ≡ self.old) }
    {
        self.make(Object::List(Sequence::from_vec(items)))
    }

    /// Puts items at a list's end.
    pub fn list_extend_free(&mut self, list: ObjId, items: Vec<Value>) -> Result<(), Memory>
        ensures ok { OnOk result (self.new ≡ list_extend_free list items.items self.old) }
        ensures err { OnErr result (self.new ≡ self.old) }
    {
        let mut object = self.take(list);
        let answer = grown(&mut object, items);
        self.put(list, object);
        answer
    }

    /// Puts an item before the one at an index.
    pub fn list_insert_free(&mut self, list: ObjId, at: PyInt, value: Value) -> Result<(), Memory>
        ensures ok { OnOk result (self.new ≡ list_insert_free list at value self.old) }
        ensures err { OnErr result (self.new ≡ self.old) }
    {
        let mut object = self.take(list);
        let answer = inserted(&mut object, at, value);
        self.put(list, object);
        answer
    }

    /// Removes an item and gives it. An index out of range raises IndexError.
    pub fn list_remove_free(&mut self, list: ObjId, at: PyInt) -> Op<Value>
        ensures { DoesFree (list_remove_free list at) self.old result self.new }
    {
        let mut object = self.take(list);
        let answer = remove_item(&mut object, at);
        self.put(list, object);
        answer
    }

    /// Other items in place of a list's own.
    pub fn set_elements(&mut self, list: ObjId, items: Vec<Value>) -> Result<(), Memory>
        ensures ok { OnOk result (self.new ≡ set_elements list items.items self.old) }
        ensures err { OnErr result (self.new ≡ self.old) }
    {
        self.put(list, Object::List(Sequence::from_vec(items)));
        Ok(())
    }
}

fn grown(object: &mut Object, more: Vec<Value>) -> Result<(), Memory>
    ensures ok { OnOk result (object.new ≡ grown more.items object.old) }
    ensures err { OnErr result (object.new ≡ object.old) }
{
    match object {
        Object::List(items) => items.append(more),
        _ => {
            drop(more);
            Ok(())
        }
    }
}

fn inserted(object: &mut Object, at: PyInt, value: Value) -> Result<(), Memory>
    ensures ok { OnOk result (object.new ≡ inserted at value object.old) }
    ensures err { OnErr result (object.new ≡ object.old) }
{
    match object {
        Object::List(items) => items.insert(insert_place(at, items.len()), value),
        _ => {
            drop(value);
            Ok(())
        }
    }
}

fn remove_item(object: &mut Object, at: PyInt) -> Op<Value>
    ensures { DoesFree (remove_item at) object.old result object.new }
{
    match object {
        Object::List(items) => match index_place(at, items.len()) {
            Some(place) => Op::Done(items.remove(place)),
            None => Op::Raises(BuiltClass::IndexError),
        },
        _ => Op::Raises(BuiltClass::IndexError),
    }
}
