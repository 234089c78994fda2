// The table itself, and what is read of it.
ghost use Rattle.std.specs.Prelude.{◌≡◌, [], length, take, slice_get, IfOk, OnErr};
ghost use Rattle.std.specs.Option.{option_copied, option_map};
ghost use Rattle.py_meaning.specs.Lists.{read_pair};
ghost use Rattle.py_meaning.specs.Worlds.{object_at, with_object, elements, pairs, attributes};
ghost use Rattle.py_meaning.specs.Operations.{made, kind_of, size_of, key_changes_of, args_of, list_get, attr_get};

use crate::held::Held;
use crate::places::{attribute_place, index_place};
use py_meaning::{ObjKind, Object, PyTuple, Sequence, Value};
use pyn_base::{Memory, Name, ObjId, PyInt};
use std::alloc::Global;
use std::marker::Model;
use std::mem;

/// A table of objects. A reference is a place in it; making an object appends it.
#[derive(Drop)]
pub struct Objects {
    pub(crate) objects: Vec<Held>,
    pub(crate) alloc: Global,
}

impl Model for Objects {
    ghost use Rattle.py_meaning.specs.Worlds.{World};
    ghost use Rattle.py_meaning.specs.contracts.object.Object as one;
    ghost use Rattle.std.specs.Coded.{coded_list};

    ghost Value = { World };

    ghost coded = { coded_list one.the_row.coded };

    ghost view = { λ o. o.objects.items };
}

impl Objects {
    /// A table without objects.
    pub fn new(alloc: Global) -> Result<Objects, Memory>
        ensures { IfOk result (λ objects. objects ≡ []) }
    {
        Ok(Objects {
            objects: Vec::new(alloc),
            alloc,
        })
    }

    /// The number of objects.
    pub fn count(&self) -> u64
        ensures { result ≡ length self.now }
    {
        self.objects.len() as u64
    }

    /// Keeps the first `count` objects.
    pub fn cut(&mut self, count: u64)
        ensures { self.new ≡ take count self.old }
    {
        self.objects.truncate(count as usize);
    }

    /// A new object, which goes last.
    pub(crate) fn make(&mut self, object: Object) -> Result<ObjId, Memory>
        ensures ok { IfOk result (λ id. made object self.old ≡ (id, self.new)) }
        ensures err { OnErr result (self.new ≡ self.old) }
    {
        self.make_held(Held::new(object))
    }

    /// The same, with the hashes of its keys.
    pub(crate) fn make_held(&mut self, held: Held) -> Result<ObjId, Memory>
        ensures ok { IfOk result (λ id. made held self.old ≡ (id, self.new)) }
        ensures err { OnErr result (self.new ≡ self.old) }
    {
        let id = ObjId(self.objects.len() as u64);
        self.objects.push(held)?;
        Ok(id)
    }

    /// An object, so that it can be changed and put back. An empty list is in its place until then.
    pub(crate) fn take(&mut self, id: ObjId) -> Object
        ensures object { result ≡ object_at self.old id }
        ensures rest { self.new ≡ with_object self.old id (Object.List []) }
    {
        self.take_held(id).into_object()
    }

    pub(crate) fn put(&mut self, id: ObjId, object: Object)
        ensures { self.new ≡ with_object self.old id object }
    {
        self.put_held(id, Held::new(object));
    }

    /// The same of an object with the hashes of its keys.
    pub(crate) fn take_held(&mut self, id: ObjId) -> Held
        ensures object { result ≡ object_at self.old id }
        ensures rest { self.new ≡ with_object self.old id (Object.List []) }
    {
        let empty = Held::new(Object::List(Sequence::new(self.alloc)));
        match self.objects.get_mut(id.0 as usize) {
            Some(held) => mem::replace(held, empty),
            None => empty,
        }
    }

    pub(crate) fn put_held(&mut self, id: ObjId, held: Held)
        ensures { self.new ≡ with_object self.old id held }
    {
        let at = id.0 as usize;
        if at < self.objects.len() {
            self.objects[at] = held;
        } else {
            drop(held);
        }
    }

    pub(crate) fn held(&self, id: ObjId) -> Option<&Held>
        ensures { option_copied result ≡ slice_get self.now id.0 }
    {
        self.objects.get(id.0 as usize)
    }

    pub(crate) fn object(&self, id: ObjId) -> Option<&Object>
        ensures { option_copied result ≡ slice_get self.now id.0 }
    {
        match self.held(id) {
            Some(held) => Some(held.object()),
            None => None,
        }
    }

    /// What allocates for the table.
    pub fn alloc(&self) -> Global {
        self.alloc
    }

    /// A list's items, and nothing of other objects.
    pub fn elements(&self, list: ObjId) -> &[Value]
        ensures { result.now ≡ elements self.now list }
    {
        match self.object(list) {
            Some(Object::List(items)) => items.as_slice(),
            _ => &[],
        }
    }

    /// A dict's pairs, and nothing of other objects.
    pub(crate) fn pairs(&self, dict: ObjId) -> &[(Value, Value)]
        ensures { result.now ≡ pairs self.now dict }
    {
        match self.object(dict) {
            Some(Object::Dict(pairs, _)) => pairs.as_slice(),
            _ => &[],
        }
    }

    /// An instance's attributes, and nothing of other objects.
    pub(crate) fn attributes(&self, instance: ObjId) -> &[(Name, Value)]
        ensures { result.now ≡ attributes self.now instance }
    {
        match self.object(instance) {
            Some(Object::Instance(_, attributes, _)) => attributes.as_slice(),
            _ => &[],
        }
    }

    pub fn kind(&self, id: ObjId) -> ObjKind
        ensures { result ≡ kind_of (object_at self.now id) }
    {
        match self.object(id) {
            None => ObjKind::List,
            Some(Object::List(_)) => ObjKind::List,
            Some(Object::Dict(_, _)) => ObjKind::Dict,
            Some(Object::Instance(class, _, _)) => ObjKind::Instance(*class),
        }
    }

    /// The number of elements, pairs or attributes.
    pub fn size(&self, id: ObjId) -> u64
        ensures { result ≡ size_of (object_at self.now id) }
    {
        match self.object(id) {
            None => 0,
            Some(Object::List(items)) => items.len() as u64,
            Some(Object::Dict(pairs, _)) => pairs.len() as u64,
            Some(Object::Instance(_, attributes, _)) => attributes.len() as u64,
        }
    }

    /// How often a dict's keys have changed.
    pub fn key_changes(&self, dict: ObjId) -> u64
        ensures { result ≡ key_changes_of (object_at self.now dict) }
    {
        match self.object(dict) {
            Some(Object::Dict(_, changes)) => *changes,
            _ => 0,
        }
    }

    /// An exception's arguments, where they are known.
    pub fn args(&self, instance: ObjId) -> Option<&PyTuple>
        ensures { option_copied result ≡ args_of (object_at self.now instance) }
    {
        match self.object(instance) {
            Some(Object::Instance(_, _, args)) => args.as_ref(),
            _ => None,
        }
    }

    /// A list's item, below 0 from the end, unless the index is out of range.
    pub fn list_get(&self, list: ObjId, at: PyInt) -> Option<&Value>
        ensures { option_copied result ≡ list_get list at self.now }
    {
        let items = self.elements(list);
        match index_place(at, items.len()) {
            Some(place) => items.get(place),
            None => None,
        }
    }

    /// A dict's pair at a place of the order in which the keys were put.
    pub fn pair_at(&self, dict: ObjId, at: u64) -> Option<(&Value, &Value)>
        ensures { option_map read_pair result ≡ slice_get (pairs self.now dict) at }
    {
        match self.pairs(dict).get(at as usize) {
            Some((key, value)) => Some((key, value)),
            None => None,
        }
    }

    /// An instance's attribute at a place of the order in which they were first set.
    pub fn attr_at(&self, instance: ObjId, at: u64) -> Option<(&Name, &Value)>
        ensures { option_map read_pair result ≡ slice_get (attributes self.now instance) at }
    {
        match self.attributes(instance).get(at as usize) {
            Some((name, value)) => Some((name, value)),
            None => None,
        }
    }

    /// An attribute of the instance alone.
    pub fn attr_get(&self, instance: ObjId, name: &Name) -> Option<&Value>
        ensures { option_copied result ≡ attr_get instance name.now self.now }
    {
        let attributes = self.attributes(instance);
        match attribute_place(attributes, name) {
            Some(place) => match attributes.get(place) {
                Some((_, value)) => Some(value),
                None => None,
            },
            None => None,
        }
    }
}
