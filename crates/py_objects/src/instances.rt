// Instances: made, and their attributes and arguments written. And what empties a list or a dict.
ghost use Rattle.std.specs.Prelude.{◌≡◌, IfOk, OnOk, OnErr};
ghost use Rattle.py_meaning.specs.Operations.{make_instance, attr_set, set_args, clear, set_attribute, with_args, cleared};

use crate::places::attribute_place;
use crate::{Object, Objects, PyTuple, Sequence, Value};
use pyn_base::{ClassId, Memory, Name, ObjId};
use std::alloc::Global;

impl Objects {
    /// A new instance without attributes, and with the arguments of an exception where they are known.
    pub fn make_instance(&mut self, class: ClassId, args: Option<PyTuple>) -> Result<ObjId, Memory>
        ensures ok { IfOk result (λ id. make_instance class args self.old ≡ (id, self.new)) }
        ensures err { OnErr result (self.new ≡ self.old) }
    {
        let attributes = Sequence::new(self.alloc);
        self.make(Object::Instance(class, attributes, args))
    }

    /// Sets an attribute. It keeps the place at which it was first set.
    pub fn attr_set(&mut self, instance: ObjId, name: &Name, value: Value) -> Result<(), Memory>
        ensures ok { OnOk result (self.new ≡ attr_set instance name.now value self.old) }
        ensures err { OnErr result (self.new ≡ self.old) }
    {
        let mut object = self.take(instance);
        let answer = set_attribute(self.alloc, &mut object, name, value);
        self.put(instance, object);
        answer
    }

    /// Sets an exception's arguments.
    pub fn set_args(&mut self, instance: ObjId, args: PyTuple) -> Result<(), Memory>
        ensures ok { OnOk result (self.new ≡ set_args instance args self.old) }
        ensures err { OnErr result (self.new ≡ self.old) }
    {
        let mut object = self.take(instance);
        let answer = with_args(&mut object, args);
        self.put(instance, object);
        answer
    }

    /// Empties a list or a dict.
    pub fn clear(&mut self, id: ObjId) -> Result<(), Memory>
        ensures ok { OnOk result (self.new ≡ clear id self.old) }
        ensures err { OnErr result (self.new ≡ self.old) }
    {
        let mut object = self.take(id);
        let answer = cleared(&mut object);
        self.put(id, object);
        answer
    }
}

fn set_attribute(
    alloc: Global,
    object: &mut Object,
    name: &Name,
    value: Value,
) -> Result<(), Memory>
    ensures ok { OnOk result (object.new ≡ set_attribute name.now value object.old) }
    ensures err { OnErr result (object.new ≡ object.old) }
{
    match object {
        Object::Instance(_, attributes, _) => {
            match attribute_place(attributes.as_slice(), name) {
                Some(place) => {
                    attributes.set_second(place, value);
                    Ok(())
                }
                None => {
                    let name = name.to_owned(alloc)?;
                    attributes.push((name, value))
                }
            }
        }
        _ => {
            drop(value);
            Ok(())
        }
    }
}

fn with_args(object: &mut Object, args: PyTuple) -> Result<(), Memory>
    ensures ok { OnOk result (object.new ≡ with_args args object.old) }
    ensures err { OnErr result (object.new ≡ object.old) }
{
    match object {
        Object::Instance(_, _, held) => *held = Some(args),
        _ => drop(args),
    }
    Ok(())
}

fn cleared(object: &mut Object) -> Result<(), Memory>
    ensures ok { OnOk result (object.new ≡ cleared object.old) }
    ensures err { OnErr result (object.new ≡ object.old) }
{
    match object {
        Object::List(items) => items.truncate(0),
        Object::Dict(pairs, changes) => {
            if pairs.len() > 0 {
                pairs.truncate(0);
                *changes = changes.saturating_add(1);
            }
        }
        Object::Instance(_, _, _) => {}
    }
    Ok(())
}
