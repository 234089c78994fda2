// A second table with the same objects.
ghost use Rattle.std.specs.Prelude.{◌≡◌, IfOk};

use crate::held::Held;
use crate::lists::shared_all;
use crate::{Object, Objects, PyTuple, Sequence, Value};
use pyn_base::{Memory, Name};
use std::alloc::Global;

impl Objects {
    /// A table with the same list. What is done to one of them isn't done to the other.
    pub fn fork(&self) -> Result<Objects, Memory>
        ensures { IfOk result (λ forked. forked ≡ self.now) }
    {
        Ok(Objects {
            objects: copied_all(self.alloc, self.objects.as_slice())?,
            alloc: self.alloc,
        })
    }
}

fn copied_all(alloc: Global, objects: &[Held]) -> Result<Vec<Held>, Memory>
    ensures { IfOk result (λ copies. copies.items ≡ objects.now) }
{
    let mut copies = Vec::new(alloc);
    for object in objects {
        let copy = copied(alloc, object.object())?;
        copies.push(Held::with_hashes_of(alloc, copy, object))?;
    }
    Ok(copies)
}

fn copied(alloc: Global, object: &Object) -> Result<Object, Memory>
    ensures { IfOk result (λ copy. copy ≡ object.now) }
{
    Ok(match object {
        Object::List(items) => {
            Object::List(Sequence::from_vec(shared_all(alloc, items.as_slice())?))
        }
        Object::Dict(pairs, changes) => Object::Dict(
            Sequence::from_vec(shared_pairs(alloc, pairs.as_slice())?),
            *changes,
        ),
        Object::Instance(class, attributes, args) => Object::Instance(
            *class,
            Sequence::from_vec(shared_attributes(alloc, attributes.as_slice())?),
            shared_args(args)?,
        ),
    })
}

pub(crate) fn shared_pairs(
    alloc: Global,
    pairs: &[(Value, Value)],
) -> Result<Vec<(Value, Value)>, Memory>
    ensures { IfOk result (λ shared. shared.items ≡ pairs.now) }
{
    let mut shared = Vec::new(alloc);
    for pair in pairs {
        shared.push((pair.0.share()?, pair.1.share()?))?;
    }
    Ok(shared)
}

fn shared_attributes(
    alloc: Global,
    attributes: &[(Name, Value)],
) -> Result<Vec<(Name, Value)>, Memory>
    ensures { IfOk result (λ shared. shared.items ≡ attributes.now) }
{
    let mut shared = Vec::new(alloc);
    for attribute in attributes {
        shared.push((attribute.0.to_owned(alloc)?, attribute.1.share()?))?;
    }
    Ok(shared)
}

fn shared_args(args: &Option<PyTuple>) -> Result<Option<PyTuple>, Memory>
    ensures { IfOk result (λ shared. shared ≡ args.now) }
{
    Ok(match args {
        Some(args) => Some(args.share()?),
        None => None,
    })
}
