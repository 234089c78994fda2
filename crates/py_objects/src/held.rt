// An object as the table holds it: a dict of more than a few pairs with the hashes of its keys.
ghost use Rattle.std.specs.Prelude.{◌≡◌, ◌∷◌, ◌++◌, [], List, ℕ, length, remove, IfSome, OnOk, OnErr};
ghost use Rattle.std.specs.Option.{option_copied, option_map};
ghost use Rattle.py_meaning.specs.Steps.{DoesFree};
ghost use Rattle.py_meaning.specs.Keys.{key_place, value_of_key};
ghost use Rattle.py_meaning.specs.Values.{at_place};
ghost use Rattle.py_meaning.specs.Worlds.{pairs_of};
ghost use Rattle.py_meaning.specs.Operations.{put_pair, delete_pair};
ghost use Rattle.py_objects.specs.Hashes.{key_hash, hashes_of, Holds};

use crate::hashes::key_hash;
use crate::keys::{is_same_key, key_place};
use crate::{Object, Op, Sequence, Value};
use indexmap::IndexSet;
use pyn_base::{BuiltClass, Memory};
use std::alloc::Global;
use std::marker::Model;
use std::mem;

/// A dict of fewer pairs is searched pair by pair.
const FEW: usize = 8;

/// The hashes of a dict's keys, in the order of its pairs.
#[derive(Drop)]
pub(crate) enum Hashes {
    /// Of what is no dict, and where no memory was left for them.
    Unknown,
    /// Of a small dict, or of one in which two keys have one hash.
    Few(Vec<u64>),
    /// Those of which no two are equal, by which a key is found.
    Many(Box<IndexSet<u64>>),
}

/// An object, which a contract sees alone, and of a dict the hashes.
#[derive(Drop)]
pub(crate) struct Held {
    object: Object,
    hashes: Hashes,
}

impl Model for Held {
    ghost use Rattle.py_meaning.specs.declared.object.Object.{Object as Seen};
    ghost use Rattle.py_meaning.specs.contracts.object.Object as one;
    ghost use Rattle.py_meaning.specs.Worlds.{pairs_of};
    ghost use Rattle.py_objects.specs.Hashes.{hashes_of, Holds};

    ghost Value = { Seen };

    ghost coded = { one.the_row.coded };

    ghost view = { λ h. h.object };

    ghost invariant = { λ h. Holds h.hashes (hashes_of (pairs_of h.object)) };
}

impl Held {
    /// An object without hashes.
    pub(crate) fn new(object: Object) -> Held
        ensures { result ≡ object }
    {
        Held {
            object,
            hashes: Hashes::Unknown,
        }
    }

    pub(crate) fn object(&self) -> &Object
        ensures { result.now ≡ self.now }
    {
        &self.object
    }

    pub(crate) fn into_object(self) -> Object
        ensures { result ≡ self }
    {
        let Held { object, hashes } = self;
        drop(hashes);
        object
    }

    /// The value of a key of a dict.
    pub(crate) fn value_of_key(&self, key: &Value) -> Option<&Value>
        ensures { option_copied result ≡ value_of_key key.now (pairs_of self.now) }
    {
        match &self.object {
            Object::Dict(pairs, _) => value_at(
                pairs.as_slice(),
                place(&self.hashes, key, pairs.as_slice()),
            ),
            _ => None,
        }
    }

    /// Puts a pair into a dict; of another object nothing is done.
    pub(crate) fn put_pair(&mut self, alloc: Global, key: Value, value: Value) -> Result<(), Memory>
        ensures ok { OnOk result (self.new ≡ put_pair key value self.old) }
        ensures err { OnErr result (self.new ≡ self.old) }
    {
        put_pair(alloc, &mut self.object, &mut self.hashes, key, value)
    }

    /// Removes a key's pair from a dict and gives its value.
    pub(crate) fn delete_pair(&mut self, key: &Value) -> Op<Value>
        ensures { DoesFree (delete_pair key.now) self.old result self.new }
    {
        delete_pair(&mut self.object, &mut self.hashes, key)
    }

    /// The same hashes with another object, whose pairs are the same.
    pub(crate) fn with_hashes_of(alloc: Global, object: Object, held: &Held) -> Held
        requires { pairs_of object ≡ pairs_of held.now }
        ensures { result ≡ object }
    {
        Held {
            object,
            hashes: copied(alloc, &held.hashes),
        }
    }
}

fn value_at(pairs: &[(Value, Value)], place: Option<usize>) -> Option<&Value>
    ensures { option_copied result ≡ option_map (λ pair. pair.1) (at_place pairs.now place) }
{
    match place {
        Some(place) => match pairs.get(place) {
            Some((_, value)) => Some(value),
            None => None,
        },
        None => None,
    }
}

/// The place of a key among the pairs.
fn place(hashes: &Hashes, key: &Value, pairs: &[(Value, Value)]) -> Option<usize>
    requires { Holds hashes.now (hashes_of pairs.now) }
    ensures { result ≡ key_place key.now pairs.now }
{
    match hashes {
        Hashes::Many(many) => place_by_hash(many, key, pairs),
        _ => key_place(key, pairs),
    }
}

/// The place of the one key that has this hash, if it is the same.
fn place_by_hash(hashes: &IndexSet<u64>, key: &Value, pairs: &[(Value, Value)]) -> Option<usize>
    requires { hashes.now.keys ≡ hashes_of pairs.now }
    ensures { result ≡ key_place key.now pairs.now }
{
    // `len` says that no two hashes are equal.
    let _len = hashes.len();
    let hash = key_hash(key);
    match hashes.get_index_of(&hash) {
        Some(place) => {
            if is_same_key(key, &pairs[place].0) {
                Some(place)
            } else {
                None
            }
        }
        None => None,
    }
}

/// The hashes with one more.
fn with_hash(alloc: Global, hashes: Hashes, hash: u64) -> Hashes
    ensures { (known : List ℕ) → Holds hashes known → Holds result (known ++ hash ∷ []) }
{
    match hashes {
        Hashes::Unknown => Hashes::Unknown,
        Hashes::Few(few) => more_than_few(alloc, few, hash),
        Hashes::Many(many) => more_than_many(alloc, many, hash),
    }
}

/// One hash more. They become a set where their number has doubled, so that a hash's share of this work is the same
/// whatever their number.
fn more_than_few(alloc: Global, few: Vec<u64>, hash: u64) -> Hashes
    ensures { Holds result (few.items ++ hash ∷ []) }
{
    let mut few = few;
    if few.push(hash).is_err() {
        return Hashes::Unknown;
    }
    if few.len() >= FEW && few.len().is_power_of_two() {
        by_hash(alloc, few)
    } else {
        Hashes::Few(few)
    }
}

/// One hash more, where a key is found by it. Where it is another key's too, keys are no longer found so.
fn more_than_many(alloc: Global, many: Box<IndexSet<u64>>, hash: u64) -> Hashes
    ensures { Holds result (many.value.keys ++ hash ∷ []) }
{
    let mut many = many;
    match many.insert(hash) {
        Ok(true) => Hashes::Many(many),
        Ok(false) => with_equal(alloc, many.as_slice(), hash),
        Err(_) => Hashes::Unknown,
    }
}

fn with_equal(alloc: Global, many: &[u64], hash: u64) -> Hashes
    ensures { Holds result (many.now ++ hash ∷ []) }
{
    let Ok(mut few) = Vec::from_slice(alloc, many) else {
        return Hashes::Unknown;
    };
    if few.push(hash).is_err() {
        return Hashes::Unknown;
    }
    Hashes::Few(few)
}

/// These hashes as a set, unless two are equal.
fn by_hash(alloc: Global, few: Vec<u64>) -> Hashes
    ensures { Holds result few.items }
{
    match set_of(alloc, few.as_slice()) {
        Some(many) => Hashes::Many(many),
        None => Hashes::Few(few),
    }
}

fn set_of(alloc: Global, hashes: &[u64]) -> Option<Box<IndexSet<u64>>>
    ensures { IfSome result (λ set. set.value.keys ≡ hashes.now) }
{
    let mut set = IndexSet::new(alloc);
    for hash in hashes {
        match set.insert(*hash) {
            Ok(true) => {}
            _ => return None,
        }
    }
    boxed(alloc, set)
}

fn boxed(alloc: Global, set: IndexSet<u64>) -> Option<Box<IndexSet<u64>>>
    ensures { IfSome result (λ boxed. boxed.value.keys ≡ set.keys) }
{
    match Box::new(alloc, set) {
        Ok(boxed) => Some(boxed),
        Err(_) => None,
    }
}

fn without_hash(hashes: &mut Hashes, place: usize)
    ensures { (known : List ℕ) → Holds hashes.old known → Holds hashes.new (remove known place) }
{
    match hashes {
        Hashes::Unknown => {}
        Hashes::Few(few) => {
            if place < few.len() {
                let _hash = few.remove(place);
            }
        }
        Hashes::Many(many) => {
            let _hash = many.shift_remove_index(place);
        }
    }
}

fn copied(alloc: Global, hashes: &Hashes) -> Hashes
    ensures { (known : List ℕ) → Holds hashes.now known → Holds result known }
{
    match hashes {
        Hashes::Unknown => Hashes::Unknown,
        Hashes::Few(few) => match Vec::from_slice(alloc, few.as_slice()) {
            Ok(copy) => Hashes::Few(copy),
            Err(_) => Hashes::Unknown,
        },
        Hashes::Many(many) => copied_set(alloc, many),
    }
}

fn copied_set(alloc: Global, many: &IndexSet<u64>) -> Hashes
    ensures { Holds result many.now.keys }
{
    let Ok(copy) = many.clone() else {
        return Hashes::Unknown;
    };
    match boxed(alloc, copy) {
        Some(copy) => Hashes::Many(copy),
        None => Hashes::Unknown,
    }
}

/// Puts a pair last whose key is new.
fn push_pair(
    alloc: Global,
    pairs: &mut Sequence<(Value, Value)>,
    hashes: &mut Hashes,
    key: Value,
    value: Value,
) -> Result<(), Memory>
    requires { Holds hashes.old (hashes_of pairs.old) }
    ensures ok { OnOk result (pairs.new ≡ pairs.old ++ (key, value) ∷ []) }
    ensures err { OnErr result (pairs.new ≡ pairs.old) }
    ensures held { Holds hashes.new (hashes_of pairs.new) }
{
    let hash = key_hash(&key);
    let is_first = pairs.len() == 0;
    pairs.push((key, value))?;
    let known = mem::replace(hashes, Hashes::Unknown);
    let known = if is_first {
        Hashes::Few(Vec::new(alloc))
    } else {
        known
    };
    *hashes = with_hash(alloc, known, hash);
    Ok(())
}

#[tactic(auto, using(crate::proofs::ByHash::hashes_kept))]
fn put_pair(
    alloc: Global,
    object: &mut Object,
    hashes: &mut Hashes,
    key: Value,
    value: Value,
) -> Result<(), Memory>
    requires { Holds hashes.old (hashes_of (pairs_of object.old)) }
    ensures ok { OnOk result (object.new ≡ put_pair key value object.old) }
    ensures err { OnErr result (object.new ≡ object.old) }
    ensures held { Holds hashes.new (hashes_of (pairs_of object.new)) }
{
    match object {
        Object::Dict(pairs, changes) => match place(hashes, &key, pairs.as_slice()) {
            Some(place) => {
                drop(key);
                pairs.set_second(place, value);
                Ok(())
            }
            None => {
                push_pair(alloc, pairs, hashes, key, value)?;
                *changes = changes.saturating_add(1);
                Ok(())
            }
        },
        _ => {
            drop(key);
            drop(value);
            Ok(())
        }
    }
}

#[tactic(auto, using(crate::proofs::ByHash::hashes_removed))]
fn delete_pair(object: &mut Object, hashes: &mut Hashes, key: &Value) -> Op<Value>
    requires { Holds hashes.old (hashes_of (pairs_of object.old)) }
    ensures pair { DoesFree (delete_pair key.now) object.old result object.new }
    ensures held { Holds hashes.new (hashes_of (pairs_of object.new)) }
{
    match object {
        Object::Dict(pairs, changes) => match place(hashes, key, pairs.as_slice()) {
            Some(place) if place < pairs.len() => {
                let (key, value) = pairs.remove(place);
                drop(key);
                without_hash(hashes, place);
                *changes = changes.saturating_add(1);
                Op::Done(value)
            }
            _ => Op::Raises(BuiltClass::KeyError),
        },
        _ => Op::Raises(BuiltClass::KeyError),
    }
}
