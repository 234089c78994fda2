// Hashes of keys. They find a key's place in a dict, where the key itself is then compared: a hash needs to be the
// same for keys that are the same, and is worth the more, the seldomer it is for others.
ghost use Rattle.std.specs.Prelude.{◌≡◌, map};
ghost use Rattle.py_meaning.specs.declared.value.Value.{out-Value};
ghost use Rattle.py_objects.specs.Hashes.{mixed, hash_of_number, hash_of_size, hash_of_class, hash_of_counted, hash_of_single, hash_of_parts, key_hash};

use crate::Value;
use crate::same::{number, place_of_class};
use pyn_base::{ClassId, PyInt};

/// 2^64 over the golden ratio, of which small multiples lie far apart.
const SPREAD: u64 = 11_400_714_819_323_198_485;

#[tactic(auto, unfolding(crate::specs::Hashes::mixed))]
fn mixed(hash: u64, part: u64) -> u64
    ensures { result ≡ mixed hash part }
{
    hash.wrapping_mul(SPREAD).wrapping_add(part)
}

#[tactic(auto, unfolding(crate::specs::Hashes::hash_of_size))]
fn hash_of_size(sign: u64, size: u128) -> u64
    ensures { result ≡ hash_of_size sign size }
{
    let high = (size / (1 << 64)) as u64;
    let low = (size % (1 << 64)) as u64;
    mixed(mixed(sign, high), low)
}

fn hash_of_number(n: PyInt) -> u64
    ensures { result ≡ hash_of_number n }
{
    let n = n.get();
    if n >= 0 {
        hash_of_size(3, n as u128)
    } else {
        hash_of_size(4, (-(n + 1)) as u128)
    }
}

fn hash_of_class(class: ClassId) -> u64
    ensures { result ≡ hash_of_class class }
{
    match class {
        ClassId::Built(class) => mixed(5, place_of_class(class) as u64),
        ClassId::Own(class) => mixed(6, class as u64),
    }
}

fn hash_of_counted(n: Option<PyInt>) -> u64
    ensures { result ≡ hash_of_counted n }
{
    match n {
        Some(n) => hash_of_number(n),
        None => 0,
    }
}

#[tactic(auto, using(py_meaning::specs::Folds::views))]
fn hash_of_single(value: &Value) -> u64
    ensures { result ≡ hash_of_single (out-Value value.now) }
{
    match value {
        Value::Ref(id) => mixed(7, id.0),
        Value::Class(class) => hash_of_class(*class),
        Value::Func(func) => mixed(8, func.0 as u64),
        _ => hash_of_counted(number(value)),
    }
}

fn hash_of_text(text: &[char]) -> u64
    ensures { result ≡ hash_of_parts 1 text.now }
{
    let mut hash = 1;
    for c in text {
        hash = mixed(hash, *c as u64);
    }
    hash
}

/// A key's hash, at the time of the key's cost.
#[cycle(key_hash)]
#[tactic(auto, using(crate::proofs::SameHash::hash_out, py_meaning::specs::Folds::views))]
pub(crate) fn key_hash(key: &Value) -> u64
    ensures { result ≡ key_hash key.now }
{
    match key {
        Value::Str(s) => hash_of_text(s.as_slice()),
        Value::Tuple(tuple) => hash_of_tuple(tuple.as_slice()),
        _ => hash_of_single(key),
    }
}

#[cycle(key_hash)]
fn hash_of_tuple(parts: &[Value]) -> u64
    ensures { result ≡ hash_of_parts 2 (map key_hash parts.now) }
{
    let mut hash = 2;
    for part in parts {
        hash = mixed(hash, key_hash(part));
    }
    hash
}
