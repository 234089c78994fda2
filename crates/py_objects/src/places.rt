// Places in a list: of an index, of an insertion, of a name.
ghost use Rattle.std.specs.Prelude.{◌≡◌};
ghost use Rattle.py_meaning.specs.Operations.{index_place, insert_place, attribute_place};

use py_meaning::Value;
use pyn_base::{Name, PyInt};

/// The place that an index means among so many, below 0 from the end.
pub fn index_place(at: PyInt, count: usize) -> Option<usize>
    ensures { result ≡ index_place at count }
{
    let at = at.get();
    if at >= 0 {
        if at < count as i128 {
            Some(at as usize)
        } else {
            None
        }
    } else if at >= -(count as i128) {
        Some((at + count as i128) as usize)
    } else {
        None
    }
}

/// The place at which an insertion at an index puts its item.
pub fn insert_place(at: PyInt, count: usize) -> usize
    ensures { result ≡ insert_place at count }
{
    let at = at.get();
    if at >= count as i128 {
        count
    } else if at >= 0 {
        at as usize
    } else if at >= -(count as i128) {
        (at + count as i128) as usize
    } else {
        0
    }
}

pub(crate) fn attribute_place(attributes: &[(Name, Value)], name: &Name) -> Option<usize>
    ensures { result ≡ attribute_place name.now attributes.now }
{
    attributes
        .iter()
        .position(|attribute| attribute.0.is_same(name))
}
