// The names of the functions that were read.
ghost use Rattle.std.specs.Prelude.{◌≡◌, ◌||◌, not, ℕ, List, IfOk, OnOk, IfSome, bytes_eq};
ghost use Rattle.py_first_form.specs.Names.{knows, new_name};

use crate::line::named_by;
use pyn_base::{Memory, Name};
use std::alloc::Global;
use std::collections::BTreeSet;

/// Adds a name, and says whether it is a new one.
fn add<'a>(names: &mut BTreeSet<&'a str>, name: &'a str) -> Result<bool, Memory>
    ensures new { IfOk result (λ new. new ≡ not (knows names.old name.now)) }
    ensures added { OnOk result ((other : List ℕ) → knows names.new other ≡ (bytes_eq name.now other || knows names.old other)) }
{
    Ok(names.insert(name)?)
}

/// The name in a line `def NAME():`, unless it stands among the names already. It is added to them.
pub(crate) fn new_name<'a>(
    alloc: Global,
    names: &mut BTreeSet<&'a str>,
    line: &'a [u8],
) -> Result<Option<Name>, Memory>
    ensures name { IfOk result (λ name. name ≡ new_name names.old line.now) }
    ensures added { IfOk result (λ found. IfSome found (λ name. (other : List ℕ) → knows names.new other ≡ (bytes_eq name other || knows names.old other))) }
{
    let Some(name) = named_by(line) else {
        return Ok(None);
    };
    if add(names, name)? {
        Ok(Some(Name::from_str(alloc, name)?))
    } else {
        Ok(None)
    }
}
