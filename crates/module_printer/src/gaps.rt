// Empty lines between the parts of a module or a class (PEP 8).
ghost use Rattle.std.specs.Prelude.{◌≡◌};
ghost use Rattle.module_printer.specs.Modules.{gap, item_part, member_part};

use py_syntax::{Item, Member};

/// What a part of a module or a class is, to the parts next to it.
#[derive(Clone, Copy)]
pub enum Part {
    /// A function or a class.
    Definition,
    Plain,
}

/// What a part of a module is.
pub fn item_part(x: &Item) -> Part
    ensures { result ≡ item_part x.now }
{
    match x {
        Item::Func(_) => Part::Definition,
        Item::Class(_) => Part::Definition,
        Item::Import(_, _) => Part::Plain,
        Item::Other(_) => Part::Plain,
    }
}

/// What a part of a class is.
pub fn member_part(x: &Member) -> Part
    ensures { result ≡ member_part x.now }
{
    match x {
        Member::Func(_) => Part::Definition,
        Member::Other(_) => Part::Plain,
    }
}

/// How many empty lines come before a part after another, where so many are before and after definitions.
pub fn gap(wide: usize, last: Option<Part>, this: Part) -> usize
    ensures { result ≡ gap wide last this }
{
    match (last, this) {
        (None, _) => 0,
        (Some(Part::Plain), Part::Plain) => 0,
        _ => wide,
    }
}
