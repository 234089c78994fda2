// Lists with commas.
ghost use Rattle.std.specs.Prelude.{◌≡◌, map, true, OnOk};
ghost use Rattle.py_layout.specs.Headers.{lone};
ghost use Rattle.py_printer.specs.Style.{write};
ghost use Rattle.module_printer.specs.Lines.{comma as comma_tokens, commas, tuple_end};

use py_language::Mark;
use py_printer::Pen;
use pyn_base::{Memory, Name};

/// Adds a comma, but before the first of a list.
pub fn comma(pen: &mut Pen, first: bool) -> Result<(), Memory>
    ensures { OnOk result (pen.new ≡ write pen.old (comma_tokens first)) }
{
    if first { Ok(()) } else { pen.mark(Mark::Comma) }
}

/// Adds the comma after the only part of a tuple.
pub fn end_tuple(pen: &mut Pen, is_tuple: bool, count: usize) -> Result<(), Memory>
    ensures { OnOk result (pen.new ≡ write pen.old (tuple_end is_tuple count)) }
{
    if is_tuple && count == 1 {
        pen.mark(Mark::Comma)
    } else {
        Ok(())
    }
}

/// Adds names with commas between them.
pub fn names(pen: &mut Pen, all: &[Name]) -> Result<(), Memory>
    ensures { OnOk result (pen.new ≡ write pen.old (commas true (map lone all.now))) }
{
    let mut first = true;
    for name in all {
        comma(pen, first)?;
        pen.name(name)?;
        first = false;
    }
    Ok(())
}
