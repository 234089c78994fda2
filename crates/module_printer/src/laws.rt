// The law of a module's lines.
ghost use Rattle.module_printer.specs.Modules.{LinesAreRows};

/// The lines of a module, without the empty ones, are those that `py_layout` defines for it.
#[tactic(auto, using(crate::proofs::RowsBack::lines_are_rows))]
pub fn law_of_lines()
    ensures { LinesAreRows }
{}
