// Reading a module: its text is read by the grammar, judged by acceptance, and then has to have the first form.
ghost use Rattle.std.specs.Prelude.{◌≡◌};
ghost use Rattle.py_syntax.specs.Gives.{Gives};
ghost use Rattle.pynguin_job.specs.Reading.{module_in};

use py_accept::module_fault;
use py_first_form::read_first;
use py_parser::read_module;
use py_syntax::{Module, Refusal};
use pyn_base::Construct;
use std::alloc::Global;

/// The most bytes of a module.
pub const MODULE_LIMIT: u64 = 262_144;

/// The module of a text. It is refused as `too long`, at line 1, where it has more than `MODULE_LIMIT` bytes; by the grammar; by
/// acceptance; and, last, as `form`, where it hasn't the first form.
pub fn module_in(alloc: Global, text: &[u8]) -> Result<Module, Refusal>
    ensures { Gives result (module_in text.now) }
{
    if text.len() as u64 > MODULE_LIMIT {
        return Err(Refusal::Refused {
            line: 1,
            construct: Construct::TooLong,
        });
    }
    let tree = read_module(alloc, text)?;
    if let Some((line, construct)) = module_fault(alloc, &tree)? {
        return Err(Refusal::Refused { line, construct });
    }
    read_first(alloc, text)
}
