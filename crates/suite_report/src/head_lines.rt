// The lines of a report's head and of its end.
ghost use Rattle.std.specs.Prelude.{◌≡◌, codes};
ghost use Rattle.report_model.specs.LineForms.{title_of, module_of, steps_of, cap_of, total_of, minimal_of};
ghost use Rattle.report_model.specs.ReportText.{current};
ghost use Rattle.suite_report.specs.Gives.{Gives};

use crate::fault::Fault;
use crate::fields::{after, is, name_of, number_at, number_of};
use pyn_base::Name;
use std::alloc::Global;

/// The version of the format.
pub fn title_of(line: &[u8]) -> Result<u32, Fault>
    ensures { Gives (λ x. x) result (title_of current line.now) }
{
    if !is(line, b"pynguin report 1") {
        return Err(Fault::Form);
    }
    Ok(1)
}

/// The module.
#[tactic(auto, unfolding(report_model::specs::LineForms::module_of))]
pub fn module_of(alloc: Global, line: &[u8]) -> Result<Name, Fault>
    ensures { Gives (λ x. x) result (module_of line.now) }
{
    let rest = after(b"module", line)?;
    name_of(alloc, rest)
}

/// The steps of a statement.
#[tactic(auto, unfolding(report_model::specs::LineForms::steps_of))]
pub fn steps_of(line: &[u8]) -> Result<u32, Fault>
    ensures { Gives (λ x. x) result (steps_of line.now) }
{
    let rest = after(b"steps", line)?;
    number_of(rest)
}

/// The most mutants that are listed.
#[tactic(auto, unfolding(report_model::specs::LineForms::cap_of))]
pub fn cap_of(line: &[u8]) -> Result<u32, Fault>
    ensures { Gives (λ x. x) result (cap_of line.now) }
{
    let rest = after(b"mutants", line)?;
    number_of(rest)
}

/// The two numbers of a total.
#[tactic(auto, unfolding(report_model::specs::LineForms::total_of))]
pub fn total_of(word: &[u8], line: &[u8]) -> Result<(u32, u32), Fault>
    ensures { Gives (λ x. (x.0, x.1)) result (total_of word.now line.now) }
{
    let rest = after(word, line)?;
    let (some, rest) = number_at(rest)?;
    let rest = after(b"of", rest)?;
    let all = number_of(rest)?;
    Ok((some, all))
}

/// Whether the suite is minimal.
#[tactic(auto, unfolding(report_model::specs::LineForms::minimal_of))]
pub fn minimal_of(line: &[u8]) -> Result<bool, Fault>
    ensures { Gives (λ x. x) result (minimal_of line.now) }
{
    if is(line, b"minimal yes") {
        return Ok(true);
    }
    if is(line, b"minimal no") {
        return Ok(false);
    }
    Err(Fault::Form)
}
