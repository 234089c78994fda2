// The lines of the head and of the end, in a text.
ghost use Rattle.std.specs.Prelude.{◌≡◌, ◌<◌, ◌^◌, length};
ghost use Rattle.report_model.specs.LineForms.{title_of, module_of, steps_of, cap_of, total_of, minimal_of};
ghost use Rattle.report_model.specs.ReportRead.{next};
ghost use Rattle.report_model.specs.ReportText.{current};
ghost use Rattle.suite_report.specs.Places.{place, HasRoom, GivesNext};

use crate::cursor::{Cursor, next_line, refusal_by};
use crate::fault::Fault;
use crate::head_lines::{cap_of, minimal_of, module_of, steps_of, title_of, total_of};
use crate::refusal::ReportRefusal;
use pyn_base::Name;
use std::alloc::Global;

/// The title, on the first line.
pub fn title_at(at: Cursor) -> Result<(u32, Cursor), ReportRefusal>
    requires first { at.number ≡ 1 }
    requires fits { length at.rest.now < 2 ^ 64 }
    ensures { GivesNext (λ x. x) at.entry result (next (title_of current) (place at.entry)) }
{
    let Some((line, after)) = next_line(at) else {
        return Err(refusal_by(at.number, Fault::Form));
    };
    match title_of(line) {
        Ok(version) => Ok((version, after)),
        Err(fault) => Err(refusal_by(at.number, fault)),
    }
}

/// The line of the module.
pub fn module_at(alloc: Global, at: Cursor) -> Result<(Name, Cursor), ReportRefusal>
    requires { HasRoom at }
    ensures { GivesNext (λ x. x) at.entry result (next module_of (place at.entry)) }
{
    let Some((line, after)) = next_line(at) else {
        return Err(refusal_by(at.number, Fault::Form));
    };
    match module_of(alloc, line) {
        Ok(name) => Ok((name, after)),
        Err(fault) => Err(refusal_by(at.number, fault)),
    }
}

/// The line of the steps.
pub fn steps_at(at: Cursor) -> Result<(u32, Cursor), ReportRefusal>
    requires { HasRoom at }
    ensures { GivesNext (λ x. x) at.entry result (next steps_of (place at.entry)) }
{
    let Some((line, after)) = next_line(at) else {
        return Err(refusal_by(at.number, Fault::Form));
    };
    match steps_of(line) {
        Ok(steps) => Ok((steps, after)),
        Err(fault) => Err(refusal_by(at.number, fault)),
    }
}

/// The line of the most mutants that are listed.
pub fn cap_at(at: Cursor) -> Result<(u32, Cursor), ReportRefusal>
    requires { HasRoom at }
    ensures { GivesNext (λ x. x) at.entry result (next cap_of (place at.entry)) }
{
    let Some((line, after)) = next_line(at) else {
        return Err(refusal_by(at.number, Fault::Form));
    };
    match cap_of(line) {
        Ok(cap) => Ok((cap, after)),
        Err(fault) => Err(refusal_by(at.number, fault)),
    }
}

/// The line of a total.
pub fn total_at<'t>(word: &[u8], at: Cursor<'t>) -> Result<((u32, u32), Cursor<'t>), ReportRefusal>
    requires { HasRoom at }
    ensures { GivesNext (λ x. (x.0, x.1)) at.entry result (next (total_of word.now) (place at.entry)) }
{
    let Some((line, after)) = next_line(at) else {
        return Err(refusal_by(at.number, Fault::Form));
    };
    match total_of(word, line) {
        Ok(total) => Ok((total, after)),
        Err(fault) => Err(refusal_by(at.number, fault)),
    }
}

/// The line that says whether the suite is minimal.
pub fn minimal_at(at: Cursor) -> Result<(bool, Cursor), ReportRefusal>
    requires { HasRoom at }
    ensures { GivesNext (λ x. x) at.entry result (next minimal_of (place at.entry)) }
{
    let Some((line, after)) = next_line(at) else {
        return Err(refusal_by(at.number, Fault::Form));
    };
    match minimal_of(line) {
        Ok(minimal) => Ok((minimal, after)),
        Err(fault) => Err(refusal_by(at.number, fault)),
    }
}
