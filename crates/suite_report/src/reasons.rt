// Why a test fails or stops.
ghost use Rattle.std.specs.Prelude.{◌≡◌};
ghost use Rattle.report_model.specs.LineForms.{raised_of, reason_of, left_of, cause_of, line_at};
ghost use Rattle.suite_report.specs.Gives.{Gives};

use crate::fault::Fault;
use crate::fields::{after, class_of, is, number_at};
use crate::tables::construct_named;
use py_syntax::Line;
use report_model::{Cause, ShownReason};
use std::alloc::Global;

#[tactic(auto, unfolding(report_model::specs::LineForms::raised_of))]
fn raised_of(alloc: Global, text: &[u8]) -> Result<ShownReason, Fault>
    ensures { Gives (λ x. x) result (raised_of text.now) }
{
    let rest = after(b"raised", text)?;
    let class = class_of(alloc, rest)?;
    Ok(ShownReason::Raised(class))
}

/// Why a test fails.
#[tactic(auto, unfolding(report_model::specs::LineForms::reason_of))]
pub fn reason_of(alloc: Global, text: &[u8]) -> Result<ShownReason, Fault>
    ensures { Gives (λ x. x) result (reason_of text.now) }
{
    if is(text, b"assert") {
        return Ok(ShownReason::Assert);
    }
    if is(text, b"not raised") {
        return Ok(ShownReason::NotRaised);
    }
    raised_of(alloc, text)
}

#[tactic(auto, unfolding(report_model::specs::LineForms::left_of))]
fn left_of(text: &[u8]) -> Result<Cause, Fault>
    ensures { Gives (λ x. x) result (left_of text.now) }
{
    let rest = after(b"left", text)?;
    let construct = construct_named(rest)?;
    Ok(Cause::Left(construct))
}

/// Why a test stops.
#[tactic(auto, unfolding(report_model::specs::LineForms::cause_of))]
pub fn cause_of(text: &[u8]) -> Result<Cause, Fault>
    ensures { Gives (λ x. x) result (cause_of text.now) }
{
    if is(text, b"steps") {
        return Ok(Cause::Steps);
    }
    left_of(text)
}

/// A line's number, and what is after it.
#[tactic(auto, unfolding(report_model::specs::LineForms::line_at))]
pub fn line_at(text: &[u8]) -> Result<(Line, &[u8]), Fault>
    ensures { Gives (λ x. (x.0, x.1.now)) result (line_at text.now) }
{
    let rest = after(b"line", text)?;
    let (number, rest) = number_at(rest)?;
    Ok((Line::from(number), rest))
}
