// The line of a mutant.
ghost use Rattle.std.specs.Prelude.{◌≡◌};
ghost use Rattle.report_model.specs.LineForms.{killed_of, undecided_of, verdict_of, mutant_by, mutant_of};
ghost use Rattle.suite_report.specs.Gives.{Gives};

use crate::fault::Fault;
use crate::fields::{after, after_number, is, number_at, word_at};
use crate::reasons::{cause_of, line_at, reason_of};
use crate::tables::operator_named;
use py_syntax::Line;
use pyn_base::TestId;
use report_model::{MutantLine, Verdict};
use std::alloc::Global;

#[tactic(auto, unfolding(report_model::specs::LineForms::killed_of))]
fn killed_of(alloc: Global, text: &[u8]) -> Result<Verdict, Fault>
    ensures { Gives (λ x. x) result (killed_of text.now) }
{
    let (test, rest) = number_at(text)?;
    let (line, rest) = line_at(rest)?;
    let why = reason_of(alloc, rest)?;
    Ok(Verdict::Killed(TestId(test), line, why))
}

#[tactic(auto, unfolding(report_model::specs::LineForms::undecided_of))]
fn undecided_of(text: &[u8]) -> Result<Verdict, Fault>
    ensures { Gives (λ x. x) result (undecided_of text.now) }
{
    let why = cause_of(text)?;
    Ok(Verdict::Undecided(why))
}

#[tactic(auto, unfolding(report_model::specs::LineForms::verdict_of))]
fn verdict_of(alloc: Global, text: &[u8]) -> Result<Verdict, Fault>
    ensures { Gives (λ x. x) result (verdict_of text.now) }
{
    if is(text, b"survived") {
        return Ok(Verdict::Survived);
    }
    let (word, rest) = word_at(text)?;
    if is(word, b"killed") {
        return killed_of(alloc, rest);
    }
    if is(word, b"undecided") {
        return undecided_of(rest);
    }
    Err(Fault::Form)
}

#[tactic(auto, unfolding(report_model::specs::LineForms::mutant_by))]
fn mutant_by(alloc: Global, text: &[u8]) -> Result<MutantLine, Fault>
    ensures { Gives (λ x. x) result (mutant_by text.now) }
{
    let (word, rest) = word_at(text)?;
    let op = operator_named(word)?;
    let (number, rest) = number_at(rest)?;
    let verdict = verdict_of(alloc, rest)?;
    Ok(MutantLine {
        op,
        line: Line::from(number),
        verdict,
    })
}

/// What the line of this mutant says.
#[tactic(auto, unfolding(report_model::specs::LineForms::mutant_of))]
pub fn mutant_of(alloc: Global, number: usize, line: &[u8]) -> Result<MutantLine, Fault>
    ensures { Gives (λ x. x) result (mutant_of number line.now) }
{
    let rest = after(b"mutant", line)?;
    let rest = after_number(number, rest)?;
    mutant_by(alloc, rest)
}
