// The line of a test.
ghost use Rattle.std.specs.Prelude.{◌≡◌};
ghost use Rattle.report_model.specs.LineForms.{fails_of, stopped_of, end_of, test_of};
ghost use Rattle.suite_report.specs.Gives.{Gives};

use crate::fault::Fault;
use crate::fields::{after, after_number, is, word_at};
use crate::reasons::{cause_of, line_at, reason_of};
use report_model::TestLine;
use std::alloc::Global;

#[tactic(auto, unfolding(report_model::specs::LineForms::fails_of))]
fn fails_of(alloc: Global, text: &[u8]) -> Result<TestLine, Fault>
    ensures { Gives (λ x. x) result (fails_of text.now) }
{
    let (line, rest) = line_at(text)?;
    let why = reason_of(alloc, rest)?;
    Ok(TestLine::Fails(line, why))
}

#[tactic(auto, unfolding(report_model::specs::LineForms::stopped_of))]
fn stopped_of(text: &[u8]) -> Result<TestLine, Fault>
    ensures { Gives (λ x. x) result (stopped_of text.now) }
{
    let (line, rest) = line_at(text)?;
    let why = cause_of(rest)?;
    Ok(TestLine::Stopped(line, why))
}

#[tactic(auto, unfolding(report_model::specs::LineForms::end_of))]
fn end_of(alloc: Global, text: &[u8]) -> Result<TestLine, Fault>
    ensures { Gives (λ x. x) result (end_of text.now) }
{
    if is(text, b"passes") {
        return Ok(TestLine::Passes);
    }
    let (word, rest) = word_at(text)?;
    if is(word, b"fails") {
        return fails_of(alloc, rest);
    }
    if is(word, b"stopped") {
        return stopped_of(rest);
    }
    Err(Fault::Form)
}

/// What the line of this test says.
#[tactic(auto, unfolding(report_model::specs::LineForms::test_of))]
pub fn test_of(alloc: Global, number: usize, line: &[u8]) -> Result<TestLine, Fault>
    ensures { Gives (λ x. x) result (test_of number line.now) }
{
    let rest = after(b"test", line)?;
    let rest = after_number(number, rest)?;
    end_of(alloc, rest)
}
