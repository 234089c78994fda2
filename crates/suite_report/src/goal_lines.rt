// The line of a goal.
ghost use Rattle.std.specs.Prelude.{◌≡◌};
ghost use Rattle.report_model.specs.LineForms.{covered_of, cover_of, goal_by, goal_of};
ghost use Rattle.suite_report.specs.Gives.{Gives};

use crate::fault::Fault;
use crate::fields::{after, after_number, is, number_at, number_of, word_at};
use crate::tables::kind_named;
use py_syntax::Line;
use pyn_base::TestId;
use report_model::GoalLine;

#[tactic(auto, unfolding(report_model::specs::LineForms::covered_of))]
fn covered_of(text: &[u8]) -> Result<Option<TestId>, Fault>
    ensures { Gives (λ x. x) result (covered_of text.now) }
{
    let rest = after(b"covered", text)?;
    let number = number_of(rest)?;
    Ok(Some(TestId(number)))
}

#[tactic(auto, unfolding(report_model::specs::LineForms::cover_of))]
fn cover_of(text: &[u8]) -> Result<Option<TestId>, Fault>
    ensures { Gives (λ x. x) result (cover_of text.now) }
{
    if is(text, b"missed") {
        return Ok(None);
    }
    covered_of(text)
}

#[tactic(auto, unfolding(report_model::specs::LineForms::goal_by))]
fn goal_by(text: &[u8]) -> Result<GoalLine, Fault>
    ensures { Gives (λ x. x) result (goal_by text.now) }
{
    let (word, rest) = word_at(text)?;
    let kind = kind_named(word)?;
    let (number, rest) = number_at(rest)?;
    let by = cover_of(rest)?;
    Ok(GoalLine {
        kind,
        line: Line::from(number),
        by,
    })
}

/// What the line of this goal says.
#[tactic(auto, unfolding(report_model::specs::LineForms::goal_of))]
pub fn goal_of(number: usize, line: &[u8]) -> Result<GoalLine, Fault>
    ensures { Gives (λ x. x) result (goal_of number line.now) }
{
    let rest = after(b"goal", line)?;
    let rest = after_number(number, rest)?;
    goal_by(rest)
}
