// The lines of tests, goals and mutants as they are written.
ghost use Rattle.std.specs.Prelude.{◌≡◌, ◌∷◌, [], ◌++◌, OnOk, decimal, ℕ, List};
ghost use Rattle.report_model.specs.Lines.{reason_text, cause_text, end_text, kind_text, cover_text, operator_text, verdict_text, test_line, goal_line, mutant_line};
ghost use Rattle.report_model.specs.ReportText.{ended};
ghost use Rattle.report_model.specs.declared.lines.TestLine.TheVariants.{Stopped};

use crate::tables::{kind_text, operator_text};
use py_syntax::Line;
use pyn_base::{Memory, TestId, Text};
use report_model::{
    Cause, GoalLine, MutantLine, Operator, ShownKind, ShownReason, TestLine, Verdict,
};

// A number and a space.
fn write_number(text: &mut Text, number: u64) -> Result<(), Memory>
    ensures { OnOk result (text.new ≡ text.old ++ (decimal number ++ 32 ∷ [])) }
{
    text.push_number(number)?;
    text.push_ascii(b" ")?;
    Ok(())
}

fn write_reason(text: &mut Text, why: &ShownReason) -> Result<(), Memory>
    ensures { OnOk result (text.new ≡ text.old ++ reason_text why.now) }
{
    match why {
        ShownReason::Assert => text.push_ascii(b"assert")?,
        ShownReason::Raised(class) => {
            text.push_ascii(b"raised ")?;
            text.push_str(class.as_str())?;
        }
        ShownReason::NotRaised => text.push_ascii(b"not raised")?,
    }
    Ok(())
}

fn write_cause(text: &mut Text, why: Cause) -> Result<(), Memory>
    ensures { OnOk result (text.new ≡ text.old ++ cause_text why) }
{
    match why {
        Cause::Steps => text.push_ascii(b"steps")?,
        Cause::Left(construct) => {
            text.push_ascii(b"left ")?;
            text.push_str(construct.text())?;
        }
    }
    Ok(())
}

fn write_stopped(text: &mut Text, line: Line, why: Cause) -> Result<(), Memory>
    ensures { OnOk result (text.new ≡ text.old ++ end_text (Stopped line why)) }
{
    text.push_ascii(b"stopped line ")?;
    write_number(text, line)?;
    write_cause(text, why)?;
    Ok(())
}

fn write_end(text: &mut Text, test: &TestLine) -> Result<(), Memory>
    ensures { OnOk result (text.new ≡ text.old ++ end_text test.now) }
{
    match test {
        TestLine::Passes => text.push_ascii(b"passes")?,
        TestLine::Fails(line, why) => {
            text.push_ascii(b"fails line ")?;
            write_number(text, *line)?;
            write_reason(text, why)?;
        }
        TestLine::Stopped(line, why) => write_stopped(text, *line, *why)?,
    }
    Ok(())
}

// A kind and a space.
fn write_kind(text: &mut Text, kind: ShownKind) -> Result<(), Memory>
    ensures { OnOk result (text.new ≡ text.old ++ (kind_text kind ++ 32 ∷ [])) }
{
    text.push_str(kind_text(kind))?;
    text.push_ascii(b" ")?;
    Ok(())
}

// An operator and a space.
fn write_operator(text: &mut Text, operator: Operator) -> Result<(), Memory>
    ensures { OnOk result (text.new ≡ text.old ++ (operator_text operator ++ 32 ∷ [])) }
{
    text.push_str(operator_text(operator))?;
    text.push_ascii(b" ")?;
    Ok(())
}

fn write_cover(text: &mut Text, by: Option<TestId>) -> Result<(), Memory>
    ensures { OnOk result (text.new ≡ text.old ++ cover_text by) }
{
    match by {
        None => text.push_ascii(b"missed")?,
        Some(test) => {
            text.push_ascii(b"covered ")?;
            text.push_number(u64::from(test.0))?;
        }
    }
    Ok(())
}

fn write_verdict(text: &mut Text, verdict: &Verdict) -> Result<(), Memory>
    ensures { OnOk result (text.new ≡ text.old ++ verdict_text verdict.now) }
{
    match verdict {
        Verdict::Killed(test, line, why) => {
            text.push_ascii(b"killed ")?;
            write_number(text, u64::from(test.0))?;
            text.push_ascii(b"line ")?;
            write_number(text, *line)?;
            write_reason(text, why)?;
        }
        Verdict::Survived => text.push_ascii(b"survived")?,
        Verdict::Undecided(why) => {
            text.push_ascii(b"undecided ")?;
            write_cause(text, *why)?;
        }
    }
    Ok(())
}

/// What has a line with its number.
pub trait Written {
    /// The line, without its line feed.
    ghost line: { ℕ → Self → List ℕ };

    /// Adds the line, with its line feed.
    fn write(&self, text: &mut Text, number: u64) -> Result<(), Memory>
        ensures { OnOk result (text.new ≡ text.old ++ ended (line number self.now)) };
}

impl Written for TestLine {
    ghost line = { test_line };

    fn write(&self, text: &mut Text, number: u64) -> Result<(), Memory> {
        text.push_ascii(b"test ")?;
        write_number(text, number)?;
        write_end(text, self)?;
        text.push_ascii(b"\n")?;
        Ok(())
    }
}

impl Written for GoalLine {
    ghost line = { goal_line };

    fn write(&self, text: &mut Text, number: u64) -> Result<(), Memory> {
        text.push_ascii(b"goal ")?;
        write_number(text, number)?;
        write_kind(text, self.kind)?;
        write_number(text, self.line)?;
        write_cover(text, self.by)?;
        text.push_ascii(b"\n")?;
        Ok(())
    }
}

impl Written for MutantLine {
    ghost line = { mutant_line };

    fn write(&self, text: &mut Text, number: u64) -> Result<(), Memory> {
        text.push_ascii(b"mutant ")?;
        write_number(text, number)?;
        write_operator(text, self.op)?;
        write_number(text, self.line)?;
        write_verdict(text, &self.verdict)?;
        text.push_ascii(b"\n")?;
        Ok(())
    }
}
