// The lines of tests and goals.
ghost use Rattle.std.specs.Prelude.{◌≡◌, ◌++◌, OnOk, codes, decimal};
ghost use Rattle.pyn_base.specs.Construct.{text_of};
ghost use Rattle.pyn_model.specs.Report.{end_text, kind_text, cover_text, test_text, goal_text};

use py_syntax::Line;
use pyn_base::{Construct, Memory, TestId, Text};
use pyn_model::{GoalKind, GoalLine, TestLine};

fn write_stop(text: &mut Text, line: Line) -> Result<(), Memory>
    ensures { OnOk result (text.new ≡ text.old ++ codes "stopped line " ++ decimal line) }
{
    text.push_ascii(b"stopped line ")?;
    text.push_number(line)?;
    Ok(())
}

fn write_left(text: &mut Text, construct: Construct) -> Result<(), Memory>
    ensures { OnOk result (text.new ≡ text.old ++ codes " left " ++ text_of construct) }
{
    text.push_ascii(b" left ")?;
    text.push_str(construct.text())?;
    Ok(())
}

fn write_end(text: &mut Text, test: TestLine) -> Result<(), Memory>
    ensures { OnOk result (text.new ≡ text.old ++ end_text test) }
{
    match test {
        TestLine::Passes => text.push_ascii(b"passes")?,
        TestLine::OutOfSteps(line) => {
            write_stop(text, line)?;
            text.push_ascii(b" steps")?;
        }
        TestLine::Left(line, construct) => {
            write_stop(text, line)?;
            write_left(text, construct)?;
        }
    }
    Ok(())
}

fn write_kind(text: &mut Text, kind: GoalKind) -> Result<(), Memory>
    ensures { OnOk result (text.new ≡ text.old ++ kind_text kind) }
{
    match kind {
        GoalKind::Entry => text.push_ascii(b"entry")?,
        GoalKind::Reached => text.push_ascii(b"line")?,
    }
    Ok(())
}

fn write_cover(text: &mut Text, by: Option<TestId>) -> Result<(), Memory>
    ensures { OnOk result (text.new ≡ text.old ++ cover_text by) }
{
    match by {
        None => text.push_ascii(b"missed")?,
        Some(test) => {
            text.push_ascii(b"covered ")?;
            text.push_number(test.0 as u64)?;
        }
    }
    Ok(())
}

/// Adds the line of a test.
pub fn write_test(text: &mut Text, number: u64, test: TestLine) -> Result<(), Memory>
    ensures { OnOk result (text.new ≡ text.old ++ test_text number test) }
{
    text.push_ascii(b"test ")?;
    text.push_number(number)?;
    text.push_ascii(b" ")?;
    write_end(text, test)?;
    text.push_ascii(b"\n")?;
    Ok(())
}

/// Adds the line of a goal.
pub fn write_goal(text: &mut Text, number: u64, goal: GoalLine) -> Result<(), Memory>
    ensures { OnOk result (text.new ≡ text.old ++ goal_text number goal) }
{
    text.push_ascii(b"goal ")?;
    text.push_number(number)?;
    text.push_ascii(b" ")?;
    write_kind(text, goal.kind)?;
    text.push_ascii(b" ")?;
    text.push_number(goal.line)?;
    text.push_ascii(b" ")?;
    write_cover(text, goal.by)?;
    text.push_ascii(b"\n")?;
    Ok(())
}
