// A whole report.
ghost use Rattle.std.specs.Prelude.{◌≡◌, ◌<◌, ◌^◌, ℕ, length, Ok, IfOk};
ghost use Rattle.report_model.specs.ReportRead.{head_at, end_at, report_at, read_report};
ghost use Rattle.report_model.specs.declared.report.Report.{Report};
ghost use Rattle.report_model.specs.Fits.{Fits, FitsTotals};
ghost use Rattle.report_model.specs.ReportText.{current, Totals, text_with};
ghost use Rattle.suite_report.specs.Heads.{head_view};
ghost use Rattle.suite_report.specs.Places.{place, left, HasRoom, GivesNext};
ghost use Rattle.suite_report.specs.Refuses.{GivesReport};

use crate::cursor::Cursor;
use crate::refusal::ReportRefusal;
use crate::series::series;
use crate::steps::{cap_at, minimal_at, module_at, steps_at, title_at, total_at};
use pyn_base::Name;
use report_model::{Report, laws_of_reports};
use std::alloc::Global;

/// The head of a report.
#[derive(Drop)]
pub struct Head {
    module: Name,
    steps: u32,
    cap: u32,
}

#[tactic(auto, unfolding(report_model::specs::ReportRead::head_at))]
fn head_at(alloc: Global, at: Cursor) -> Result<(Head, Cursor), ReportRefusal>
    requires first { at.number ≡ 1 }
    requires fits { length at.rest.now < 2 ^ 64 }
    ensures { GivesNext head_view at.entry result (head_at current (place at.entry)) }
{
    let (_, at) = title_at(at)?;
    let (module, at) = module_at(alloc, at)?;
    let (steps, at) = steps_at(at)?;
    let (cap, at) = cap_at(at)?;
    let head = Head { module, steps, cap };
    Ok((head, at))
}

// The end of a report, after which nothing may follow.
#[tactic(auto, unfolding(report_model::specs::ReportRead::end_at))]
fn end_at(at: Cursor) -> Result<bool, ReportRefusal>
    requires { HasRoom at }
    ensures { GivesReport (λ x. x) result (end_at (left at.entry) (place at.entry)) }
{
    let (_, at) = total_at(b"goals", at)?;
    let (_, at) = total_at(b"kills", at)?;
    let (minimal, at) = minimal_at(at)?;
    if !at.rest.is_empty() {
        return Err(ReportRefusal::Refused { line: at.number });
    }
    Ok(minimal)
}

// The lines after the head.
#[tactic(auto, unfolding(report_model::specs::ReportRead::report_at))]
fn report_at(alloc: Global, head: Head, at: Cursor) -> Result<Report, ReportRefusal>
    requires { HasRoom at }
    ensures { GivesReport (λ x. x) result (report_at (left at.entry) (head_view head) (place at.entry)) }
{
    let (tests, at) = series(alloc, at)?;
    let (goals, at) = series(alloc, at)?;
    let (mutants, at) = series(alloc, at)?;
    let minimal = end_at(at)?;
    Ok(Report {
        module: head.module,
        steps: head.steps,
        cap: head.cap,
        tests,
        goals,
        mutants,
        minimal,
    })
}

#[tactic(auto, unfolding(report_model::specs::ReportRead::read_lines, report_model::specs::ReportRead::read_report))]
fn read(alloc: Global, text: &[u8]) -> Result<Report, ReportRefusal>
    ensures { GivesReport (λ x. x) result (read_report text.now) }
{
    let _length = text.len();
    let start = Cursor {
        number: 1,
        rest: text,
    };
    let (head, at) = head_at(alloc, start)?;
    report_at(alloc, head, at)
}

/// The report that a text is.
///
/// # Errors
/// `Refused` with the first line, from 1, with which no report's text goes on.
pub fn read_report(alloc: Global, text: &[u8]) -> Result<Report, ReportRefusal>
    // The report, or the line that is refused, is the defined one.
    ensures exact { GivesReport (λ x. x) result (read_report text.now) }
    // What is read is the text of that report, but for its totals.
    ensures spelled { IfOk result (λ report. Fits report × ((totals : Totals) × FitsTotals totals × (text.now ≡ text_with current totals report))) }
    // The text of a report is read back to it.
    ensures reads_back { (totals : Totals) (report : Report) → FitsTotals totals → Fits report → text.now ≡ text_with current totals report → GivesReport (λ x. x) result (Ok report) }
{
    laws_of_reports();
    read(alloc, text)
}
