// Writing and reading agree.
ghost use Rattle.report_model.specs.Laws.{ReadsBack, IsSpelled, RefusesFirst};

/// A report's text is read back to it, and what is read is a report's text but for its totals.
pub fn laws_of_reports()
    ensures reads_back { ReadsBack }
    ensures spelled { IsSpelled }
{}

/// The line that is refused is the first with which no report's text goes on.
pub fn law_of_refusals()
    ensures refuses_first { RefusesFirst }
{}
