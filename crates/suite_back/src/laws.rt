// What a file that shows a suite is read as.
ghost use Rattle.suite_back.specs.Laws.{ShownIsRead};

/// A file that shows a printable suite is read as that suite, with the lines of its text.
pub fn law_of_shown_suites()
    ensures { ShownIsRead }
{}
