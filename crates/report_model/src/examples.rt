// Reports by example.
ghost use Rattle.std.specs.Prelude.{◌≡◌, ◌++◌, Ok, Err, codes};
ghost use Rattle.report_model.specs.Examples.{sample, head, body, sample_text, empty_end};
ghost use Rattle.report_model.specs.ReportText.{report_text};
ghost use Rattle.report_model.specs.ReportRead.{read_report};

/// The text of a report.
pub fn written_by_example()
    ensures written { report_text sample ≡ sample_text }
{}

/// A text is read to the report that it was written from; its totals are read and not counted.
pub fn read_by_example()
    ensures read { read_report sample_text ≡ Ok sample }
    ensures other_totals { read_report (head ++ body ++ codes "goals 3 of 0\nkills 4294967295 of 7\nminimal no\n") ≡ Ok sample }
{}

/// The first line is refused with which no report goes on; of a text that is cut, the line after the last whole one.
pub fn refused_by_example()
    ensures empty { read_report (codes "") ≡ Err 1 }
    ensures another_version { read_report (codes "pynguin report 9\nmodule box\n") ≡ Err 1 }
    ensures no_name { read_report (codes "pynguin report 1\nmodule 2box\nsteps 1\n") ≡ Err 2 }
    ensures leading_zero { read_report (codes "pynguin report 1\nmodule box\nsteps 01\n") ≡ Err 3 }
    ensures too_large { read_report (codes "pynguin report 1\nmodule box\nsteps 1\nmutants 4294967296\n") ≡ Err 4 }
    ensures another_number { read_report (head ++ codes "test 1 passes\n" ++ empty_end) ≡ Err 5 }
    ensures no_construct { read_report (head ++ codes "test 0 stopped line 7 left the room\n") ≡ Err 5 }
    ensures test_after_a_goal { read_report (head ++ codes "goal 0 entry 1 missed\ntest 0 passes\n" ++ empty_end) ≡ Err 6 }
    ensures two_spaces { read_report (head ++ codes "goal 0 line  1 missed\n" ++ empty_end) ≡ Err 5 }
    ensures is_cut { read_report (head ++ codes "goal 0 line 1 missed\n") ≡ Err 6 }
    ensures maybe_minimal { read_report (head ++ codes "goals 0 of 0\nkills 0 of 0\nminimal maybe\n") ≡ Err 7 }
    ensures no_line_feed { read_report (head ++ codes "goals 0 of 0\nkills 0 of 0\nminimal yes") ≡ Err 7 }
    ensures more_after_the_end { read_report (head ++ empty_end ++ codes "end\n") ≡ Err 8 }
    ensures more_without_a_line_feed { read_report (head ++ empty_end ++ codes "end") ≡ Err 8 }
{}
