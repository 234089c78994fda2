// The words by example: a module of one function that returns 1, and one of two functions.
ghost use Rattle.std.specs.Prelude.{◌≡◌, Some, None, true, [], ◌∷◌, length, map, codes};
ghost use Rattle.pyn_model.specs.declared.report.TestLine.TheVariants.{Passes, OutOfSteps};
ghost use Rattle.pyn_model.specs.Examples.{one, two, one_suite, two_suite, one_text};
ghost use Rattle.pyn_model.specs.Goals.{goals_of};
ghost use Rattle.pyn_model.specs.SuiteText.{suite_text};
ghost use Rattle.pyn_model.specs.SuiteRead.{suite_of, call_case};
ghost use Rattle.pyn_model.specs.FileRun.{run_case};
ghost use Rattle.pyn_model.specs.Judged.{judged, goals_taken};
ghost use Rattle.pyn_model.specs.Report.{report_text};

/// The words by example.
pub fn suites_by_example()
    ensures written { suite_text one one_suite ≡ one_text }
    ensures read { suite_of one one_text ≡ Some one_suite }
    ensures another_number { suite_of one (codes "import pytest\nimport one as module_0\n\n\ndef test_case_1():\n    var_0 = module_0.f()\n") ≡ None }
    ensures no_such_function { suite_of one (codes "import pytest\nimport one as module_0\n\n\ndef test_case_0():\n    var_0 = module_0.g()\n") ≡ None }

    // A call costs six steps: the assignment, the call, the module's name, the function, its `return` and the literal.
    ensures six_steps { run_case one 6 (call_case 0 0) ≡ record { outcome = Passes; trail = 0 ∷ 1 ∷ 2 ∷ [] } }
    ensures five_steps { run_case one 5 (call_case 0 0) ≡ record { outcome = OutOfSteps 6; trail = 0 ∷ 1 ∷ [] } }
    ensures second_function { run_case two 6 (call_case 1 1) ≡ record { outcome = Passes; trail = 3 ∷ 4 ∷ 5 ∷ [] } }

    ensures goals { length (goals_of two) ≡ 4 }
    ensures all_taken { goals_taken two 6 two_suite.cases ≡ 4 }
    ensures some_taken { goals_taken two 6 (call_case 0 1 ∷ []) ≡ 2 }
    ensures minimal { (judged two two_suite 6 0).minimal ≡ true }
    ensures twice { (judged one record { «module» = codes "one"; cases = call_case 0 0 ∷ call_case 1 0 ∷ [] } 6 0).minimal ≡ Rattle.std.specs.Prelude.false }

    ensures report { report_text (judged one one_suite 20000 0) ≡ codes "pynguin report 1\nmodule one\nsteps 20000\nmutants 0\ntest 0 passes\ngoal 0 entry 1 covered 0\ngoal 1 line 2 covered 0\ngoals 2 of 2\nkills 0 of 0\nminimal yes\n" }
{}
