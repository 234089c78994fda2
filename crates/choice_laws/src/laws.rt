// What holds of chosen tests, and of the suite that they make, as clauses of a function that does nothing.
ghost use Rattle.choice_laws.specs.Laws.{ChosenAreTheirOwn, ChosenIsMinimal, EachNeeded, NothingMissing};

use case_laws::{laws_of_cases, laws_of_files};

/// One of the chosen tests gains a goal exactly where some test of the list does that a file can show. Each of them gains a goal that no other
/// one of them gains. A suite of them without assertions, on any lines, is minimal, whatever mutants are asked for. And there is such a suite:
/// what is kept of each, all on one line.
pub fn laws_of_choices()
    ensures missing { NothingMissing }
    ensures needed { EachNeeded }
    ensures minimal { ChosenIsMinimal }
    ensures own { ChosenAreTheirOwn }
{
    laws_of_cases();
    laws_of_files();
}
