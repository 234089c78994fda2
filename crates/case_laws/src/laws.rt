// Laws of kept tests in a suite, as clauses of functions that do nothing.
ghost use Rattle.case_laws.specs.Laws.{AbruptAlone, CasesOfKept, CasesOfThemselves, FileOfKept, FirstToGain, GainsAreTaken, KeptPasses, KeptTrail, OwnReport};

use crate::recorded::Recorded;
use py_plain::laws_of_meaning;

/// An assignment to a name that ends abruptly, and its right side alone: both end in the same way. `W` is what a watcher keeps.
pub fn laws_of_abrupt_ends<W>()
    ensures { AbruptAlone W }
{
    laws_of_meaning::<W, W>();
}

/// What is kept of a test, as a test of a suite, on any lines: it passes, and its trail is the one that is kept. So it takes a goal exactly
/// where the goal's number is among the gains. Of its own steps all are kept.
pub fn laws_of_cases()
    ensures cases { CasesOfKept }
    ensures themselves { CasesOfThemselves }
    ensures passes { KeptPasses }
    ensures trail { KeptTrail }
    ensures gains { GainsAreTaken }
{
    laws_of_abrupt_ends::<Recorded>();
}

/// A file of such tests: each passes, with the trail that is kept; the first to take a goal is the first that gains it; and a check of the
/// suite with its own report says yes.
pub fn laws_of_files()
    ensures file { FileOfKept }
    ensures first { FirstToGain }
    ensures own_report { OwnReport }
{
    laws_of_abrupt_ends::<Recorded>();
}
