// What holds of the goals that runs take.
ghost use Rattle.goal_laws.specs.Laws.{GovernorsComeFirst, RunsTakeParents, KeptTakesParents, TestsTakeParents, ReadTestsTakeParents};

use line_laws::laws_of_lines;
use py_sites::{laws_of_nodes, laws_of_numbered, laws_of_numbering};

/// Whatever statements a test has, and with however many steps: each statement of the module that begins, and each decision, comes after what
/// governs it. That asks nothing of lines.
pub fn laws_of_governors()
    ensures first { GovernorsComeFirst }
{
    laws_of_nodes();
    laws_of_numbered();
}

/// Whatever statements a test has, and with however many steps: each goal that the trail of its run takes has a parent that the trail takes
/// too, or none; and so has each goal that the kept statements take.
pub fn laws_of_trails()
    ensures runs { RunsTakeParents }
    ensures kept { KeptTakesParents }
{
    laws_of_nodes();
    laws_of_numbered();
}

/// The same of what is kept of a test: its gains have their parents among them. Of a module that was read nothing else is asked.
pub fn laws_of_taken_goals()
    ensures tests { TestsTakeParents }
    ensures read { ReadTestsTakeParents }
{
    laws_of_lines();
    laws_of_nodes();
    laws_of_numbered();
    laws_of_numbering();
}
