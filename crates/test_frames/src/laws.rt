// Laws of frames, as clauses of a function that does nothing.
ghost use Rattle.test_frames.specs.Laws.{FramesAreKept, ImportsAreTests, AssignmentsLeaveTests, ExpressionsLeaveTests};

use py_plain::laws_of_meaning;

/// What expressions and a test's statements leave of the frame that they run in. `W` is what a watcher keeps.
pub fn laws_of_test_frames<W>()
    ensures frames { FramesAreKept W }
    ensures imports { ImportsAreTests W }
    ensures assignments { AssignmentsLeaveTests W }
    ensures expressions { ExpressionsLeaveTests W }
{
    laws_of_meaning::<W, W>();
}
