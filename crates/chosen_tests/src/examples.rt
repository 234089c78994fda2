// Small lists of gains.
ghost use Rattle.chosen_tests.specs.Examples.{FirstIsLeftOut, FirstOfTwo, LastIsLeftOut, MayNotBeTaken, NothingNewIsLeftOut};

/// What is chosen of small lists.
pub fn chosen_by_example()
    ensures first { FirstIsLeftOut }
    ensures nothing_new { NothingNewIsLeftOut }
    ensures first_of_two { FirstOfTwo }
    ensures last { LastIsLeftOut }
    ensures may_not { MayNotBeTaken }
{}
