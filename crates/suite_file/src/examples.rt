// Statements and files, worked out by hand.
ghost use Rattle.suite_file.specs.Examples.{Steps, Assertions, Others, Read, Headers, Lines, Forms, Unknown, Earliest};

/// The forms of steps and assertions, and statements that have none.
pub fn forms_by_example()
    ensures steps { Steps }
    ensures assertions { Assertions }
    ensures others { Others }
{}

/// A file with the suite that it is, and files that are refused.
pub fn files_by_example()
    ensures read { Read }
    ensures headers { Headers }
    ensures lines { Lines }
    ensures forms { Forms }
    ensures unknown { Unknown }
    ensures earliest { Earliest }
{}
