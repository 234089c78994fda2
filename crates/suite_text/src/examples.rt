// Suites, worked out by hand.
ghost use Rattle.suite_text.specs.Examples.{Empty, Raising, Kinds, Depths, Printable};

/// The text of a suite without tests, of one whose test ends by raising, and of one with steps and assertions of every kind.
pub fn suites_by_example()
    ensures empty { Empty }
    ensures raising { Raising }
    ensures kinds { Kinds }
{}

/// How deep displays are, and suites that could be read back beside some that couldn't.
pub fn printable_by_example()
    ensures depths { Depths }
    ensures printable { Printable }
{}
