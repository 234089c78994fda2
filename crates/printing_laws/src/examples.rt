// How many brackets texts open at once.
ghost use Rattle.printing_laws.specs.Examples.{FiftyAreFew, FiftyOneAreMany, FunctionHasFew};

/// A function with a parameter, fifty lists in one another, and one list more, which is too many for a text.
pub fn brackets_by_example()
    ensures function { FunctionHasFew }
    ensures fifty { FiftyAreFew }
    ensures fifty_one { FiftyOneAreMany }
{}
