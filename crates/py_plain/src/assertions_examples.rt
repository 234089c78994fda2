// Worked examples of the assertions of a suite file (7.3).
ghost use Rattle.py_plain.specs.ExamplesAssertions.{EqualsDisplay, TooManyLevels, IsFalseLiteral, IsVariable, IsInstance, OfCall};

/// Which statements are assertions of a suite file.
pub fn assertions_by_example()
    ensures equals_display { EqualsDisplay }
    ensures too_many_levels { TooManyLevels }
    ensures is_false { IsFalseLiteral }
    ensures is_variable { IsVariable }
    ensures is_instance { IsInstance }
    ensures of_call { OfCall }
{}
