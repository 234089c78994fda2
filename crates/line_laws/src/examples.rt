// Lines that are plain or not, and statements that lie on lines or not.
ghost use Rattle.line_laws.specs.Examples.{Plain, Nested, Astray, LiesOnLines, LiesNowhere};

/// Simple statements on one line and a one-line block are plain; what the grammar has not is not.
#[tactic(auto, using(crate::proofs::ByExample::plain, crate::proofs::ByExample::nested, crate::proofs::ByExample::astray))]
pub fn lines_by_example()
    ensures plain { Plain }
    ensures nested { Nested }
    ensures astray { Astray }
{}

/// Simple statements on one line, a block on its header's line and a block on later lines lie as they should; a compound statement on the line
/// of another's header does not.
#[tactic(auto, using(crate::proofs::ByExample::lies_on_lines, crate::proofs::ByExample::lies_nowhere))]
pub fn layout_by_example()
    ensures lies { LiesOnLines }
    ensures lies_not { LiesNowhere }
{}
