// What is known of the goals of every module.
ghost use Rattle.goal_graph.specs.Laws.{ParentsAreEarlier, OthersHaveParents, MarksTell};

/// A parent has a lower number than its goal, and every goal but an entry has one.
#[tactic(auto, using(crate::proofs::Governed::parents_are_earlier, crate::proofs::Governed::others_have_parents))]
pub fn laws_of_parents()
    ensures earlier { ParentsAreEarlier }
    ensures others { OthersHaveParents }
{}

/// The marks that a trail leaves, in room for every node, have what takes a goal where the trail takes it.
#[tactic(auto, using(crate::proofs::Marked::marks_tell))]
pub fn laws_of_marks()
    ensures tell { MarksTell }
{}
