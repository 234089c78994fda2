// Types one level at a time, and what is kept of a test.
ghost use Rattle.suite_model.specs.Laws.{ByAnnotation, BySame, ByFits, ByShown, KeptAlone, KeptOf};

/// The type that an annotation names, what is asked of a type, and the expression that a display is, from those of their parts.
#[tactic(auto, using(crate::specs::Folds::by_annotation, crate::specs::Folds::by_same, crate::specs::Folds::by_fits, crate::specs::Folds::by_shown))]
pub fn laws_of_types()
    ensures by_annotation { ByAnnotation }
    ensures by_same { BySame }
    ensures by_fits { ByFits }
    ensures by_shown { ByShown }
{}

/// What is kept of a test is what its kept steps do when they are run alone.
#[tactic(auto, using(crate::proofs::Prefixes::kept_alone, crate::proofs::Prefixes::kept_of))]
pub fn laws_of_kept_tests()
    ensures kept_alone { KeptAlone }
    ensures kept_of { KeptOf }
{}
