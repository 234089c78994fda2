// The points of a statement and of a clause, one level at a time.
ghost use Rattle.goal_model.specs.Laws.{ByStatement, ByKind, ByClause};

/// The points of a statement, and of a clause, from those of its parts.
#[tactic(auto, using(crate::specs::Folds::by_statement, crate::specs::Folds::by_kind, crate::specs::Folds::by_clause))]
pub fn laws_of_points()
    ensures by_statement { ByStatement }
    ensures by_kind { ByKind }
    ensures by_clause { ByClause }
{}
