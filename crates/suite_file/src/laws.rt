// Displays, one level at a time.
ghost use Rattle.suite_file.specs.Laws.{ShownByExpr, ShownByKind};

/// The display that an expression is, from those of its parts.
#[tactic(auto, using(crate::specs::Folds::shown_by_level, crate::specs::Folds::shown_by_kind))]
pub fn laws_of_displays()
    ensures by_expr { ShownByExpr }
    ensures by_kind { ShownByKind }
{}
