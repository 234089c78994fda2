// What the rules ask of a tree, one level at a time.
ghost use Rattle.py_scopes.specs.Laws.{UsesByExpr, NumberByExpr, UsesByKind, UsesByArgs, UsesByStmt, UsesByStmtKind, UsesByClause, ConstantByExpr, ConstantByKind, DisplayByExpr, DisplayByKind, DisplayByArgs, NamesByPart, UnquotedByPart, FaultyByPart, NoneByPart, QuotedByPart};

/// What a node uses, whether it is a constant or has a display, and what an annotation names, from those of its parts.
#[tactic(auto, using(crate::specs::Folds::uses_by_expr, crate::specs::Folds::number_by_expr, crate::specs::Folds::uses_by_kind, crate::specs::Folds::uses_by_args, crate::specs::Folds::uses_by_stmt, crate::specs::Folds::uses_by_stmt_kind, crate::specs::Folds::uses_by_clause, crate::specs::Folds::constant_by_expr, crate::specs::Folds::constant_by_kind, crate::specs::Folds::display_by_expr, crate::specs::Folds::display_by_kind, crate::specs::Folds::display_by_args, crate::specs::Folds::names_by_part, crate::specs::Folds::unquoted_by_part, crate::specs::Folds::faulty_by_part, crate::specs::Folds::none_by_part, crate::specs::Folds::quoted_by_part))]
pub fn laws_of_scopes()
    ensures uses_of_expr { UsesByExpr }
    ensures number_of_expr { NumberByExpr }
    ensures uses_of_kind { UsesByKind }
    ensures uses_of_args { UsesByArgs }
    ensures uses_in_stmt { UsesByStmt }
    ensures uses_in_kind { UsesByStmtKind }
    ensures uses_in_clause { UsesByClause }
    ensures constant { ConstantByExpr }
    ensures constant_kind { ConstantByKind }
    ensures has_display { DisplayByExpr }
    ensures display_in_kind { DisplayByKind }
    ensures display_of_args { DisplayByArgs }
    ensures names_in { NamesByPart }
    ensures unquoted_in { UnquotedByPart }
    ensures faulty { FaultyByPart }
    ensures none_of { NoneByPart }
    ensures quoted_of { QuotedByPart }
{}
