// Sites and rewritten trees, one level at a time.
ghost use Rattle.mutant_model.specs.Laws.{SitesByExpr, SitesByKind, SitesByArgs, SitesByStmt, WordByStmt, SitesAt, WordIn, SitesByClause, ExprAgain, KindAgain, ArgsAgain, StmtAgain, StmtKindAgain, ClauseAgain};

/// What applies to a node, and what a patch makes of it, from those of its parts.
#[tactic(auto, using(crate::specs::Folds::sites_by_expr, crate::specs::Folds::sites_by_kind, crate::specs::Folds::sites_by_args, crate::specs::Folds::sites_by_stmt, crate::specs::Folds::word_by_stmt, crate::specs::Folds::sites_at_level, crate::specs::Folds::word_in_level, crate::specs::Folds::sites_by_clause, crate::specs::Folds::expr_level, crate::specs::Folds::kind_level, crate::specs::Folds::args_level, crate::specs::Folds::stmt_level, crate::specs::Folds::stmt_kind_level, crate::specs::Folds::clause_level))]
pub fn laws_of_mutants()
    ensures sites_of_expr { SitesByExpr }
    ensures sites_of_kind { SitesByKind }
    ensures sites_of_args { SitesByArgs }
    ensures sites_of_stmt { SitesByStmt }
    ensures word_of_stmt { WordByStmt }
    ensures sites_at { SitesAt }
    ensures word_in { WordIn }
    ensures sites_of_clause { SitesByClause }
    ensures rewritten_expr { ExprAgain }
    ensures rewritten_kind { KindAgain }
    ensures rewritten_args { ArgsAgain }
    ensures rewritten_stmt { StmtAgain }
    ensures rewritten_stmt_kind { StmtKindAgain }
    ensures rewritten_clause { ClauseAgain }
{}
