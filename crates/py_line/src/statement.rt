// Small statements (Language Reference, chapter 7).
ghost use Rattle.std.specs.Prelude.{◌≡◌};
ghost use Rattle.py_expr_shape.specs.Reads.{Gives};
ghost use Rattle.py_language.specs.TreesPlaces.{Listed, Conditional, Postfix};
ghost use Rattle.py_grammar.specs.Statements.{augmenting, unindexed, expr, exprs, expr_at, maybe, subscript, target, target_at, bound, augmented, unannotated, annotated, assignment, asserted, deleted, small, statement, simple};

use crate::annotation::annotation;
use crate::cut::{cut, first, has, inside, last_cut, lone_name};
use crate::list::{alone, name, some_parts};
use py_expr::{ExprFault, read_expr, read_exprs, read_primary};
use py_grammar::Separator;
use py_language::{Bracket, Keyword, Mark, Token};
use py_syntax::{BinOp, Expr, Line, Stmt, StmtKind, Target};
use pyn_base::NodeId;
use sqlite_items::Items;
use std::alloc::Global;

/// Reads the tokens of a logical line, whose number is `line`.
#[derive(Clone, Copy)]
pub struct Reader {
    pub alloc: Global,
    pub line: Line,
}

/// The operator of an augmented assignment.
fn augmenting(token: &Token) -> Result<BinOp, ExprFault>
    ensures { Gives result (augmenting token.now) }
{
    match token {
        Token::Mark(mark) => match mark {
            Mark::PlusEqual => Ok(BinOp::Add),
            Mark::MinusEqual => Ok(BinOp::Sub),
            Mark::StarEqual => Ok(BinOp::Mul),
            Mark::DoubleSlashEqual => Ok(BinOp::FloorDiv),
            Mark::PercentEqual => Ok(BinOp::Mod),
            _ => Err(ExprFault::Refused),
        },
        _ => Err(ExprFault::Refused),
    }
}

/// A target that may have an annotation.
fn unindexed(target: Target) -> Result<Target, ExprFault>
    ensures { Gives result (unindexed target) }
{
    match target {
        Target::Index(_, _) => Err(ExprFault::Refused),
        Target::Name(name) => Ok(Target::Name(name)),
        Target::Attr(object, name) => Ok(Target::Attr(object, name)),
    }
}

impl Reader {
    /// An expression with the line's number.
    fn placed(&self, expr: Expr) -> Expr
        ensures { result ≡ record { node = expr.node; line = self.now.line; kind = expr.kind } }
    {
        Expr {
            node: expr.node,
            line: self.line,
            kind: expr.kind,
        }
    }

    pub fn expr(&self, tokens: &[Token]) -> Result<Expr, ExprFault>
        ensures { Gives result (expr self.now.line tokens.now) }
    {
        Ok(self.placed(read_expr(self.alloc, tokens)?))
    }

    /// An expression, or a tuple of several with commas between them.
    pub fn exprs(&self, tokens: &[Token]) -> Result<Expr, ExprFault>
        ensures { Gives result (exprs self.now.line tokens.now) }
    {
        Ok(self.placed(read_exprs(self.alloc, tokens)?))
    }

    /// What is before the last part of a target.
    fn object(&self, tokens: &[Token]) -> Result<Expr, ExprFault>
        ensures { Gives result (expr_at self.now.line Postfix tokens.now) }
    {
        Ok(self.placed(read_primary(self.alloc, tokens)?))
    }

    fn maybe_expr(&self, tokens: &[Token]) -> Result<Option<Expr>, ExprFault>
        ensures { Gives result (maybe self.now.line Conditional tokens.now) }
    {
        let Some(_) = first(tokens) else {
            return Ok(None);
        };
        Ok(Some(self.expr(tokens)?))
    }

    fn maybe_exprs(&self, tokens: &[Token]) -> Result<Option<Expr>, ExprFault>
        ensures { Gives result (maybe self.now.line Listed tokens.now) }
    {
        let Some(_) = first(tokens) else {
            return Ok(None);
        };
        Ok(Some(self.exprs(tokens)?))
    }

    /// An object, and its index up to the bracket that closes it.
    fn subscript(&self, object: &[Token], tokens: &[Token]) -> Result<(Expr, Expr), ExprFault>
        ensures { Gives result (subscript self.now.line object.now tokens.now) }
    {
        let content = inside(Bracket::Square, tokens)?;
        let object = self.object(object)?;
        Ok((object, self.exprs(content)?))
    }

    /// An attribute or an index, by what is before its dot or bracket, that token, and what is after it.
    fn target_at(
        &self,
        object: &[Token],
        token: &Token,
        tokens: &[Token],
    ) -> Result<Target, ExprFault>
        ensures { Gives result (target_at self.now.line object.now token.now tokens.now) }
    {
        match token {
            Token::Mark(Mark::Dot) => {
                let name = name(self.alloc, tokens)?;
                Ok(Target::Attr(self.object(object)?, name))
            }
            Token::Mark(Mark::LeftBracket) => {
                let (object, index) = self.subscript(object, tokens)?;
                Ok(Target::Index(object, index))
            }
            _ => Err(ExprFault::Refused),
        }
    }

    pub fn target(&self, tokens: &[Token]) -> Result<Target, ExprFault>
        ensures { Gives result (target self.now.line tokens.now) }
    {
        if let Some(name) = lone_name(tokens) {
            return Ok(Target::Name(name.to_owned(self.alloc)?));
        }
        let Some((object, token, rest)) = last_cut(Separator::Part, tokens) else {
            return Err(ExprFault::Refused);
        };
        self.target_at(object, token, rest)
    }

    /// An assignment, by its targets and what is after `=`.
    fn bound(&self, targets: &[Token], value: &[Token]) -> Result<StmtKind, ExprFault>
        ensures { Gives result (bound self.now.line targets.now value.now) }
    {
        let is_tuple = has(Separator::Comma, targets);
        let targets = some_parts(
            self.alloc,
            Separator::Comma,
            targets,
            |part| self.target(part),
        )?;
        let value = self.exprs(value)?;
        Ok(StmtKind::Assign(targets, is_tuple, None, value))
    }

    /// An augmented assignment, by its target, its operator and what is after that.
    fn augmented(
        &self,
        changed: &[Token],
        operator: &Token,
        value: &[Token],
    ) -> Result<StmtKind, ExprFault>
        ensures { Gives result (augmented self.now.line changed.now operator.now value.now) }
    {
        let operator = augmenting(operator)?;
        let changed = self.target(changed)?;
        let value = self.exprs(value)?;
        Ok(StmtKind::Augment(changed, operator, value))
    }

    /// An assignment without an annotation, or an expression alone.
    fn unannotated(&self, tokens: &[Token]) -> Result<StmtKind, ExprFault>
        ensures { Gives result (unannotated self.now.line tokens.now) }
    {
        let (before, from) = cut(Separator::Assign, tokens);
        let Some((token, value)) = first(from) else {
            return Ok(StmtKind::Bare(self.exprs(tokens)?));
        };
        match token {
            Token::Mark(Mark::Equal) => self.bound(before, value),
            _ => self.augmented(before, token, value),
        }
    }

    /// An assignment with an annotation, by its target and what is after the colon.
    fn annotated(&self, before: &[Token], tokens: &[Token]) -> Result<StmtKind, ExprFault>
        ensures { Gives result (annotated self.now.line before.now tokens.now) }
    {
        let (of_type, from) = cut(Separator::Equal, tokens);
        let Some((_equal, value)) = first(from) else {
            return Err(ExprFault::Refused);
        };
        let mut targets = Items::new(self.alloc);
        targets.push(unindexed(self.target(before)?)?)?;
        let of_type = annotation(self.alloc, of_type)?;
        let value = self.exprs(value)?;
        Ok(StmtKind::Assign(targets, false, Some(of_type), value))
    }

    /// An assignment, or an expression alone.
    fn assignment(&self, tokens: &[Token]) -> Result<StmtKind, ExprFault>
        ensures { Gives result (assignment self.now.line tokens.now) }
    {
        let (before, from) = cut(Separator::Colon, tokens);
        match first(from) {
            None => self.unannotated(tokens),
            Some((_colon, rest)) => self.annotated(before, rest),
        }
    }

    /// What is after `assert`.
    fn asserted(&self, tokens: &[Token]) -> Result<StmtKind, ExprFault>
        ensures { Gives result (asserted self.now.line tokens.now) }
    {
        let (test, from) = cut(Separator::Comma, tokens);
        let test = self.expr(test)?;
        let message = match first(from) {
            None => None,
            Some((_comma, message)) => Some(self.expr(message)?),
        };
        Ok(StmtKind::Assert(test, message))
    }

    /// What is after `del`.
    fn deleted(&self, tokens: &[Token]) -> Result<StmtKind, ExprFault>
        ensures { Gives result (deleted self.now.line tokens.now) }
    {
        let Some((object, token, rest)) = last_cut(Separator::Part, tokens) else {
            return Err(ExprFault::Refused);
        };
        match token {
            Token::Mark(Mark::LeftBracket) => {
                let (object, index) = self.subscript(object, rest)?;
                Ok(StmtKind::Del(object, index))
            }
            _ => Err(ExprFault::Refused),
        }
    }

    fn small(&self, tokens: &[Token]) -> Result<StmtKind, ExprFault>
        ensures { Gives result (small self.now.line tokens.now) }
    {
        let Some((Token::Keyword(word), rest)) = first(tokens) else {
            return self.assignment(tokens);
        };
        match word {
            Keyword::Pass => alone(StmtKind::Pass, rest),
            Keyword::Break => alone(StmtKind::Break, rest),
            Keyword::Continue => alone(StmtKind::Continue, rest),
            Keyword::Return => Ok(StmtKind::Return(self.maybe_exprs(rest)?)),
            Keyword::Raise => Ok(StmtKind::Raise(self.maybe_expr(rest)?)),
            Keyword::Assert => self.asserted(rest),
            Keyword::Del => self.deleted(rest),
            _ => self.assignment(tokens),
        }
    }

    fn statement(&self, tokens: &[Token]) -> Result<Stmt, ExprFault>
        ensures { Gives result (statement self.now.line tokens.now) }
    {
        let kind = self.small(tokens)?;
        Ok(Stmt {
            node: NodeId(0),
            line: self.line,
            kind,
        })
    }

    /// Small statements with semicolons between them.
    pub fn simple(&self, tokens: &[Token]) -> Result<Items<Stmt>, ExprFault>
        ensures { Gives result (simple self.now.line tokens.now) }
    {
        some_parts(
            self.alloc,
            Separator::Semicolon,
            tokens,
            |part| self.statement(part),
        )
    }
}
