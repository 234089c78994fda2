// The statements of a block in order, by a form of its lines.
ghost use Rattle.std.specs.Prelude.{◌≡◌, ℕ, List, Option, Result};
ghost use Rattle.std.specs.Borrow.{Bor};
ghost use Rattle.py_expr_shape.specs.Reads.{Gives as GivesForm};
ghost use Rattle.py_language.specs.declared.token.Logical.{Logical as LogicalValue};
ghost use Rattle.py_syntax.specs.Gives.{Gives};
ghost use Rattle.py_syntax.specs.declared.refusal.Refusal.{Refusal as RefusalValue};
ghost use Rattle.py_grammar.specs.Blocks as spec;
ghost use Rattle.py_parser.specs.declared.lines.Group.{Group as GroupValue};
ghost use Rattle.suite_grammar.specs.Files.{lines_by};
ghost use Rattle.suite_parser.specs.Reads.{Answers, Forms, form_or_refusal};

use py_language::Logical;
use py_line::ExprFault;
use py_parser::{Group, Scope, behind, misplaced, next_group};
use py_syntax::Refusal;
use sqlite_items::Items;

/// The form of a line, as it was read, or the refusal of the line.
fn form_or_refusal<F: Drop>(
    scope: Scope,
    line: &Logical,
    read: Result<F, ExprFault>,
) -> Result<F, Refusal>
    ensures { (found : Option F) → GivesForm read found → Gives result (form_or_refusal scope.place scope.room line.now found) }
{
    match read {
        Ok(form) => Ok(form),
        Err(ExprFault::Refused) => Err(scope.refusal(line)),
        Err(ExprFault::Memory) => Err(Refusal::Memory),
    }
}

/// What the statements of a block with this column give, in order, up to the first fault.
pub fn in_order<
    T: Drop,
    F: Drop,
    R: Fn(&Logical) -> Result<F, ExprFault>,
    G: Fn(Option<Refusal>, Group<'_>, F) -> Result<Items<T>, Refusal>,
>(
    scope: Scope,
    column: u32,
    end: Option<Refusal>,
    lines: &[Logical],
    read: R,
    statement: G,
) -> Result<Items<T>, Refusal>
    requires reads { (line : Bor LogicalValue) → R.pre read line }
    requires makes { (end : Option RefusalValue) (group : GroupValue) (form : F) → G.pre statement end group form }
    ensures { (form : LogicalValue → Option F) (f : Option RefusalValue → spec.Group → F → Result (List T) RefusalValue) → Forms form (R.post read) → Answers f (G.post statement)
        → Gives result (lines_by scope.place scope.room form f column end lines.now) }
{
    let mut all = Items::new(scope.alloc);
    let mut rest = lines;
    while let Some((group, others)) = next_group(column, rest) {
        let line = group.first.line;
        if line.column != column {
            return Err(misplaced(line));
        }
        let form = form_or_refusal(scope, line, read(line))?;
        all.append(statement(behind(others, end), group, form)?)?;
        rest = others;
    }
    Ok(all)
}
