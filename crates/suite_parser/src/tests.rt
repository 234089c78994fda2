// Tests: a function of a suite file, whose block may have `with` (Language Reference 8.5 and 8.7).
ghost use Rattle.std.specs.Prelude.{◌≡◌, IfOk, Ok, map};
ghost use Rattle.py_syntax.specs.Gives.{Gives};
ghost use Rattle.py_grammar.specs.declared.place.Place.TheVariants as place;
ghost use Rattle.py_grammar.specs.Compounds.{block, deepest, statements as usual_statements};
ghost use Rattle.py_parser.specs.Lines.{member_of, group_of};
ghost use Rattle.suite_file.specs.declared.file.FileStmt.TheVariants.{Plain};
ghost use Rattle.suite_grammar.specs.Files as spec;
ghost use Rattle.suite_parser.specs.Reads.{second_line};

use crate::blocks::in_order;
use crate::forms::test_form;
use py_grammar::Place;
use py_language::Logical;
use py_parser::{
    Group, Member, Reader, Scope, behind, each, statements, unless_deeper, without_block,
};
use py_syntax::{Annotation, Expr, Line, Param, Refusal, Stmt};
use pyn_base::Name;
use sqlite_items::Items;
use std::alloc::{AllocError, Global};
use suite_file::{FileStmt, FileTest};
use suite_grammar::TestForm;

/// How many blocks may be inside one another at the top of a file, and in a test.
pub const AT_TOP: usize = 20;

const IN_TEST: usize = 19;

/// Statements that are no `with`.
fn as_plain(alloc: Global, statements: Items<Stmt>) -> Result<Items<FileStmt>, Refusal>
    ensures { Gives result (Ok (map Plain statements)) }
{
    Ok(each(alloc, statements, |stmt| FileStmt::Plain(stmt))?)
}

/// The line of the second statement, if there is one.
fn second_line(body: &[Stmt]) -> Option<Line>
    ensures { result ≡ second_line body.now }
{
    match body {
        [_, next, ..] => Some(next.line),
        _ => None,
    }
}

/// A `with` on a line, by its class and the statements of its block.
fn raising(
    alloc: Global,
    line: Line,
    class: Expr,
    body: Items<Stmt>,
) -> Result<Items<FileStmt>, AllocError>
    ensures { IfOk result (λ all. all ≡ spec.raising line class body) }
{
    let mut all = Items::new(alloc);
    let mut body = body;
    let next = second_line(body.as_slice());
    if body.is_empty() {
        return Ok(all);
    }
    let stmt = body.remove(0);
    all.push(FileStmt::Raises(line, class, stmt, next))?;
    Ok(all)
}

/// The statements of a block in a test's statement.
fn block_statements(
    alloc: Global,
    end: Option<Refusal>,
    lines: &[Logical],
    blocks: usize,
) -> Result<Items<Stmt>, Refusal>
    ensures { Gives result (usual_statements blocks end lines.now) }
{
    statements(alloc, end, lines, blocks)
}

/// What a statement in a test is, by the form of its first line.
#[tactic(auto, unfolding(suite_grammar::specs::Files::test_statement))]
fn test_statement(
    alloc: Global,
    end: Option<Refusal>,
    group: Group<'_>,
    form: TestForm,
) -> Result<Items<FileStmt>, Refusal>
    ensures { Gives result (spec.test_statement end (group_of group.entry) form) }
{
    let reader = Reader {
        scope: Scope {
            alloc,
            place: Place::Block,
            room: IN_TEST,
        },
        inner: block_statements,
    };
    match form {
        TestForm::Raises(class, small) => {
            let body = reader.suite(behind(group.others, end), group.first, small)?;
            let made = raising(alloc, group.first.line.line, class, body)?;
            reader.scope.unless_continued(group.others, made)
        }
        TestForm::Usual(form) => as_plain(alloc, reader.statement(end, group, form)?),
    }
}

/// What is in a test.
#[tactic(auto, unfolding(suite_grammar::specs::Files::test_statements))]
fn test_statements(
    alloc: Global,
    end: Option<Refusal>,
    lines: &[Logical],
) -> Result<Items<FileStmt>, Refusal>
    ensures { Gives result (spec.test_statements end lines.now) }
{
    let Some((first, _)) = lines.split_first() else {
        return Ok(Items::new(alloc));
    };
    let scope = Scope {
        alloc,
        place: Place::Block,
        room: IN_TEST,
    };
    in_order(
        scope,
        first.column,
        end,
        lines,
        |line| test_form(alloc, line),
        |end, group, form| test_statement(alloc, end, group, form),
    )
}

/// The block of a test.
fn test_block(
    alloc: Global,
    end: Option<Refusal>,
    first: Member<'_>,
    small: Option<Items<Stmt>>,
) -> Result<Items<FileStmt>, Refusal>
    ensures { Gives result (block place.Module deepest spec.test_statements end (member_of first.entry) (spec.on_line small)) }
{
    if let Some(small) = small {
        let all = as_plain(alloc, small)?;
        return unless_deeper(first.deeper, all);
    }
    match first.deeper.split_first() {
        Some(_) => test_statements(alloc, end, first.deeper),
        None => without_block(end, first.line),
    }
}

/// A test, by what its header has.
pub fn test(
    scope: Scope,
    end: Option<Refusal>,
    group: Group<'_>,
    name: Name,
    params: Items<Param>,
    returns: Option<Annotation>,
    small: Option<Items<Stmt>>,
) -> Result<FileTest, Refusal>
    requires at_top { (scope.place ≡ place.Module) × (scope.room ≡ deepest) }
    ensures { Gives result (spec.test_of end (group_of group.entry) name params returns small) }
{
    let line = group.first.line;
    let body = test_block(scope.alloc, behind(group.others, end), group.first, small)?;
    let made = FileTest {
        name,
        line: line.line,
        is_bare: params.is_empty() && returns.is_none(),
        body,
    };
    scope.unless_continued(group.others, made)
}
