// The forms of a suite file's lines: its import lines (Language Reference 7.11), and `with` (8.5) round a step that has to raise.
ghost use Rattle.std.specs.Prelude.{◌≡◌};
ghost use Rattle.py_expr_shape.specs.Reads.{Gives};
ghost use Rattle.py_plain.specs.Nodes.{kind_of_expr};
ghost use Rattle.suite_grammar.specs.Forms as spec;

use py_grammar::Separator;
use py_language::{Keyword, Logical, Token};
use py_line::cut::{cut, first, lone_name};
use py_line::{ExprFault, read_form, statement};
use py_syntax::{Args, Expr, ExprKind, Line};
use pyn_base::Name;
use std::alloc::Global;
use suite_grammar::{TestForm, TopForm};

#[tactic(auto, unfolding(std::specs::Prelude::chars))]
fn lone_import(name: &Name) -> Result<TopForm, ExprFault>
    ensures { Gives result (spec.lone_import name.now) }
{
    if name.is("pytest") {
        return Ok(TopForm::Pytest);
    }
    Err(ExprFault::Refused)
}

#[tactic(auto, unfolding(std::specs::Prelude::chars))]
fn import_as(alloc: Global, name: &Name, alias: &Name) -> Result<TopForm, ExprFault>
    ensures { Gives result (spec.import_as name.now alias.now) }
{
    if alias.is("module_0") {
        return Ok(TopForm::Tested(name.to_owned(alloc)?));
    }
    Err(ExprFault::Refused)
}

/// What is after `import`.
fn import_form(alloc: Global, tokens: &[Token]) -> Result<TopForm, ExprFault>
    ensures { Gives result (spec.import_form tokens.now) }
{
    let Some((Token::Name(name), rest)) = first(tokens) else {
        return Err(ExprFault::Refused);
    };
    match first(rest) {
        None => lone_import(name),
        Some((Token::Keyword(Keyword::As), alias)) => match lone_name(alias) {
            None => Err(ExprFault::Refused),
            Some(alias) => import_as(alloc, name, alias),
        },
        Some(_) => Err(ExprFault::Refused),
    }
}

/// The form of a line at the top of a file.
#[tactic(auto, unfolding(suite_grammar::specs::Forms::top_form))]
pub fn top_form(alloc: Global, line: &Logical) -> Result<TopForm, ExprFault>
    ensures { Gives result (spec.top_form line.now) }
{
    match first(line.tokens.as_slice()) {
        Some((Token::Keyword(Keyword::Import), rest)) => import_form(alloc, rest),
        _ => Ok(TopForm::Usual(read_form(alloc, line)?)),
    }
}

#[tactic(auto, unfolding(std::specs::Prelude::chars))]
fn is_pytest(e: &Expr) -> bool
    ensures { result ≡ spec.is_pytest (kind_of_expr e.now) }
{
    match &e.kind {
        ExprKind::Name(name) => name.is("pytest"),
        _ => false,
    }
}

/// The argument that is alone, and has no name.
fn class_given(args: Args) -> Result<Expr, ExprFault>
    ensures { Gives result (spec.class_given args) }
{
    let Args { mut plain, named } = args;
    let Some(class) = plain.pop() else {
        return Err(ExprFault::Refused);
    };
    if plain.is_empty() && named.is_empty() {
        return Ok(class);
    }
    Err(ExprFault::Refused)
}

/// The class of a `with` line's item.
#[tactic(auto, unfolding(std::specs::Prelude::chars))]
fn raised_in(item: Expr) -> Result<Expr, ExprFault>
    ensures { Gives result (spec.raised_in item) }
{
    match item.kind {
        ExprKind::Method(of, name, args) => {
            if is_pytest(of.get()) && name.is("raises") {
                class_given(args)
            } else {
                Err(ExprFault::Refused)
            }
        }
        _ => Err(ExprFault::Refused),
    }
}

/// What is after `with`.
fn with_form(alloc: Global, line: Line, tokens: &[Token]) -> Result<TestForm, ExprFault>
    ensures { Gives result (spec.with_form line tokens.now) }
{
    let (before, from) = cut(Separator::Colon, tokens);
    let Some((_colon, rest)) = first(from) else {
        return Err(ExprFault::Refused);
    };
    let reader = statement::Reader { alloc, line };
    let class = raised_in(reader.expr(before)?)?;
    let body = reader.block(rest)?;
    Ok(TestForm::Raises(class, body))
}

/// The form of a line in a test.
#[tactic(auto, unfolding(suite_grammar::specs::Forms::test_form))]
pub fn test_form(alloc: Global, line: &Logical) -> Result<TestForm, ExprFault>
    ensures { Gives result (spec.test_form line.now) }
{
    match first(line.tokens.as_slice()) {
        Some((Token::Keyword(Keyword::With), rest)) => with_form(alloc, line.line, rest),
        _ => Ok(TestForm::Usual(read_form(alloc, line)?)),
    }
}
