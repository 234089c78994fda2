// The line of a block that has to raise (pytest's manual, "Assertions about expected exceptions").
ghost use Rattle.std.specs.Prelude.{◌≡◌, ◌∷◌, [], IfOk, OnOk, codes};
ghost use Rattle.py_syntax.specs.declared.expr.Args.{roll-Args};
ghost use Rattle.py_syntax.specs.declared.expr.ExprKind.TheVariants as e;
ghost use Rattle.module_printer.specs.Pages.{onto};
ghost use Rattle.suite_model.specs.Assertions.{class_read};
ghost use Rattle.suite_model.specs.Statements.{expression};
ghost use Rattle.suite_text.specs.SuiteText.{raises_call, with_row};

use module_printer::{INDENT, Page, tested_line};
use py_language::Keyword;
use py_syntax::{Args, Expr, ExprKind};
use py_tables::Tables;
use pyn_base::{ClassId, Memory, Name};
use sqlite_items::{Boxed, Items};
use std::alloc::Global;
use suite_syntax::{class_read, expression};

#[tactic(auto, unfolding(std::specs::Prelude::chars))]
fn pytest_read(alloc: Global) -> Result<Expr, Memory>
    ensures { IfOk result (λ x. x ≡ expression (e.Name (codes "pytest"))) }
{
    Ok(expression(ExprKind::Name(Name::from_str(alloc, "pytest")?)))
}

/// A class as the one argument.
fn class_arg(alloc: Global, tables: &Tables, class: ClassId) -> Result<Args, Memory>
    ensures { IfOk result (λ args. args ≡ roll-Args record { plain = class_read tables.now class ∷ []; named = [] }) }
{
    let mut plain = Items::new(alloc);
    plain.push(class_read(alloc, tables, class)?)?;
    Ok(Args {
        plain,
        named: Items::new(alloc),
    })
}

/// A call of `pytest.raises`.
#[tactic(auto, unfolding(std::specs::Prelude::chars))]
fn raises_of(alloc: Global, args: Args) -> Result<Expr, Memory>
    ensures { IfOk result (λ x. x ≡ expression (e.Method (expression (e.Name (codes "pytest"))) (codes "raises") args)) }
{
    let of = Boxed::new(alloc, pytest_read(alloc)?)?;
    let name = Name::from_str(alloc, "raises")?;
    Ok(expression(ExprKind::Method(of, name, args)))
}

/// `pytest.raises(CLASS)`
fn raises_call(alloc: Global, tables: &Tables, class: ClassId) -> Result<Expr, Memory>
    ensures { IfOk result (λ x. x ≡ raises_call tables.now class) }
{
    let args = class_arg(alloc, tables, class)?;
    raises_of(alloc, args)
}

/// Adds the line of a `with`.
pub fn with_line(
    alloc: Global,
    page: &mut Page,
    tables: &Tables,
    class: ClassId,
) -> Result<(), Memory>
    ensures { OnOk result (page.new ≡ onto page.old (with_row tables.now class ∷ [])) }
{
    let call = raises_call(alloc, tables, class)?;
    tested_line(alloc, page, INDENT, Keyword::With, &call)
}
