// Modules, classes and functions (Language Reference 8.7 and 8.8).
ghost use Rattle.std.specs.Prelude.{◌≡◌, ◌∷◌, [], ◌++◌, OnOk, IfOk};
ghost use Rattle.py_grammar.specs.declared.form.Header.TheVariants as h;
ghost use Rattle.py_layout.specs.Headers.{header_tokens};
ghost use Rattle.py_layout.specs.Modules.{func_rows, member_rows};
ghost use Rattle.py_layout.specs.Rows.{row, indent};
ghost use Rattle.py_printer.specs.Lines.{lines_text};
ghost use Rattle.py_annotation_layout.specs.Annotations.{annotation_tokens};
ghost use Rattle.module_printer.specs.Modules.{class_lines, class_row, item_lines, items_lines, members_lines, module_text};
ghost use Rattle.module_printer.specs.Pages.{onto};

use crate::blocks::{deeper, statement};
use crate::gaps::{gap, item_part, member_part};
use crate::headers::{class, def};
use crate::imports::import_line;
use crate::page::{INDENT, Page};
use crate::rows::new_pen;
use py_syntax::{Class, Func, Item, Member, Module};
use pyn_base::{Memory, Text};
use std::alloc::Global;

/// How many empty lines are before and after a function or a class of a module.
const BETWEEN_ITEMS: usize = 2;

/// How many empty lines are before and after a method.
const BETWEEN_MEMBERS: usize = 1;

/// Adds the line of a `def`.
fn def_line(alloc: Global, page: &mut Page, column: usize, x: &Func) -> Result<(), Memory>
    ensures { OnOk result (page.new ≡ onto page.old (row column (header_tokens annotation_tokens (h.Def x.now.name x.now.params x.now.returns)) ∷ [])) }
{
    let mut pen = new_pen(alloc);
    def(alloc, &mut pen, &x.name, x.params.as_slice(), &x.returns)?;
    page.line(column, &pen.text)
}

/// Adds the lines of a function.
#[tactic(auto, using(crate::proofs::Pages::onto_cons))]
fn function(alloc: Global, page: &mut Page, column: usize, x: &Func) -> Result<(), Memory>
    ensures { OnOk result (page.new ≡ onto page.old (func_rows annotation_tokens column x.now)) }
{
    def_line(alloc, page, column, x)?;
    deeper(alloc, page, column, x.body.as_slice())
}

/// Adds the lines of a part of a class.
fn member(alloc: Global, page: &mut Page, x: &Member) -> Result<(), Memory>
    ensures { OnOk result (page.new ≡ onto page.old (member_rows annotation_tokens indent x.now)) }
{
    match x {
        Member::Func(x) => function(alloc, page, INDENT, x),
        Member::Other(x) => statement(alloc, page, INDENT, x),
    }
}

/// Adds the lines of the parts of a class.
fn members(alloc: Global, page: &mut Page, all: &[Member]) -> Result<(), Memory>
    ensures { OnOk result (page.new.text ≡ page.old.text ++ lines_text (members_lines all.now)) }
{
    let mut last = None;
    for x in all {
        let this = member_part(x);
        page.blanks = gap(BETWEEN_MEMBERS, last, this);
        member(alloc, page, x)?;
        last = Some(this);
    }
    Ok(())
}

/// Adds the line of a `class`.
fn class_line(alloc: Global, page: &mut Page, x: &Class) -> Result<(), Memory>
    ensures { OnOk result (page.new ≡ onto page.old (class_row x.now ∷ [])) }
{
    let mut pen = new_pen(alloc);
    class(&mut pen, &x.name, &x.base)?;
    page.line(0, &pen.text)
}

/// Adds the lines of a class.
fn whole_class(alloc: Global, page: &mut Page, x: &Class) -> Result<(), Memory>
    ensures { OnOk result (page.new.text ≡ page.old.text ++ lines_text (class_lines page.old.blanks x.now)) }
{
    class_line(alloc, page, x)?;
    members(alloc, page, x.members.as_slice())
}

/// Adds the lines of a part of a module.
#[tactic(auto, using(crate::proofs::Pages::onto_text))]
fn item(alloc: Global, page: &mut Page, x: &Item) -> Result<(), Memory>
    ensures { OnOk result (page.new.text ≡ page.old.text ++ lines_text (item_lines page.old.blanks x.now)) }
{
    match x {
        Item::Func(x) => function(alloc, page, 0, x),
        Item::Class(x) => whole_class(alloc, page, x),
        Item::Import(_line, all) => import_line(alloc, page, 0, all.as_slice()),
        Item::Other(x) => statement(alloc, page, 0, x),
    }
}

/// Adds the lines of the parts of a module.
fn items(alloc: Global, page: &mut Page, all: &[Item]) -> Result<(), Memory>
    ensures { OnOk result (page.new.text ≡ page.old.text ++ lines_text (items_lines all.now)) }
{
    let mut last = None;
    for x in all {
        let this = item_part(x);
        page.blanks = gap(BETWEEN_ITEMS, last, this);
        item(alloc, page, x)?;
        last = Some(this);
    }
    Ok(())
}

/// The text of a module as a Python programmer lays it out, or out of memory. Blocks are four columns deeper than their headers.
pub fn print_module(alloc: Global, x: &Module) -> Result<Text, Memory>
    ensures { IfOk result (λ text. text ≡ module_text x.now) }
{
    let mut page = Page::new(alloc);
    items(alloc, &mut page, x.items.as_slice())?;
    Ok(page.text)
}
