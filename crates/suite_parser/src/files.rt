// The top of a suite file, and its tree (Language Reference 7.11 and 8.7).
ghost use Rattle.std.specs.Prelude.{◌≡◌, ◌≤◌, ◌∷◌, [], ◌++◌, IfOk, Ok, filter_map, length, map, option_to_list};
ghost use Rattle.std.specs.List.{list_any};
ghost use Rattle.py_syntax.specs.Gives.{Gives};
ghost use Rattle.py_grammar.specs.declared.place.Place.TheVariants as place;
ghost use Rattle.py_grammar.specs.Compounds.{deepest};
ghost use Rattle.py_parser.specs.Lines.{group_of};
ghost use Rattle.suite_grammar.specs.Files as spec;

use crate::blocks::in_order;
use crate::forms::top_form;
use crate::tests::{AT_TOP, test};
use py_grammar::{Form, Header, Place};
use py_language::Logical;
use py_lexer::tokens;
use py_parser::{Group, Scope, each, fault_in, module_item, reversed, unless_deeper};
use py_syntax::{Item, Line, Refusal};
use pyn_base::{Memory, Name, Text};
use sqlite_items::Items;
use std::alloc::{AllocError, Global};
use suite_file::{FileTest, SuiteFile};
use suite_grammar::{TopForm, TopItem};

/// A list of one item.
fn one(alloc: Global, item: TopItem) -> Result<Items<TopItem>, AllocError>
    ensures { IfOk result (λ all. all ≡ item ∷ []) }
{
    let mut all = Items::new(alloc);
    all.push(item)?;
    Ok(all)
}

/// An import line, which is nothing else.
fn import_line(scope: Scope, group: Group<'_>, found: TopItem) -> Result<Items<TopItem>, Refusal>
    requires at_top { (scope.place ≡ place.Module) × (scope.room ≡ deepest) }
    ensures { Gives result (spec.import_line (group_of group.entry) found) }
{
    let made = one(scope.alloc, found)?;
    scope.alone(group, made)
}

/// What is read as in a module, and is no function.
fn usual_item(item: Item) -> TopItem
    ensures { result ≡ spec.usual_item item }
{
    match item {
        Item::Func(f) => TopItem::Stray(f.line),
        Item::Class(class) => TopItem::Stray(class.line),
        Item::Import(_, _) => TopItem::Import,
        Item::Other(stmt) => TopItem::Stray(stmt.line),
    }
}

fn as_usual(alloc: Global, items: Items<Item>) -> Result<Items<TopItem>, Refusal>
    ensures { Gives result (Ok (map spec.usual_item items)) }
{
    Ok(each(alloc, items, |item| usual_item(item))?)
}

/// What a statement at the top is, where its first line has a form of a module's lines.
fn usual_items(
    scope: Scope,
    end: Option<Refusal>,
    group: Group<'_>,
    form: Form,
) -> Result<Items<TopItem>, Refusal>
    requires at_top { (scope.place ≡ place.Module) × (scope.room ≡ deepest) }
    ensures { Gives result (spec.usual_items end (group_of group.entry) form) }
{
    match form {
        Form::Compound(header, small) => match header {
            Header::Def(name, params, returns) => {
                let made = test(scope, end, group, name, params, returns, small)?;
                Ok(one(scope.alloc, TopItem::Test(made))?)
            }
            header => as_usual(
                scope.alloc,
                module_item(scope.alloc, end, group, Form::Compound(header, small))?,
            ),
        },
        form => as_usual(scope.alloc, module_item(scope.alloc, end, group, form)?),
    }
}

/// What a statement at the top is, by the form of its first line.
#[tactic(auto, unfolding(suite_grammar::specs::Files::top_item))]
fn top_item(
    scope: Scope,
    end: Option<Refusal>,
    group: Group<'_>,
    form: TopForm,
) -> Result<Items<TopItem>, Refusal>
    requires at_top { (scope.place ≡ place.Module) × (scope.room ≡ deepest) }
    ensures { Gives result (spec.top_item end (group_of group.entry) form) }
{
    match form {
        TopForm::Pytest => import_line(scope, group, TopItem::Pytest),
        TopForm::Tested(name) => import_line(scope, group, TopItem::Tested(name)),
        TopForm::Usual(form) => usual_items(scope, end, group, form),
    }
}

/// What stands at the top of a file.
#[tactic(auto, unfolding(suite_grammar::specs::Files::top_items))]
fn top_items(
    alloc: Global,
    end: Option<Refusal>,
    lines: &[Logical],
) -> Result<Items<TopItem>, Refusal>
    ensures { Gives result (spec.top_items end lines.now) }
{
    let scope = Scope {
        alloc,
        place: Place::Module,
        room: AT_TOP,
    };
    in_order(
        scope,
        0,
        end,
        lines,
        |line| top_form(alloc, line),
        |end, group, form| top_item(scope, end, group, form),
    )
}

fn is_import(item: &TopItem) -> bool
    ensures { result ≡ spec.is_import item.now }
{
    match item {
        TopItem::Pytest | TopItem::Tested(_) | TopItem::Import => true,
        TopItem::Test(_) | TopItem::Stray(_) => false,
    }
}

fn has_import(items: &[TopItem]) -> bool
    ensures { result ≡ list_any spec.is_import items.now }
{
    items.iter().any(|item| is_import(item))
}

/// The module under test; no name, where the two imports aren't the first lines or a further one is there.
fn tested(alloc: Global, items: &[TopItem]) -> Result<Name, Memory>
    ensures { IfOk result (λ name. name ≡ spec.tested items.now) }
{
    match items {
        [TopItem::Pytest, TopItem::Tested(name), more @ ..] => {
            if has_import(more) {
                Ok(Name::from_text(Text::new(alloc)))
            } else {
                name.to_owned(alloc)
            }
        }
        _ => Ok(Name::from_text(Text::new(alloc))),
    }
}

fn stray_in(item: &TopItem) -> Option<Line>
    ensures { result ≡ spec.stray_in item.now }
{
    match item {
        TopItem::Stray(line) => Some(*line),
        _ => None,
    }
}

fn test_in(item: TopItem) -> Option<FileTest>
    ensures { result ≡ spec.test_in item }
{
    match item {
        TopItem::Test(test) => Some(test),
        _ => None,
    }
}

/// With an item, if there is one.
fn with_found<T: Drop>(items: Items<T>, found: Option<T>) -> Result<Items<T>, AllocError>
    ensures { IfOk result (λ all. all ≡ items ++ option_to_list found) }
{
    let mut all = items;
    if let Some(item) = found {
        all.push(item)?;
    }
    Ok(all)
}

/// The lines of what is neither an import nor a test.
fn strays_in(alloc: Global, items: &[TopItem]) -> Result<Items<Line>, AllocError>
    ensures { IfOk result (λ all. all ≡ filter_map spec.stray_in items.now) }
{
    let mut all = Items::new(alloc);
    for item in items {
        all = with_found(all, stray_in(item))?;
    }
    Ok(all)
}

fn tests_in(alloc: Global, items: Items<TopItem>) -> Result<Items<FileTest>, AllocError>
    ensures { IfOk result (λ all. all ≡ filter_map spec.test_in items) }
{
    let mut rest = reversed(alloc, items)?;
    let mut all = Items::new(alloc);
    while let Some(item) = rest.pop() {
        all = with_found(all, test_in(item))?;
    }
    Ok(all)
}

/// The tree of what stands at the top of a file.
fn file_of(alloc: Global, items: Items<TopItem>) -> Result<SuiteFile, Refusal>
    ensures { Gives result (Ok (spec.file_of items)) }
{
    let module = tested(alloc, items.as_slice())?;
    let strays = strays_in(alloc, items.as_slice())?;
    let tests = tests_in(alloc, items)?;
    Ok(SuiteFile {
        module,
        tests,
        strays,
    })
}

/// The tree of the suite file that the text is. Its nodes are not numbered.
///
/// The text has at most 268,435,456 bytes. Its lines are gone over a few times for each block that they are in, and calls go no deeper than blocks,
/// brackets and strings in annotations may be inside one another.
///
/// # Errors
///
/// `Refused` with the first faulty line and its construct, where the text is no suite file of the grammar, and `Memory` when memory runs out. What
/// is read but is no test, as a class, a further import or an import in another place, is no error here: the tree tells of it.
#[tactic(auto, unfolding(suite_grammar::specs::Files::file_in))]
pub fn read_suite_file(alloc: Global, text: &[u8]) -> Result<SuiteFile, Refusal>
    requires { length text.now ≤ 268435456 }
    ensures { Gives result (spec.file_in text.now) }
{
    let tokens = tokens(alloc, text)?;
    let end = fault_in(tokens.fault);
    let items = top_items(alloc, end, tokens.lines.as_slice())?;
    if let Some(fault) = end {
        return Err(fault);
    }
    file_of(alloc, items)
}
