// Modules, classes and functions (Language Reference 7.11, 8.7, 8.8 and 9.2).
ghost use Rattle.std.specs.Prelude.{◌≡◌, ◌≤◌, ◌∷◌, [], IfOk, Ok, length, map, reverse};
ghost use Rattle.py_syntax.specs.Gives.{Gives};
ghost use Rattle.py_syntax.specs.declared.module.Item.TheVariants as item;
ghost use Rattle.py_syntax.specs.declared.module.Member.TheVariants as member;
ghost use Rattle.py_grammar.specs.declared.place.Place.TheVariants as place;
ghost use Rattle.py_grammar.specs.Compounds.{block, deepest};
ghost use Rattle.py_grammar.specs.Modules as spec;
ghost use Rattle.py_parser.specs.Lines.{member_of as line_of, group_of};
ghost use Rattle.py_parser.specs.Parsed.{parsed};
ghost use Rattle.py_parser.specs.Reads.{Inner};

use crate::blocks::{Reader, Scope, unless_deeper, without_block};
use crate::compounds::statements;
use crate::lines;
use crate::lines::{Group, behind};
use py_grammar::{Form, Header, Place};
use py_language::Logical;
use py_lexer::tokens;
use py_nodes::number;
use py_syntax::{Annotation, Class, Func, Item, Line, Member, Module, Param, Refusal, Stmt};
use pyn_base::{Construct, Name, NodeId};
use sqlite_items::Items;
use std::alloc::{AllocError, Global};

/// How many blocks may be inside one another at a module's level, and in a class.
const IN_MODULE: usize = 20;

const IN_CLASS: usize = 19;

/// The items from the last to the first.
pub fn reversed<T: Drop>(alloc: Global, items: Items<T>) -> Result<Items<T>, AllocError>
    ensures { IfOk result (λ all. all ≡ reverse items) }
{
    let mut rest = items;
    let mut all = Items::new(alloc);
    while let Some(item) = rest.pop() {
        all.push(item)?;
    }
    Ok(all)
}

/// What the function makes of each item.
pub fn each<T: Drop, U: Drop, G: Fn(T) -> U>(
    alloc: Global,
    items: Items<T>,
    wrap: G,
) -> Result<Items<U>, AllocError>
    requires { (x : T) → G.pre wrap x }
    ensures { (f : T → U) → ((x : T) (u : U) → G.post wrap x u → u ≡ f x) → IfOk result (λ all. all ≡ map f items) }
{
    let mut rest = reversed(alloc, items)?;
    let mut all = Items::new(alloc);
    while let Some(item) = rest.pop() {
        all.push(wrap(item))?;
    }
    Ok(all)
}

/// Statements in a class.
fn as_members(alloc: Global, statements: Items<Stmt>) -> Result<Items<Member>, Refusal>
    ensures { Gives result (Ok (map member.Other statements)) }
{
    Ok(each(alloc, statements, |stmt| Member::Other(stmt))?)
}

/// Statements at a module's level.
fn as_items(alloc: Global, statements: Items<Stmt>) -> Result<Items<Item>, Refusal>
    ensures { Gives result (Ok (map item.Other statements)) }
{
    Ok(each(alloc, statements, |stmt| Item::Other(stmt))?)
}

/// A list of one item.
fn one<T: Drop>(alloc: Global, item: T) -> Result<Items<T>, Refusal>
    ensures { Gives result (Ok (item ∷ [])) }
{
    let mut all = Items::new(alloc);
    all.push(item)?;
    Ok(all)
}

impl<F: Fn(Global, Option<Refusal>, &[Logical], usize) -> Result<Items<Stmt>, Refusal>> Reader<F> {
    /// A function (8.7), by what its header has.
    fn function(
        &self,
        end: Option<Refusal>,
        group: Group<'_>,
        name: Name,
        params: Items<Param>,
        returns: Option<Annotation>,
        small: Option<Items<Stmt>>,
    ) -> Result<Func, Refusal>
        requires { Inner self.now.scope.room (F.pre self.now.inner) (F.post self.now.inner) }
        ensures { Gives result (spec.function self.now.scope.place self.now.scope.room end (group_of group.entry) name params returns small) }
    {
        let line = group.first.line;
        let body = self.suite(behind(group.others, end), group.first, small)?;
        let made = Func {
            node: NodeId(0),
            name,
            line: line.line,
            params,
            returns,
            body,
        };
        self.scope.unless_continued(group.others, made)
    }
}

/// What a statement in a class is, by the form of its first line.
#[tactic(auto, unfolding(py_grammar::specs::Modules::method))]
fn method(
    alloc: Global,
    end: Option<Refusal>,
    group: Group<'_>,
    form: Form,
) -> Result<Items<Member>, Refusal>
    ensures { Gives result (spec.method end (group_of group.entry) form) }
{
    let reader = Reader {
        scope: Scope {
            alloc,
            place: Place::Class,
            room: IN_CLASS,
        },
        inner: statements,
    };
    match form {
        Form::Compound(header, small) => match header {
            Header::Def(name, params, returns) => {
                let made = reader.function(end, group, name, params, returns, small)?;
                one(alloc, Member::Func(made))
            }
            header => as_members(
                alloc,
                reader.statement(end, group, Form::Compound(header, small))?,
            ),
        },
        form => as_members(alloc, reader.statement(end, group, form)?),
    }
}

/// What is in a class.
#[tactic(auto, unfolding(py_grammar::specs::Modules::methods))]
fn methods(alloc: Global, end: Option<Refusal>, lines: &[Logical]) -> Result<Items<Member>, Refusal>
    ensures { Gives result (spec.methods end lines.now) }
{
    let Some((first, _)) = lines.split_first() else {
        return Ok(Items::new(alloc));
    };
    let scope = Scope {
        alloc,
        place: Place::Class,
        room: IN_CLASS,
    };
    scope.in_order(first.column, end, lines, |end, group, form| {
        method(alloc, end, group, form)
    })
}

/// The block of a class (8.8).
fn class_block(
    alloc: Global,
    end: Option<Refusal>,
    first: lines::Member<'_>,
    small: Option<Items<Stmt>>,
) -> Result<Items<Member>, Refusal>
    ensures { Gives result (block place.Module deepest spec.methods end (line_of first.entry) (spec.on_line small)) }
{
    if let Some(small) = small {
        let all = as_members(alloc, small)?;
        return unless_deeper(first.deeper, all);
    }
    match first.deeper.split_first() {
        Some(_) => methods(alloc, end, first.deeper),
        None => without_block(end, first.line),
    }
}

/// A class (8.8), by what its header has.
fn class_statement(
    scope: Scope,
    end: Option<Refusal>,
    group: Group<'_>,
    name: Name,
    base: Option<Name>,
    small: Option<Items<Stmt>>,
) -> Result<Items<Item>, Refusal>
    requires at_module { (scope.place ≡ place.Module) × (scope.room ≡ deepest) }
    ensures { Gives result (spec.class_statement end (group_of group.entry) name base small) }
{
    let line = group.first.line;
    let members = class_block(scope.alloc, behind(group.others, end), group.first, small)?;
    let made = Class {
        name,
        base,
        line: line.line,
        members,
    };
    let made = one(scope.alloc, Item::Class(made))?;
    scope.unless_continued(group.others, made)
}

/// A line that imports these names from `typing`, or the future line, which has none (7.11).
fn import_line(scope: Scope, group: Group<'_>, names: Items<Name>) -> Result<Items<Item>, Refusal>
    requires at_module { (scope.place ≡ place.Module) × (scope.room ≡ deepest) }
    ensures { Gives result (spec.import_line (group_of group.entry) names) }
{
    let made = one(scope.alloc, Item::Import(group.first.line.line, names))?;
    scope.alone(group, made)
}

/// What a statement at a module's level is, by the form of its first line.
#[tactic(auto, unfolding(py_grammar::specs::Modules::module_item))]
pub fn module_item(
    alloc: Global,
    end: Option<Refusal>,
    group: Group<'_>,
    form: Form,
) -> Result<Items<Item>, Refusal>
    ensures { Gives result (spec.module_item end (group_of group.entry) form) }
{
    let scope = Scope {
        alloc,
        place: Place::Module,
        room: IN_MODULE,
    };
    let reader = Reader {
        scope,
        inner: statements,
    };
    match form {
        Form::Compound(header, small) => match header {
            Header::Def(name, params, returns) => {
                let made = reader.function(end, group, name, params, returns, small)?;
                one(alloc, Item::Func(made))
            }
            Header::Class(name, base) => class_statement(scope, end, group, name, base, small),
            header => as_items(
                alloc,
                reader.statement(end, group, Form::Compound(header, small))?,
            ),
        },
        Form::Future => import_line(scope, group, Items::new(alloc)),
        Form::Typing(names) => import_line(scope, group, names),
        Form::Simple(all) => as_items(alloc, reader.statement(end, group, Form::Simple(all))?),
    }
}

/// The items of a module.
#[tactic(auto, unfolding(py_grammar::specs::Modules::module_items))]
fn module_items(
    alloc: Global,
    end: Option<Refusal>,
    lines: &[Logical],
) -> Result<Items<Item>, Refusal>
    ensures { Gives result (spec.module_items end lines.now) }
{
    let scope = Scope {
        alloc,
        place: Place::Module,
        room: IN_MODULE,
    };
    scope.in_order(0, end, lines, |end, group, form| {
        module_item(alloc, end, group, form)
    })
}

fn is_future(item: &Item) -> bool
    ensures { result ≡ spec.is_future item.now }
{
    match item {
        Item::Import(_, names) => names.as_slice().is_empty(),
        Item::Func(_) | Item::Class(_) | Item::Other(_) => false,
    }
}

fn has_future(items: &[Item]) -> bool
    ensures { result ≡ spec.has_future items.now }
{
    items.iter().any(|item| is_future(item))
}

pub fn fault_in(fault: Option<(Line, Construct)>) -> Option<Refusal>
    ensures { result ≡ spec.fault_in fault }
{
    match fault {
        None => None,
        Some((line, construct)) => Some(Refusal::Refused { line, construct }),
    }
}

/// The module that the text is, with its nodes numbered.
///
/// The text has at most 262,144 bytes.
///
/// # Errors
///
/// `Refused` with the first faulty line and its construct, where the text is no module of the grammar, and `Memory` when memory
/// runs out.
#[tactic(auto, unfolding(crate::specs::Parsed::parsed, py_grammar::specs::Modules::unnumbered))]
pub fn read_module(alloc: Global, text: &[u8]) -> Result<Module, Refusal>
    requires { length text.now ≤ 262144 }
    ensures { Gives result (parsed text.now) }
{
    let tokens = tokens(alloc, text)?;
    let end = fault_in(tokens.fault);
    let items = module_items(alloc, end, tokens.lines.as_slice())?;
    if let Some(fault) = end {
        return Err(fault);
    }
    let future = has_future(items.as_slice());
    let made = Module {
        items,
        future,
        nodes: 0,
    };
    Ok(number(alloc, &made)?)
}
