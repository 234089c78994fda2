// Numbering the nodes of a module.
ghost use Rattle.std.specs.Prelude.{◌≡◌, map, IfOk};
ghost use Rattle.std.specs.Option.{option_map};
ghost use Rattle.py_language.specs.TreesNumbers.{in_order};
ghost use Rattle.py_nodes.specs.Numbers.{param as param_of, func as func_of, class as class_of, member_numbered, item_numbered, uncounted_stmt, uncounted_expr, numbered};

use crate::copies::{maybe_annotation, maybe_name, names_copy};
use crate::expressions::number_after;
use crate::statements::{block, statement, whole};
use py_syntax::{Class, Expr, Func, Item, Member, Module, Param, Stmt};
use pyn_base::{Memory, NodeId};
use sqlite_items::Items;
use std::alloc::Global;

/// A copy of the module whose nodes are numbered from 0, in the order of reading, a node before its parts: every function, statement,
/// except clause and expression of a function's body. Other statements and expressions get the number 0. The parts of an expression get
/// its line.
///
/// # Errors
///
/// `Memory` when memory runs out.
pub fn number(alloc: Global, tree: &Module) -> Result<Module, Memory>
    ensures { IfOk result (λ m. m ≡ numbered tree.now) }
{
    let mut items = Items::new(alloc);
    let mut next = 0;
    let all = tree.items.as_slice();
    for one in all {
        let (made, end) = item(alloc, one, next)?;
        items.push(made)?;
        next = end;
    }
    Ok(Module {
        items,
        future: tree.future,
        nodes: next,
    })
}

fn item(alloc: Global, one: &Item, number: u32) -> Result<(Item, u32), Memory>
    ensures { IfOk result (λ r. r ≡ item_numbered one.now number) }
{
    match one {
        Item::Func(f) => {
            let (made, end) = func(alloc, f, number)?;
            Ok((Item::Func(made), end))
        }
        Item::Class(c) => {
            let (made, end) = class(alloc, c, number)?;
            Ok((Item::Class(made), end))
        }
        Item::Import(line, names) => Ok((
            Item::Import(*line, names_copy(alloc, names.as_slice())?),
            number,
        )),
        Item::Other(x) => Ok((Item::Other(uncounted(alloc, x)?), number)),
    }
}

/// A statement whose nodes aren't counted.
fn uncounted(alloc: Global, x: &Stmt) -> Result<Stmt, Memory>
    ensures { IfOk result (λ r. r ≡ uncounted_stmt x.now) }
{
    let (made, _end) = statement(alloc, false, x, 0)?;
    Ok(made)
}

fn class(alloc: Global, one: &Class, number: u32) -> Result<(Class, u32), Memory>
    ensures { IfOk result (λ r. r ≡ class_of one.now number) }
{
    let (members, end) = members(alloc, one.members.as_slice(), number)?;
    let name = one.name.to_owned(alloc)?;
    let base = maybe_name(alloc, &one.base)?;
    Ok((
        Class {
            name,
            base,
            line: one.line,
            members,
        },
        end,
    ))
}

fn members(alloc: Global, all: &[Member], number: u32) -> Result<(Items<Member>, u32), Memory>
    ensures { IfOk result (λ r. r ≡ in_order (map member_numbered all.now) number) }
{
    let mut done = Items::new(alloc);
    let mut next = number;
    for one in all {
        let (made, end) = member(alloc, one, next)?;
        done.push(made)?;
        next = end;
    }
    Ok((done, next))
}

fn member(alloc: Global, one: &Member, number: u32) -> Result<(Member, u32), Memory>
    ensures { IfOk result (λ r. r ≡ member_numbered one.now number) }
{
    match one {
        Member::Func(f) => {
            let (made, end) = func(alloc, f, number)?;
            Ok((Member::Func(made), end))
        }
        Member::Other(x) => Ok((Member::Other(uncounted(alloc, x)?), number)),
    }
}

/// A function, then its body.
fn func(alloc: Global, one: &Func, number: u32) -> Result<(Func, u32), Memory>
    ensures { IfOk result (λ r. r ≡ func_of one.now number) }
{
    let next = number_after(true, number)?;
    let (body, end) = block(alloc, true, one.body.as_slice(), next)?;
    let params = params(alloc, one.params.as_slice())?;
    let name = one.name.to_owned(alloc)?;
    let returns = maybe_annotation(alloc, &one.returns)?;
    Ok((
        Func {
            node: NodeId(number),
            name,
            line: one.line,
            params,
            returns,
            body,
        },
        end,
    ))
}

fn params(alloc: Global, all: &[Param]) -> Result<Items<Param>, Memory>
    ensures { IfOk result (λ r. r ≡ map param_of all.now) }
{
    let mut done = Items::new(alloc);
    for one in all {
        let made = param(alloc, one)?;
        done.push(made)?;
    }
    Ok(done)
}

fn param(alloc: Global, one: &Param) -> Result<Param, Memory>
    ensures { IfOk result (λ r. r ≡ param_of one.now) }
{
    let name = one.name.to_owned(alloc)?;
    let annotation = maybe_annotation(alloc, &one.annotation)?;
    let default = default(alloc, &one.default)?;
    Ok(Param {
        name,
        annotation,
        default,
        line: one.line,
    })
}

fn default(alloc: Global, x: &Option<Expr>) -> Result<Option<Expr>, Memory>
    ensures { IfOk result (λ r. r ≡ option_map uncounted_expr x.now) }
{
    match x {
        None => Ok(None),
        Some(x) => {
            let (made, _end) = whole(alloc, false, x, 0)?;
            Ok(Some(made))
        }
    }
}
