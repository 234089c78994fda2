// The tree of a module of the first form, with the numbers of its nodes and lines.
ghost use Rattle.std.specs.Prelude.{◌≡◌, ◌≤◌, ◌<◌, IfOk, length};
ghost use Rattle.py_language.specs.FirstForm.{func_at, module_of};

use py_language::First;
use py_syntax::{Expr, Func, Item, Line, Module, Stmt, StmtKind};
use pyn_base::NodeId;
use sqlite_items::Items;
use std::alloc::{AllocError, Global};

// The function that has this place in its module. Three nodes and four lines go with each.
fn func_at(alloc: Global, place: u32, function: First) -> Result<Func, AllocError>
    requires { place < 2000 }
    ensures { IfOk result (λ func. func ≡ func_at place function) }
{
    let node = 3 * place;
    let line = 4 * place as Line + 1;
    let literal = Expr {
        node: NodeId(node + 2),
        line: line + 1,
        kind: function.literal,
    };
    let mut body = Items::new(alloc);
    body.push(Stmt {
        node: NodeId(node + 1),
        line: line + 1,
        kind: StmtKind::Return(Some(literal)),
    })?;
    Ok(Func {
        node: NodeId(node),
        name: function.name,
        line,
        params: Items::new(alloc),
        returns: None,
        body,
    })
}

/// The module that holds these functions.
pub(crate) fn module_of(alloc: Global, functions: Vec<First>) -> Result<Module, AllocError>
    requires { length functions.items ≤ 2000 }
    ensures { IfOk result (λ whole. whole ≡ module_of functions.items) }
{
    let nodes = 3 * functions.len() as u32;
    let mut items = Items::new(alloc);
    for function in functions {
        let place = items.len() as u32;
        items.push(Item::Func(func_at(alloc, place, function)?))?;
    }
    Ok(Module {
        items,
        future: false,
        nodes,
    })
}
