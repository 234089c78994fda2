// References to the nodes of a module.
ghost use Rattle.std.specs.Prelude.{◌≡◌};
ghost use Rattle.py_sites.specs.Nodes.{number};
ghost use Rattle.py_sites.specs.Refs.{seen};

use py_syntax::{Clause, Expr, Func, Stmt};
use pyn_base::NodeId;

/// A node of a module: a function, or a statement, an except clause or an expression of a function's body.
#[derive(Clone, Copy)]
pub enum NodeRef<'a> {
    Func(&'a Func),
    Stmt(&'a Stmt),
    Clause(&'a Clause),
    Expr(&'a Expr),
}

/// The number of a node.
pub fn number_of(node: NodeRef<'_>) -> u32
    ensures { result ≡ number (seen node.entry) }
{
    match node {
        NodeRef::Func(f) => f.node.0,
        NodeRef::Stmt(s) => s.node.0,
        NodeRef::Clause(c) => c.node.0,
        NodeRef::Expr(e) => e.node.0,
    }
}
