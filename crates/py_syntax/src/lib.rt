//! Syntax trees of the supported subset of Python 3.10: modules, functions, statements, expressions,
//! annotations, and the patches that rewrite one node.
//!
//! The names are those of the Python Language Reference, chapters 6 to 8. The trees are plain data without
//! behaviour. A contract sees `Items` as a list and `Boxed` as its value, so a tree is the data that it holds.
//! This layer knows nothing of text, of tokens or of running.
//!
//! It stands on `pyn_base`.
#![tactic(auto)]

mod expr;
mod module;
mod operator;
mod patch;
mod refusal;
mod stmt;

pub use expr::{Args, Expr, ExprKind};
pub use module::{Class, Func, Item, Member, Module, Param};
pub use operator::{BinOp, CmpOp, Sign};
pub use patch::{Change, Patch};
pub use refusal::Refusal;
pub use stmt::{Annotation, Clause, Stmt, StmtKind, Target};

/// The number of a line of a text. The first line is 1.
pub type Line = u64;
