// What a module of the first form holds.

use py_syntax::ExprKind;
use pyn_base::Name;

/// A function of the first form: its name, and the literal that it returns.
#[derive(Drop)]
pub struct First {
    pub name: Name,
    pub literal: ExprKind,
}
