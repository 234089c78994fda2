// Where an expression is printed, and whether it needs brackets there.
ghost use Rattle.std.specs.Prelude.{◌≡◌};
ghost use Rattle.py_printing.specs.Printing.{is_bare_in, printed};
ghost use Rattle.py_printer.specs.Expressions.{of_kind, place_of, own_of, is_attribute, is_super_call, is_super_name, is_allowed, slot_number, operator_number};

use py_syntax::{BinOp, Expr, ExprKind};

/// Where an expression is printed: what the grammar reads there.
#[derive(Clone, Copy)]
pub enum Slot {
    Listed,
    Conditional,
    Disjunction,
    Conjunction,
    Negation,
    Sum,
    Product,
    Signed,
    Postfix,
    /// before the round bracket of a call: an attribute there would be a method
    Callee,
    /// before a method's dot: `super()` there would be another node
    Owner,
}

/// How tightly a slot holds, from 1 to 10.
fn slot_number(slot: Slot) -> u8
    ensures { result ≡ slot_number slot }
{
    match slot {
        Slot::Listed => 1,
        Slot::Conditional => 2,
        Slot::Disjunction => 3,
        Slot::Conjunction => 4,
        Slot::Negation => 5,
        Slot::Sum => 7,
        Slot::Product => 8,
        Slot::Signed => 9,
        Slot::Postfix => 10,
        Slot::Callee => 10,
        Slot::Owner => 10,
    }
}

/// How tightly an operator holds.
fn operator_number(op: BinOp) -> u8
    ensures { result ≡ operator_number op }
{
    match op {
        BinOp::Add => 7,
        BinOp::Sub => 7,
        _ => 8,
    }
}

/// How tightly a node holds together, from 2 to 10.
fn own(kind: &ExprKind) -> u8
    ensures { result ≡ own_of kind.now }
{
    match kind {
        ExprKind::Cond(_, _, _) => 2,
        ExprKind::Or(_) => 3,
        ExprKind::And(_) => 4,
        ExprKind::Not(_) => 5,
        ExprKind::Compare(_, _) => 6,
        ExprKind::Binary(op, _, _) => operator_number(*op),
        ExprKind::Unary(_, _) => 9,
        _ => 10,
    }
}

fn is_attribute(kind: &ExprKind) -> bool
    ensures { result ≡ is_attribute kind.now }
{
    match kind {
        ExprKind::Attr(_, _) => true,
        _ => false,
    }
}

/// Whether it is the name `super`.
fn is_super_name(kind: &ExprKind) -> bool
    ensures { result ≡ is_super_name kind.now }
{
    match kind {
        ExprKind::Name(name) => name.is("super"),
        _ => false,
    }
}

/// Whether it is `super()`.
fn is_super_call(kind: &ExprKind) -> bool
    ensures { result ≡ is_super_call kind.now }
{
    match kind {
        ExprKind::Call(callee, args) => {
            let is_super = is_super_name(&callee.get().kind);
            is_super && args.plain.is_empty() && args.named.is_empty()
        }
        _ => false,
    }
}

/// Whether a node that holds tightly enough needs no brackets in a slot.
fn is_allowed(slot: Slot, kind: &ExprKind) -> bool
    ensures { result ≡ is_allowed slot kind.now }
{
    match slot {
        Slot::Callee => !is_attribute(kind),
        Slot::Owner => !is_super_call(kind),
        _ => true,
    }
}

/// Whether a node needs no brackets in a slot.
pub fn is_bare(slot: Slot, kind: &ExprKind) -> bool
    ensures { result ≡ is_bare_in (place_of slot) (printed (of_kind kind.now)) }
{
    let holds = slot_number(slot) <= own(kind);
    holds & is_allowed(slot, kind)
}
