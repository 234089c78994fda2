// Writing the tokens of an expression.
ghost use Rattle.std.specs.Prelude.{◌≡◌, ℕ, List, [], ◌∷◌, map, true, OnOk};
ghost use Rattle.py_language.specs.declared.token.Token.TheVariants as t;
ghost use Rattle.py_language.specs.declared.shape.Symbol.TheVariants as s;
ghost use Rattle.py_printing.specs.Printing.{arguments as symbols_of_arguments, enclosed, tuple as tuple_of};
ghost use Rattle.py_printing.specs.SymbolTokens.{sign_token, factor_token, truth};
ghost use Rattle.py_language.specs.declared.shape.Bracket.TheVariants.{Round};
ghost use Rattle.py_printer.specs.declared.slots.Slot.TheVariants as slot;
ghost use Rattle.py_printer.specs.Expressions.{draw, bare_of, printed_in, joined, joint, separator_symbol, named_symbols, entry_symbols, compared_symbols, bound_symbols, only_comma, given_of, left_slot, right_slot, is_primary, is_atom};

use crate::pen::Pen;
use crate::slots::{Slot, is_bare};
use py_language::{Keyword, Mark};
use py_syntax::{Args, BinOp, CmpOp, Expr, ExprKind, Sign};
use pyn_base::{Memory, Name};
use sqlite_items::Boxed;

/// What is between the parts of a list.
#[derive(Clone, Copy)]
pub enum Separator {
    Comma,
    And,
    Or,
}

#[tactic(auto, unfolding(crate::specs::Expressions::draw))]
fn add_separator(pen: &mut Pen, mark: Separator) -> Result<(), Memory>
    ensures { OnOk result (pen.new ≡ draw pen.old (separator_symbol mark ∷ [])) }
{
    match mark {
        Separator::Comma => pen.mark(Mark::Comma),
        Separator::And => pen.keyword(Keyword::And),
        Separator::Or => pen.keyword(Keyword::Or),
    }
}

/// Adds the separator, but before the first part.
#[tactic(auto, unfolding(crate::specs::Expressions::draw))]
fn separate(pen: &mut Pen, first: bool, mark: Separator) -> Result<(), Memory>
    ensures { OnOk result (pen.new ≡ draw pen.old (joint first (separator_symbol mark))) }
{
    if first {
        Ok(())
    } else {
        add_separator(pen, mark)
    }
}

fn sign_mark(sign: Sign) -> Mark
    ensures { t.Mark result ≡ sign_token sign }
{
    match sign {
        Sign::Minus => Mark::Minus,
        Sign::Plus => Mark::Plus,
    }
}

fn operator_mark(op: BinOp) -> Mark
    ensures { t.Mark result ≡ factor_token op }
{
    match op {
        BinOp::Add => Mark::Plus,
        BinOp::Sub => Mark::Minus,
        BinOp::Mul => Mark::Star,
        BinOp::FloorDiv => Mark::DoubleSlash,
        BinOp::Mod => Mark::Percent,
    }
}

/// Where the left operand of an operator is.
fn left_slot(op: BinOp) -> Slot
    ensures { result ≡ left_slot op }
{
    match op {
        BinOp::Add => Slot::Sum,
        BinOp::Sub => Slot::Sum,
        _ => Slot::Product,
    }
}

/// Where the right operand of an operator is.
fn right_slot(op: BinOp) -> Slot
    ensures { result ≡ right_slot op }
{
    match op {
        BinOp::Add => Slot::Product,
        BinOp::Sub => Slot::Product,
        _ => Slot::Signed,
    }
}

/// Adds the tokens of a comparison's operator.
#[tactic(auto, unfolding(crate::specs::Expressions::draw))]
fn comparison(pen: &mut Pen, op: CmpOp) -> Result<(), Memory>
    ensures { OnOk result (pen.new ≡ draw pen.old (s.Compare op ∷ [])) }
{
    match op {
        CmpOp::Lt => pen.mark(Mark::Less),
        CmpOp::Gt => pen.mark(Mark::Greater),
        CmpOp::Eq => pen.mark(Mark::EqualEqual),
        CmpOp::Ge => pen.mark(Mark::GreaterEqual),
        CmpOp::Le => pen.mark(Mark::LessEqual),
        CmpOp::Ne => pen.mark(Mark::NotEqual),
        CmpOp::Contained => pen.keyword(Keyword::In),
        CmpOp::NotContained => {
            pen.keyword(Keyword::Not)?;
            pen.keyword(Keyword::In)
        }
        CmpOp::Same => pen.keyword(Keyword::Is),
        CmpOp::NotSame => {
            pen.keyword(Keyword::Is)?;
            pen.keyword(Keyword::Not)
        }
    }
}

/// Adds an expression, in brackets where it needs them.
#[cycle(print)]
pub fn expression(pen: &mut Pen, slot: Slot, x: &Expr) -> Result<(), Memory>
    ensures { OnOk result (pen.new ≡ draw pen.old (printed_in slot x.now)) }
{
    if is_bare(slot, &x.kind) {
        return operation(pen, &x.kind);
    }
    pen.mark(Mark::LeftParen)?;
    operation(pen, &x.kind)?;
    pen.mark(Mark::RightParen)
}

/// Adds a node without brackets round it.
#[cycle(print)]
fn operation(pen: &mut Pen, kind: &ExprKind) -> Result<(), Memory>
    ensures { OnOk result (pen.new ≡ draw pen.old (bare_of kind.now)) }
{
    match kind {
        ExprKind::Unary(sign, x) => {
            pen.mark(sign_mark(*sign))?;
            expression(pen, Slot::Signed, x.get())
        }
        ExprKind::Not(x) => {
            pen.keyword(Keyword::Not)?;
            expression(pen, Slot::Negation, x.get())
        }
        ExprKind::Binary(op, x, y) => {
            expression(pen, left_slot(*op), x.get())?;
            pen.mark(operator_mark(*op))?;
            expression(pen, right_slot(*op), y.get())
        }
        ExprKind::And(xs) => series(pen, Separator::And, Slot::Negation, xs.as_slice()),
        ExprKind::Or(xs) => series(pen, Separator::Or, Slot::Conjunction, xs.as_slice()),
        ExprKind::Compare(x, others) => {
            expression(pen, Slot::Sum, x.get())?;
            compared(pen, others.as_slice())
        }
        ExprKind::Cond(x, test, y) => {
            expression(pen, Slot::Disjunction, x.get())?;
            pen.keyword(Keyword::If)?;
            expression(pen, Slot::Disjunction, test.get())?;
            pen.keyword(Keyword::Else)?;
            expression(pen, Slot::Conditional, y.get())
        }
        _ => primary(pen, kind),
    }
}

/// Adds a node that is no operator.
#[cycle(print)]
fn primary(pen: &mut Pen, kind: &ExprKind) -> Result<(), Memory>
    requires { is_primary kind.now ≡ true }
    ensures { OnOk result (pen.new ≡ draw pen.old (bare_of kind.now)) }
{
    match kind {
        ExprKind::ListLit(xs) => {
            pen.mark(Mark::LeftBracket)?;
            series(pen, Separator::Comma, Slot::Conditional, xs.as_slice())?;
            pen.mark(Mark::RightBracket)
        }
        ExprKind::TupleLit(xs) => tuple(pen, xs.as_slice()),
        ExprKind::DictLit(entries) => {
            pen.mark(Mark::LeftBrace)?;
            pairs(pen, entries.as_slice())?;
            pen.mark(Mark::RightBrace)
        }
        ExprKind::Attr(x, name) => {
            expression(pen, Slot::Postfix, x.get())?;
            pen.mark(Mark::Dot)?;
            pen.name(name)
        }
        ExprKind::Index(x, i) => {
            expression(pen, Slot::Postfix, x.get())?;
            pen.mark(Mark::LeftBracket)?;
            expression(pen, Slot::Listed, i.get())?;
            pen.mark(Mark::RightBracket)
        }
        ExprKind::Slice(x, low, high) => {
            expression(pen, Slot::Postfix, x.get())?;
            pen.mark(Mark::LeftBracket)?;
            bound(pen, low)?;
            pen.mark(Mark::Colon)?;
            bound(pen, high)?;
            pen.mark(Mark::RightBracket)
        }
        ExprKind::Call(x, args) => {
            expression(pen, Slot::Callee, x.get())?;
            arguments(pen, args)
        }
        ExprKind::Method(x, name, args) => {
            expression(pen, Slot::Owner, x.get())?;
            pen.mark(Mark::Dot)?;
            pen.name(name)?;
            arguments(pen, args)
        }
        ExprKind::Super(name, args) => {
            super_method(pen, name)?;
            arguments(pen, args)
        }
        _ => atom(pen, kind),
    }
}

fn truth(value: bool) -> Keyword
    ensures { t.Keyword result ≡ truth value }
{
    if value {
        Keyword::TrueLit
    } else {
        Keyword::FalseLit
    }
}

/// Adds a node without parts.
fn atom(pen: &mut Pen, kind: &ExprKind) -> Result<(), Memory>
    requires { is_atom kind.now ≡ true }
    ensures { OnOk result (pen.new ≡ draw pen.old (bare_of kind.now)) }
{
    match kind {
        ExprKind::NoneLit => pen.keyword(Keyword::NoneLit),
        ExprKind::BoolLit(value) => pen.keyword(truth(*value)),
        ExprKind::IntLit(number) => pen.integer(*number),
        ExprKind::StrLit(text) => pen.string(text),
        ExprKind::Name(name) => pen.name(name),
        _ => unreachable!(),
    }
}

/// Adds `super()`, a dot and a name.
#[tactic(auto, unfolding(crate::specs::Expressions::draw))]
fn super_method(pen: &mut Pen, name: &Name) -> Result<(), Memory>
    ensures { OnOk result (pen.new ≡ draw pen.old (s.Super name.now ∷ [])) }
{
    pen.super_name()?;
    pen.mark(Mark::LeftParen)?;
    pen.mark(Mark::RightParen)?;
    pen.mark(Mark::Dot)?;
    pen.name(name)
}

/// Adds expressions with a separator between them.
#[cycle(print)]
fn series(pen: &mut Pen, mark: Separator, slot: Slot, xs: &[Expr]) -> Result<(), Memory>
    ensures { OnOk result (pen.new ≡ draw pen.old (joined true (separator_symbol mark) (map (printed_in slot) xs.now))) }
{
    let mut first = true;
    for x in xs {
        separate(pen, first, mark)?;
        expression(pen, slot, x)?;
        first = false;
    }
    Ok(())
}

/// Adds the comma after the only part of a tuple.
#[tactic(auto, unfolding(crate::specs::Expressions::draw))]
fn end_tuple(pen: &mut Pen, count: usize) -> Result<(), Memory>
    ensures { OnOk result (pen.new ≡ draw pen.old (only_comma count)) }
{
    if count == 1 {
        pen.mark(Mark::Comma)
    } else {
        Ok(())
    }
}

/// Adds a tuple, with a comma after an only part.
#[cycle(print)]
fn tuple(pen: &mut Pen, xs: &[Expr]) -> Result<(), Memory>
    ensures { OnOk result (pen.new ≡ draw pen.old (enclosed Round (tuple_of (map (printed_in slot.Conditional) xs.now)))) }
{
    pen.mark(Mark::LeftParen)?;
    series(pen, Separator::Comma, Slot::Conditional, xs)?;
    end_tuple(pen, xs.len())?;
    pen.mark(Mark::RightParen)
}

/// Adds the entries of a dict.
#[cycle(print)]
fn pairs(pen: &mut Pen, entries: &[(Expr, Expr)]) -> Result<(), Memory>
    ensures { OnOk result (pen.new ≡ draw pen.old (joined true s.Comma (map entry_symbols entries.now))) }
{
    let mut first = true;
    for entry in entries {
        separate(pen, first, Separator::Comma)?;
        expression(pen, Slot::Conditional, &entry.0)?;
        pen.mark(Mark::Colon)?;
        expression(pen, Slot::Conditional, &entry.1)?;
        first = false;
    }
    Ok(())
}

/// Adds the operators of comparisons with the operands after them.
#[cycle(print)]
fn compared(pen: &mut Pen, others: &[(CmpOp, Expr)]) -> Result<(), Memory>
    ensures { OnOk result (pen.new ≡ draw pen.old (compared_symbols others.now)) }
{
    for other in others {
        comparison(pen, other.0)?;
        expression(pen, Slot::Sum, &other.1)?;
    }
    Ok(())
}

/// Adds the bound of a slice, if it is there.
#[cycle(print)]
fn bound(pen: &mut Pen, bound: &Option<Boxed<Expr>>) -> Result<(), Memory>
    ensures { OnOk result (pen.new ≡ draw pen.old (bound_symbols bound.now)) }
{
    match bound {
        None => Ok(()),
        Some(x) => expression(pen, Slot::Conditional, x.get()),
    }
}

/// Adds the arguments of a call, in their brackets.
#[cycle(print)]
fn arguments(pen: &mut Pen, args: &Args) -> Result<(), Memory>
    ensures { OnOk result (pen.new ≡ draw pen.old (symbols_of_arguments (given_of args.now))) }
{
    let plain = args.plain.as_slice();
    pen.mark(Mark::LeftParen)?;
    series(pen, Separator::Comma, Slot::Conditional, plain)?;
    named_arguments(pen, plain.is_empty(), args.named.as_slice())?;
    pen.mark(Mark::RightParen)
}

/// Adds named arguments, after others or as the first.
#[cycle(print)]
fn named_arguments(pen: &mut Pen, are_first: bool, named: &[(Name, Expr)]) -> Result<(), Memory>
    ensures { OnOk result (pen.new ≡ draw pen.old (joined are_first s.Comma (map named_symbols named.now))) }
{
    let mut first = are_first;
    for argument in named {
        separate(pen, first, Separator::Comma)?;
        pen.name(&argument.0)?;
        pen.mark(Mark::Equal)?;
        expression(pen, Slot::Conditional, &argument.1)?;
        first = false;
    }
    Ok(())
}
