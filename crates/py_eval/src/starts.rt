// Nodes whose first part is evaluated while they wait.
ghost use Rattle.std.specs.Prelude.{◌≡◌, ◌+◌, IfOk};
ghost use Rattle.py_syntax.specs.declared.expr.ExprKind.{ExprKind-F};
ghost use Rattle.py_frames.specs.Loads.{weight};
ghost use Rattle.py_eval.specs.Transitions.{Starts};

use py_frames::{Control, Decision, Doing, Operand, Pending, laws_of_frames};
use py_syntax::{BinOp, CmpOp, Expr, Sign};
use pyn_base::{Memory, Name};
use sqlite_items::{Boxed, Items};

/// `object.name`: the object comes first.
pub fn start_attribute<'s, W>(
    stack: &mut Vec<Control<'s>>,
    of: &'s Boxed<Expr>,
    name: &'s Name,
) -> Result<Doing<'s>, Memory>
    ensures { IfOk result (λ next. Starts W stack.old.items (ExprKind-F.Attr of.now name.now) stack.new.items next) }
{
    laws_of_frames::<W>();
    stack.push(Control::Then(Pending::Operand(Operand::Attribute(name))))?;
    Ok(Doing::Eval(of.get()))
}

/// `object[index]`: the object comes first.
pub fn start_index<'s, W>(
    stack: &mut Vec<Control<'s>>,
    of: &'s Boxed<Expr>,
    at: &'s Boxed<Expr>,
) -> Result<Doing<'s>, Memory>
    ensures { IfOk result (λ next. Starts W stack.old.items (ExprKind-F.Index of.now at.now) stack.new.items next) }
{
    laws_of_frames::<W>();
    stack.push(Control::Then(Pending::Operand(Operand::Index(at))))?;
    Ok(Doing::Eval(of.get()))
}

/// `object[low:high]`: the object comes first.
pub fn start_slice<'s, W>(
    stack: &mut Vec<Control<'s>>,
    of: &'s Boxed<Expr>,
    low: &'s Option<Boxed<Expr>>,
    high: &'s Option<Boxed<Expr>>,
) -> Result<Doing<'s>, Memory>
    ensures { IfOk result (λ next. Starts W stack.old.items (ExprKind-F.Slice of.now low.now high.now) stack.new.items next) }
{
    laws_of_frames::<W>();
    stack.push(Control::Then(Pending::Operand(Operand::Bounds(low, high))))?;
    Ok(Doing::Eval(of.get()))
}

/// A sign: its operand comes first.
pub fn start_sign<'s, W>(
    stack: &mut Vec<Control<'s>>,
    sign: Sign,
    e: &'s Boxed<Expr>,
) -> Result<Doing<'s>, Memory>
    ensures { IfOk result (λ next. Starts W stack.old.items (ExprKind-F.Unary sign e.now) stack.new.items next) }
{
    laws_of_frames::<W>();
    stack.push(Control::Then(Pending::Operand(Operand::Sign(sign))))?;
    Ok(Doing::Eval(e.get()))
}

/// A binary operator: its left operand comes first.
pub fn start_binary<'s, W>(
    stack: &mut Vec<Control<'s>>,
    op: BinOp,
    a: &'s Boxed<Expr>,
    b: &'s Boxed<Expr>,
) -> Result<Doing<'s>, Memory>
    ensures { IfOk result (λ next. Starts W stack.old.items (ExprKind-F.Binary op a.now b.now) stack.new.items next) }
{
    laws_of_frames::<W>();
    stack.push(Control::Then(Pending::Operand(Operand::Right(op, b))))?;
    Ok(Doing::Eval(a.get()))
}

/// `not`: its operand comes first.
pub fn start_not<'s, W>(
    stack: &mut Vec<Control<'s>>,
    e: &'s Boxed<Expr>,
) -> Result<Doing<'s>, Memory>
    ensures { IfOk result (λ next. Starts W stack.old.items (ExprKind-F.Not e.now) stack.new.items next) }
{
    laws_of_frames::<W>();
    stack.push(Control::Then(Pending::Decision(Decision::Not)))?;
    Ok(Doing::Eval(e.get()))
}

/// A chain of comparisons: its first operand comes first.
pub fn start_comparison<'s, W>(
    stack: &mut Vec<Control<'s>>,
    first: &'s Boxed<Expr>,
    others: &'s Items<(CmpOp, Expr)>,
) -> Result<Doing<'s>, Memory>
    ensures { IfOk result (λ next. Starts W stack.old.items (ExprKind-F.Compare first.now others.now) stack.new.items next) }
{
    laws_of_frames::<W>();
    stack.push(Control::Then(Pending::Decision(Decision::Compare(others))))?;
    Ok(Doing::Eval(first.get()))
}

/// A conditional: its test comes first.
pub fn start_conditional<'s, W>(
    stack: &mut Vec<Control<'s>>,
    e: &'s Boxed<Expr>,
    test: &'s Boxed<Expr>,
    other: &'s Boxed<Expr>,
) -> Result<Doing<'s>, Memory>
    ensures { IfOk result (λ next. Starts W stack.old.items (ExprKind-F.Cond e.now test.now other.now) stack.new.items next) }
{
    laws_of_frames::<W>();
    stack.push(Control::Then(Pending::Decision(Decision::Choose(e, other))))?;
    Ok(Doing::Eval(test.get()))
}
