// Operators on values (Language Reference 6.5 to 6.7, 6.10 and 6.11).
ghost use Rattle.std.specs.Prelude.{◌≡◌, ◌≤◌, Ok, IfOk};
ghost use Rattle.py_plain.specs.Decisions.{negates};
ghost use Rattle.py_plain.specs.Operators.{signs, operates, augments, compares, judged_comparison, is_value_comparison};

use crate::answers::{given, settle};
use crate::{Finding, Outcome};
use py_meaning::Value;
use py_objects::{Objects, number};
use py_plain::{Judged, State};
use py_syntax::{BinOp, CmpOp, Sign};
use pyn_base::{Fuel, Memory};
use sqlite_items::Boxed;

/// A sign before a value.
pub fn sign<W: Drop>(
    s: &mut State<Objects, W>,
    sign: Sign,
    x: &Value,
) -> Result<Outcome<Finding>, Memory>
    ensures meant { IfOk result (λ end. signs sign x.now s.old ≡ (end, s.new)) }
    ensures spends { s.new.left ≤ s.old.left }
{
    let answer = py_ops::unary(sign, x);
    let end = settle(s, answer)?;
    Ok(given(s, end))
}

/// A binary operator.
pub fn operate<W: Drop>(
    s: &mut State<Objects, W>,
    op: BinOp,
    x: &Value,
    y: &Value,
) -> Result<Outcome<Finding>, Memory>
    ensures meant { IfOk result (λ end. operates op x.now y.now s.old ≡ (end, s.new)) }
    ensures spends { s.new.left ≤ s.old.left }
{
    let mut fuel = Fuel::new(s.left);
    let answer = py_ops::binary(op, x, y, &mut s.objects, &mut fuel);
    s.left = fuel.left();
    let end = settle(s, answer)?;
    Ok(given(s, end))
}

/// An augmented assignment's operator, which may change a list.
pub fn augment<W: Drop>(
    s: &mut State<Objects, W>,
    op: BinOp,
    x: &Value,
    y: &Value,
) -> Result<Outcome<Finding>, Memory>
    ensures meant { IfOk result (λ end. augments op x.now y.now s.old ≡ (end, s.new)) }
    ensures spends { s.new.left ≤ s.old.left }
{
    let mut fuel = Fuel::new(s.left);
    let answer = py_ops::augment(op, x, y, &mut s.objects, &mut fuel);
    s.left = fuel.left();
    let end = settle(s, answer)?;
    Ok(given(s, end))
}

/// Whether a comparison holds.
pub fn compare<W: Drop>(
    s: &mut State<Objects, W>,
    op: CmpOp,
    x: &Value,
    y: &Value,
) -> Result<Outcome<bool>, Memory>
    ensures meant { IfOk result (λ end. compares op x.now y.now s.old ≡ (end, s.new)) }
    ensures spends { s.new.left ≤ s.old.left }
{
    let mut fuel = Fuel::new(s.left);
    let answer = py_ops::compare(op, x, y, &s.objects, &mut fuel);
    s.left = fuel.left();
    let end = settle(s, answer)?;
    Ok(end)
}

/// Whether it compares by `<`, `<=`, `>`, `>=`, `==` or `!=`.
fn is_value_comparison(op: CmpOp) -> bool
    ensures { result ≡ is_value_comparison op }
{
    match op {
        CmpOp::Contained => false,
        CmpOp::NotContained => false,
        CmpOp::Same => false,
        CmpOp::NotSame => false,
        _ => true,
    }
}

/// A comparison of two integers, of which a truth value is one, is judged by them.
pub fn judge_comparison(op: CmpOp, x: &Value, y: &Value, outcome: bool) -> Judged
    ensures { result ≡ judged_comparison op x.now y.now outcome }
{
    match number(x) {
        Some(a) => match number(y) {
            Some(b) => {
                if is_value_comparison(op) {
                    Judged::Ints(op, a, b)
                } else {
                    Judged::Plain(outcome)
                }
            }
            None => Judged::Plain(outcome),
        },
        None => Judged::Plain(outcome),
    }
}

/// `not`, which is judged by its operand.
pub fn negate<W: Drop>(s: &State<Objects, W>, x: Finding) -> Result<Finding, Memory>
    ensures { IfOk result (λ found. negates x s.now ≡ (Ok found, s.now)) }
{
    let holds = s.objects.truth(&x.0);
    let judged = Boxed::new(s.objects.alloc(), x.1)?;
    Ok((Value::Bool(!holds), Judged::Not(judged)))
}
