// The orderings. The recursion is as deep as the comparison limit at most.
ghost use Rattle.std.specs.Prelude.{◌≡◌, ◌≤◌, ℕ};
ghost use Rattle.py_meaning.specs.Less.{holds, ordered, ordered_within, order_within, ordered_parts, ordered_numbers, ordered_refs, ordered_texts};
ghost use Rattle.py_meaning.specs.Equal.{equal_within};

use crate::equal::COMPARISON_LIMIT;
use crate::same::{is_view, number};
use crate::{Object, Objects, Op, Order, Value};
use py_meaning::done;
use pyn_base::{BuiltClass, Construct, Fuel, ObjId, PyInt};
use std::cmp::Ordering;

impl Objects {
    /// Whether one value is less than another.
    pub fn less(&self, a: &Value, b: &Value, fuel: &mut Fuel) -> Op<bool>
        ensures meant { ordered self.now Order.Less a.now b.now fuel.old ≡ (result, fuel.new) }
        ensures fuel { fuel.new ≤ fuel.old }
    {
        self.order(Order::Less, a, b, fuel)
    }

    /// Whether an ordering holds of two values.
    #[tactic(auto, unfolding(py_meaning::specs::Less::ordered))]
    pub fn order(&self, order: Order, a: &Value, b: &Value, fuel: &mut Fuel) -> Op<bool>
        ensures meant { ordered self.now order a.now b.now fuel.old ≡ (result, fuel.new) }
        ensures fuel { fuel.new ≤ fuel.old }
    {
        self.ordered_within(COMPARISON_LIMIT, order, a, b, fuel)
    }

    /// The same, where so many levels of parts may still be compared.
    #[cycle(order)]
    #[tactic(auto, using(py_meaning::specs::Folds::views))]
    fn ordered_within(
        &self,
        levels: u8,
        order: Order,
        a: &Value,
        b: &Value,
        fuel: &mut Fuel,
    ) -> Op<bool>
        ensures { ordered_within levels self.now order a.now b.now fuel.old ≡ (result, fuel.new) }
    {
        if is_view(a) || is_view(b) {
            return Op::Leaves(Construct::View);
        }
        match a {
            Value::Str(s) => match b {
                Value::Str(t) => ordered_texts(order, s.as_slice(), t.as_slice(), fuel),
                _ => Op::Raises(BuiltClass::TypeError),
            },
            Value::Tuple(xs) => match b {
                Value::Tuple(ys) => {
                    self.ordered_sequences(levels, order, xs.as_slice(), ys.as_slice(), fuel)
                }
                _ => Op::Raises(BuiltClass::TypeError),
            },
            Value::Ref(i) => match b {
                Value::Ref(j) => self.ordered_refs(levels, order, *i, *j, fuel),
                _ => Op::Raises(BuiltClass::TypeError),
            },
            Value::Bool(_) => ordered_numbers(order, number(a), number(b)),
            Value::Int(_) => ordered_numbers(order, number(a), number(b)),
            Value::None => Op::Raises(BuiltClass::TypeError),
            Value::Class(_) => Op::Raises(BuiltClass::TypeError),
            Value::Func(_) => Op::Raises(BuiltClass::TypeError),
            Value::View(_) => Op::Raises(BuiltClass::TypeError),
            Value::ModuleRef => Op::Raises(BuiltClass::TypeError),
        }
    }

    #[cycle(order)]
    fn ordered_refs(
        &self,
        levels: u8,
        order: Order,
        i: ObjId,
        j: ObjId,
        fuel: &mut Fuel,
    ) -> Op<bool>
        ensures { ordered_refs self.now (order_within levels self.now order) i j fuel.old ≡ (result, fuel.new) }
    {
        match self.object(i) {
            Some(Object::Dict(_, _)) => Op::Raises(BuiltClass::TypeError),
            Some(Object::Instance(_, _, _)) => Op::Raises(BuiltClass::TypeError),
            _ => match self.object(j) {
                Some(Object::Dict(_, _)) => Op::Raises(BuiltClass::TypeError),
                Some(Object::Instance(_, _, _)) => Op::Raises(BuiltClass::TypeError),
                _ => self.ordered_sequences(
                    levels,
                    order,
                    self.elements(i),
                    self.elements(j),
                    fuel,
                ),
            },
        }
    }

    /// Lists or tuples.
    #[cycle(order)]
    fn ordered_sequences(
        &self,
        levels: u8,
        order: Order,
        xs: &[Value],
        ys: &[Value],
        fuel: &mut Fuel,
    ) -> Op<bool>
        ensures { order_within levels self.now order xs.now ys.now fuel.old ≡ (result, fuel.new) }
    {
        if levels == 0 {
            Op::Leaves(Construct::ComparisonDepth)
        } else {
            self.ordered_parts(levels - 1, order, xs, ys, fuel)
        }
    }

    /// The first unequal pair decides, and else the lengths.
    #[cycle(order)]
    fn ordered_parts(
        &self,
        levels: u8,
        order: Order,
        xs: &[Value],
        ys: &[Value],
        fuel: &mut Fuel,
    ) -> Op<bool>
        ensures { ordered_parts order (equal_within levels self.now) (ordered_within levels self.now order) xs.now ys.now fuel.old ≡ (result, fuel.new) }
    {
        for (at, x) in xs.iter().enumerate() {
            let Some(y) = ys.get(at) else {
                return Op::Done(holds(order, Ordering::Greater));
            };
            if !fuel.take(1) {
                return Op::OutOfSteps;
            }
            if !done!(self.equal_within(levels, x, y, fuel)) {
                return self.ordered_within(levels, order, x, y, fuel);
            }
        }
        Op::Done(holds(order, xs.len().cmp(&ys.len())))
    }
}

fn holds(order: Order, ordering: Ordering) -> bool
    ensures { result ≡ holds order ordering }
{
    match order {
        Order::Less => ordering.is_lt(),
        Order::Greater => ordering.is_gt(),
        Order::AtMost => ordering.is_le(),
        Order::AtLeast => ordering.is_ge(),
    }
}

fn ordered_numbers(order: Order, a: Option<PyInt>, b: Option<PyInt>) -> Op<bool>
    ensures { (left : ℕ) → ordered_numbers order a b left ≡ (result, left) }
{
    match (a, b) {
        (Some(a), Some(b)) => Op::Done(holds(order, a.get().cmp(&b.get()))),
        _ => Op::Raises(BuiltClass::TypeError),
    }
}

/// Strings by code point, at the shorter one's length.
fn ordered_texts(order: Order, s: &[char], t: &[char], fuel: &mut Fuel) -> Op<bool>
    ensures { ordered_texts order s.now t.now fuel.old ≡ (result, fuel.new) }
{
    if fuel.take(s.len().min(t.len()) as u64) {
        Op::Done(holds(order, s.cmp(t)))
    } else {
        Op::OutOfSteps
    }
}
