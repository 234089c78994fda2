// The place of an equal element.
ghost use Rattle.std.specs.Prelude.{◌≡◌, ◌≤◌};
ghost use Rattle.py_meaning.specs.Membership.{equal_place};

use crate::{Objects, Op, Value};
use py_meaning::done;
use pyn_base::Fuel;

impl Objects {
    /// The place of the first element that is equal to an item. The element is the left operand, and each one
    /// that is looked at costs `each` steps beside the comparison.
    pub fn equal_place(
        &self,
        each: u64,
        item: &Value,
        items: &[Value],
        fuel: &mut Fuel,
    ) -> Op<Option<usize>>
        ensures meant { equal_place each self.now item.now 0 items.now fuel.old ≡ (result, fuel.new) }
        ensures fuel { fuel.new ≤ fuel.old }
    {
        for (at, x) in items.iter().enumerate() {
            if !fuel.take(each) {
                return Op::OutOfSteps;
            }
            if done!(self.equal(x, item, fuel)) {
                return Op::Done(Some(at));
            }
        }
        Op::Done(None)
    }
}
