// What counts as true.
ghost use Rattle.std.specs.Prelude.{◌≡◌};
ghost use Rattle.py_meaning.specs.Walk.{truth, is_filled, object_truth, view_truth};
ghost use Rattle.py_meaning.specs.Worlds.{object_at};

use crate::ranges::range_length;
use crate::{Object, Objects, Value, View};
use pyn_base::ObjId;

impl Objects {
    /// False are None, False, 0 and everything of length 0.
    #[tactic(auto, using(py_meaning::specs::Folds::views))]
    pub fn truth(&self, value: &Value) -> bool
        ensures { result ≡ truth self.now value.now }
    {
        match value {
            Value::None => false,
            Value::Bool(truth) => *truth,
            Value::Int(n) => !n.is_zero(),
            Value::Str(s) => is_filled(s.as_slice()),
            Value::Tuple(parts) => is_filled(parts.as_slice()),
            Value::Ref(id) => self.object_truth(*id),
            Value::View(view) => self.view_truth(*view),
            _ => true,
        }
    }

    fn object_truth(&self, id: ObjId) -> bool
        ensures { result ≡ object_truth (object_at self.now id) }
    {
        match self.object(id) {
            None => false,
            Some(Object::List(items)) => is_filled(items.as_slice()),
            Some(Object::Dict(pairs, _)) => is_filled(pairs.as_slice()),
            Some(Object::Instance(_, _, _)) => true,
        }
    }

    fn view_truth(&self, view: View) -> bool
        ensures { result ≡ view_truth self.now view }
    {
        match view {
            View::Range(start, stop, step) => range_length(start, stop, step) != 0,
            View::Keys(dict) => is_filled(self.pairs(dict)),
            View::Values(dict) => is_filled(self.pairs(dict)),
            View::Items(dict) => is_filled(self.pairs(dict)),
        }
    }
}

fn is_filled<T>(items: &[T]) -> bool
    ensures { result ≡ is_filled items.now }
{
    !items.is_empty()
}
