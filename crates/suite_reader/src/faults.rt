// Faults, of which the earliest is told.
ghost use Rattle.std.specs.Prelude.{◌≡◌};
ghost use Rattle.suite_file.specs.SuiteOf.{rank, is_earlier, earlier, form_if};

use py_syntax::Line;
use pyn_base::Construct;

/// A line, and what is told of it.
pub type Fault = (Line, Construct);

/// On one line a test's name is told before a form, and that before an unknown name.
fn rank(construct: Construct) -> u32
    ensures { result ≡ rank construct }
{
    match construct {
        Construct::TestName => 0,
        Construct::Form => 1,
        _ => 2,
    }
}

fn is_earlier(a: Fault, b: Fault) -> bool
    ensures { result ≡ is_earlier a b }
{
    a.0 < b.0 || (a.0 == b.0 && rank(a.1) < rank(b.1))
}

/// The earlier of two faults; of two that are told alike the first.
pub fn earlier(first: Option<Fault>, other: Option<Fault>) -> Option<Fault>
    ensures { result ≡ earlier first other }
{
    match first {
        None => other,
        Some(a) => match other {
            None => first,
            Some(b) => { if is_earlier(b, a) { other } else { first } }
        },
    }
}

pub fn form_if(is_wrong: bool, line: Line) -> Option<Fault>
    ensures { result ≡ form_if is_wrong line }
{
    if is_wrong {
        Some((line, Construct::Form))
    } else {
        None
    }
}
