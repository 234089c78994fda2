// The earliest of faults.
ghost use Rattle.std.specs.Prelude.{◌≡◌};
ghost use Rattle.py_scopes.specs.Refusals.{earlier, fault_of};
ghost use Rattle.py_accept.specs.Faults.{first_of};

use py_syntax::Line;
use pyn_base::Construct;

fn fault_of(rule: &(Construct, Option<Line>)) -> Option<(Line, Construct)>
    ensures { result ≡ fault_of rule.now.0 rule.now.1 }
{
    match rule.1 {
        None => None,
        Some(line) => Some((line, rule.0)),
    }
}

fn earlier(
    first: Option<(Line, Construct)>,
    other: Option<(Line, Construct)>,
) -> Option<(Line, Construct)>
    ensures { result ≡ earlier first other }
{
    match first {
        None => other,
        Some(a) => match other {
            None => first,
            Some(b) => { if b.0 < a.0 { other } else { first } }
        },
    }
}

/// The earliest fault of rules in their order; on one line that of the first rule.
pub(crate) fn earliest_of(rules: &[(Construct, Option<Line>)]) -> Option<(Line, Construct)>
    ensures { result ≡ first_of rules.now }
{
    let mut found = None;
    for rule in rules {
        found = earlier(found, fault_of(rule));
    }
    found
}
