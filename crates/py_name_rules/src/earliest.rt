// The least line on which a rule is broken.
ghost use Rattle.std.specs.Prelude.{◌≡◌, Some};
ghost use Rattle.std.specs.List.{flat_map};
ghost use Rattle.py_scopes.specs.ModuleRows.{line_if};
ghost use Rattle.py_scopes.specs.Pieces.{lines_in};
ghost use Rattle.py_scopes.specs.Refusals.{least};
ghost use Rattle.py_uses.specs.Seen.{seen};
ghost use Rattle.py_name_rules.specs.Earliest.{earlier_of};

use crate::scope::Scope;
use crate::site::Site;
use py_syntax::Line;
use py_uses::Use;

/// A rule of names.
pub(crate) trait Rule {
    ghost use Rattle.std.specs.Prelude.{Bool};
    ghost use Rattle.py_scopes.specs.Pieces.{Place as OnePlace};
    ghost use Rattle.py_scopes.specs.Uses.{Use as Done};

    /// Which uses break it, by the place in which they stand.
    ghost breaks: { Self → OnePlace → Done → Bool };

    fn is_broken<'m>(&self, scope: &Scope<'m>, use_: Use<'m>) -> bool
        ensures { result ≡ breaks self.now scope.now (seen use_.entry) };
}

/// The earlier of what was found and of this line, if there is a fault on it.
#[tactic(auto, using(crate::proofs::Earlier::earlier_none))]
fn with_fault(found: Option<Line>, is_fault: bool, line: Line) -> Option<Line>
    ensures { result ≡ earlier_of found (least (line_if is_fault line)) }
{
    if !is_fault {
        return found;
    }
    match found {
        None => Some(line),
        Some(other) => Some(other.min(line)),
    }
}

fn least_in<R: Rule>(rule: &R, site: &Site, found: Option<Line>) -> Option<Line>
    ensures { result ≡ earlier_of found (least (lines_in (R.breaks rule.now) site.now)) }
{
    let mut least = found;
    let scope = site.scope();
    let all = site.uses();
    for used in all {
        let is_fault = rule.is_broken(scope, used.use_());
        least = with_fault(least, is_fault, used.line());
    }
    least
}

/// The least line on which a rule is broken, of all sites.
pub(crate) fn least_line<R: Rule>(rule: &R, sites: &[Site]) -> Option<Line>
    ensures { result ≡ least (flat_map (lines_in (R.breaks rule.now)) sites.now) }
{
    let mut least = None;
    for site in sites {
        least = least_in(rule, site, least);
    }
    least
}
