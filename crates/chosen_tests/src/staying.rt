// The tests that no others make needless.
ghost use Rattle.std.specs.Prelude.{◌≡◌, ℕ, [], List, IfOk};
ghost use Rattle.std.specs.List.{flat_map};
ghost use Rattle.chosen_tests.specs.Chosen.{gains_kept, staying};
ghost use Rattle.chosen_tests.specs.Counting.{Counted};

use crate::chosen::Chosen;
use crate::gaining::Gaining;
use pyn_base::Memory;
use sqlite_items::Items;
use std::alloc::Global;

/// From the last to the first, a test is left out where the others gain all that it gains.
pub(crate) fn staying_tests(alloc: Global, found: Gaining) -> Result<Items<Chosen>, Memory>
    requires { Counted found.counts (flat_map gains_kept found.tests) }
    ensures { IfOk result (λ tests. tests ≡ staying gains_kept [] found.tests) }
{
    let Gaining {
        mut tests,
        mut counts,
    } = found;
    let mut stay = Vec::new(alloc);
    while let Some(test) = tests.pop() {
        let needed = counts.settle(test.gains.as_slice())?;
        if needed {
            stay.push(test)?;
        }
    }
    stay.reverse();
    Ok(Items::from_vec(stay))
}
