// What can be counted, and what can be paid for.
ghost use Rattle.std.specs.Prelude.{◌≡◌, ◌-◌, nat_le, if◌then◌else◌};
ghost use Rattle.py_meaning.specs.Worlds.{within_machine};

use pyn_base::{Fuel, PyInt};

/// The greatest position or count of what a machine can count. The least is this below 0.
const MACHINE_SIZE: i128 = 1 << 61;

/// Whether a number is a position or a count of what a machine can count.
pub fn is_within_machine(n: PyInt) -> bool
    ensures { result ≡ within_machine n }
{
    -MACHINE_SIZE <= n.get() && n.get() <= MACHINE_SIZE
}

/// Takes steps, or none where fewer are left. The cost may be more than any number of steps.
pub fn pay(cost: u128, fuel: &mut Fuel) -> bool
    ensures enough { result ≡ nat_le cost fuel.old }
    ensures left { fuel.new ≡ (if nat_le cost fuel.old then fuel.old - cost else fuel.old) }
{
    if cost <= fuel.left() as u128 {
        fuel.take(cost as u64)
    } else {
        false
    }
}
