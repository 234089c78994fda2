// Counts of what a file or a module has.
ghost use Rattle.std.specs.Prelude.{◌≡◌, ◌+◌, IfOk};

use pyn_base::Memory;

/// The number after one. No file or module has room for more.
pub fn next(number: u32) -> Result<u32, Memory>
    ensures { IfOk result (λ n. n ≡ number + 1) }
{
    match number.checked_add(1) {
        Some(next) => Ok(next),
        None => Err(Memory),
    }
}
