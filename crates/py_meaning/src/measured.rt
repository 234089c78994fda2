// Parts that know how deep they are.
ghost use Rattle.std.specs.Prelude.{◌≡◌, length, IfOk};

use crate::Shared;
use pyn_base::Memory;
use sqlite_items::Items;

/// The parts of a tuple, and how deep it is: one more than its deepest part. So no depth is found by visiting
/// parts, of which `(t, t)` forty times over has 2^40.
#[derive(Drop)]
pub struct Measured<T> {
    pub parts: Shared<Items<T>>,
    pub depth: u32,
}

impl<T> Measured<T> {
    pub fn as_slice(&self) -> &[T]
        ensures { result.now ≡ self.now.parts }
    {
        self.parts.as_slice()
    }

    pub fn len(&self) -> usize
        ensures { result ≡ length self.now.parts }
    {
        self.parts.len()
    }
}

impl<T: Drop> Measured<T> {
    /// The same parts for one more owner.
    pub fn share(&self) -> Result<Self, Memory>
        ensures { IfOk result (λ shared. shared ≡ self.now) }
    {
        Ok(Measured {
            parts: self.parts.share()?,
            depth: self.depth,
        })
    }
}
