// Steps: what a run may still spend.
ghost use Rattle.std.specs.Prelude.{◌≡◌, ℕ, ◌-◌, nat_le, if◌then◌else◌};

use std::marker::Model;

/// The steps that a run has left, which a contract sees as their number.
#[derive(Debug, Drop)]
pub struct Fuel {
    steps: u32,
}

impl Model for Fuel {
    ghost Value = { ℕ };

    ghost view = { λ f. f.steps };
}

impl Fuel {
    /// `limit` steps.
    pub fn new(limit: u32) -> Fuel
        ensures { result ≡ limit }
    {
        Fuel { steps: limit }
    }

    /// The steps that are left.
    pub fn left(&self) -> u32
        ensures { result ≡ self.now }
    {
        self.steps
    }

    /// Takes `n` steps. The answer is false where fewer are left, and then none is taken.
    pub fn take(&mut self, n: u64) -> bool
        ensures enough { result ≡ nat_le n self.old }
        ensures left { self.new ≡ (if nat_le n self.old then self.old - n else self.old) }
    {
        if n <= self.steps as u64 {
            self.steps -= n as u32;
            true
        } else {
            false
        }
    }
}
