// How often each number was met.
ghost use Rattle.std.specs.Prelude.{◌≡◌, ℕ, ◌+◌, ◌<◌, ◌≤◌, ◌∷◌, [], length, OnOk, IfOk, slice_index};
ghost use Rattle.chosen_tests.specs.Counting.{Counted, Rose, Settles, lacks, times};

use pyn_base::Memory;
use std::alloc::Global;
use std::marker::Model;

/// A count for each number; a number after the last one was never met.
#[derive(Drop)]
pub(crate) struct Counts {
    counts: Vec<u64>,
}

impl Model for Counts {
    ghost use Rattle.std.specs.Prelude.{ℕ, List};

    ghost Value = { List ℕ };

    ghost view = { λ c. c.counts.items };
}

impl Counts {
    /// Nothing met.
    pub(crate) fn new(alloc: Global) -> Counts
        ensures { Counted result [] }
    {
        Counts {
            counts: Vec::new(alloc),
        }
    }

    /// How often a number was met.
    fn count(&self, number: u32) -> u64
        ensures { result ≡ slice_index self.now number }
    {
        self.counts.get(number as usize).copied().unwrap_or(0)
    }

    /// Room for the count of a number.
    #[tactic(auto, using(crate::proofs::Tally::get_or_push_zero))]
    fn reserve_for(&mut self, number: u32) -> Result<(), Memory>
        ensures room { OnOk result (number < length self.new) }
        ensures same { OnOk result ((x : ℕ) → slice_index self.new x ≡ slice_index self.old x) }
    {
        for _grown in self.counts.len()..number as usize + 1 {
            self.counts.push(0)?;
        }
        Ok(())
    }

    /// One more of a number. No table has room for a count past 64 bits.
    #[tactic(auto, using(crate::proofs::Tally::rose_set, crate::proofs::Tally::rose_from))]
    fn rise(&mut self, number: u32) -> Result<(), Memory>
        ensures { OnOk result (Rose self.old self.new (number ∷ [])) }
    {
        self.reserve_for(number)?;
        let at = number as usize;
        let risen = self.counts[at].checked_add(1).ok_or(Memory)?;
        self.counts[at] = risen;
        Ok(())
    }

    /// One less of a number.
    #[tactic(auto, using(crate::proofs::Tally::rose_unset))]
    fn sink(&mut self, number: u32)
        requires { 0 < slice_index self.old number }
        ensures { Rose self.new self.old (number ∷ []) }
    {
        let at = number as usize;
        self.counts[at] = self.counts[at] - 1;
    }

    /// One more of each.
    #[tactic(auto, using(crate::proofs::Tally::rose_none, crate::proofs::Tally::rose_more))]
    pub(crate) fn add(&mut self, numbers: &[u32]) -> Result<(), Memory>
        ensures { OnOk result (Rose self.old self.new numbers.now) }
    {
        for number in numbers {
            self.rise(*number)?;
        }
        Ok(())
    }

    /// One less of each.
    #[tactic(auto, using(crate::proofs::Tally::rose_none, crate::proofs::Tally::sank_more, crate::proofs::Tally::counted_next))]
    fn remove(&mut self, numbers: &[u32])
        requires { (x : ℕ) → times x numbers.now ≤ slice_index self.old x }
        ensures { Rose self.new self.old numbers.now }
    {
        for number in numbers {
            self.sink(*number);
        }
    }

    /// Whether one of the numbers was never met.
    pub(crate) fn lacks(&self, numbers: &[u32]) -> bool
        ensures { result ≡ lacks self.now numbers.now }
    {
        numbers.iter().any(|number| self.count(*number) == 0)
    }

    /// Whether one of the numbers was met nowhere else. If not, one less of each.
    #[tactic(auto, using(crate::proofs::Tally::settles_gone, crate::proofs::Tally::settles_stays))]
    pub(crate) fn settle(&mut self, numbers: &[u32]) -> Result<bool, Memory>
        requires { (x : ℕ) → times x numbers.now ≤ slice_index self.old x }
        ensures { IfOk result (λ needed. Settles self.old self.new numbers.now needed) }
    {
        self.remove(numbers);
        if self.lacks(numbers) {
            self.add(numbers)?;
            return Ok(true);
        }
        Ok(false)
    }
}
