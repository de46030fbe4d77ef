//! How often numbers were counted.

ghost use Rattle.std.specs.Prelude.{◌≡◌, ◌≢◌, ◌<◌, ◌+◌, ◌^◌, ℕ, IfOk, OnOk};
ghost use Rattle.wire_procmap.specs.Tallies.{counted};

use std::alloc::{AllocError, Global};
use std::collections::HashMap;

/// How often each pair of numbers was counted. A number by itself goes with 0 in front.
#[derive(Drop)]
pub(crate) struct Tally {
    counts: HashMap<(u32, u32), u32>,
}

impl Tally {
    /// Nothing is counted. Takes no memory.
    pub(crate) fn new(alloc: Global) -> Tally
        ensures { (pair : ℕ × ℕ) → counted result pair ≡ 0 }
    {
        Tally {
            counts: HashMap::new(alloc),
        }
    }

    /// How often a pair was counted.
    pub(crate) fn count(&self, pair: (u32, u32)) -> u32
        ensures { result ≡ counted self.now pair }
    {
        match self.counts.get(&pair) {
            Some(count) => *count,
            None => 0,
        }
    }

    /// Counts a pair. How often it was counted before.
    pub(crate) fn add(&mut self, pair: (u32, u32)) -> Result<u32, AllocError>
        requires { counted self.old pair + 1 < 2 ^ 32 }
        ensures before { IfOk result (λ n. n ≡ counted self.old pair) }
        ensures here { OnOk result (counted self.new pair ≡ counted self.old pair + 1) }
        ensures others { OnOk result ((other : ℕ × ℕ) → pair ≢ other → counted self.new other ≡ counted self.old other) }
    {
        match self.counts.get_mut(&pair) {
            Some(count) => {
                let before = *count;
                *count = before + 1;
                Ok(before)
            }
            None => {
                self.counts.insert(pair, 1)?;
                Ok(0)
            }
        }
    }
}
