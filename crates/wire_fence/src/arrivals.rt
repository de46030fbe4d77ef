//! Who has arrived at the fences.

ghost use Rattle.std.specs.Prelude.{◌≡◌, ◌<◌, ◌==◌, ℕ, suc, Some, length, map, IfOk, IsOkUnless};
ghost use Rattle.wire_runs.specs.Plan.{update};
ghost use Rattle.wire_runs.specs.Fences.{is_complete};
ghost use Rattle.wire_scripts.specs.Scripts.{Scripts as TheScripts};
ghost use Rattle.wire_scripts.specs.Planned.{plan_of};
ghost use Rattle.wire_fence.specs.FenceTable.{FenceInfo, FenceTable, AreFencesOf, fence_at};
ghost use Rattle.wire_fence.specs.Arrivals.{TellsMissing, IsArriving, missing_at as how_many_missing, one_arrived};

use crate::table::{FenceId, Fences};
use std::alloc::Global;
use std::marker::Model;
use wire_types::{Fault, Proc};

/// How many members of each fence haven't arrived, by the fence's number.
#[derive(Drop)]
pub struct Arrivals {
    missing: Vec<usize>,
}

impl Model for Arrivals {
    ghost use Rattle.std.specs.Prelude.{List, ℕ};

    ghost Value = { List ℕ };

    ghost view = { λ s. s.missing.items };
}

impl Arrivals {
    /// The counts before the first event: nobody has arrived. The only error is `Fault::Memory`.
    pub fn new(alloc: Global, fences: &Fences) -> Result<Arrivals, Fault>
        ensures ok { IfOk result (λ arrivals. arrivals ≡ map (λ (f : FenceInfo). length f.members) fences.now.fences) }
        ensures nobody { IfOk result (λ arrivals. (s : TheScripts) → AreFencesOf s fences.now → TellsMissing s (λ p. 0) fences.now arrivals) }
        ensures memory { IsOkUnless result Fault.Memory }
    {
        Ok(Arrivals {
            missing: fences.sizes(alloc)?,
        })
    }

    /// How many members of a fence are missing.
    fn missing_at(&self, fence: FenceId) -> usize
        ensures { result ≡ how_many_missing self.now fence.number }
    {
        match self.missing.get(fence.number as usize) {
            Some(missing) => *missing,
            None => 0,
        }
    }

    /// One member fewer is missing.
    fn count_one(&mut self, fence: FenceId)
        requires { 0 < how_many_missing self.old fence.number }
        ensures { self.new ≡ one_arrived fence.number self.old }
    {
        self.missing[fence.number as usize] -= 1;
    }

    /// Counts the arrival of a member that hasn't arrived: the caller ensures that it is one. Only how many
    /// are missing is kept, not who. It takes no memory.
    pub fn arrive(&mut self, fence: FenceId, proc: Proc)
        requires { 0 < how_many_missing self.old fence.number }
        ensures one { self.new ≡ one_arrived fence.number self.old }
        ensures arrived { (s : TheScripts) (cut : ℕ → ℕ) (table : FenceTable) → AreFencesOf s table → IsArriving s cut table fence.number proc.number
            → TellsMissing s cut table self.old → TellsMissing s (update cut proc.number (suc (cut proc.number))) table self.new }
    {
        self.count_one(fence);
    }

    /// Whether all members have arrived at a fence. Nobody is missing at a number that no fence has.
    pub fn complete(&self, fence: FenceId) -> bool
        ensures none { result ≡ (how_many_missing self.now fence.number == 0) }
        ensures complete { (s : TheScripts) (cut : ℕ → ℕ) (table : FenceTable) (info : FenceInfo) → TellsMissing s cut table self.now
            → fence_at table fence.number ≡ Some info → result ≡ is_complete (plan_of s) cut info.members info.nth }
    {
        self.missing_at(fence) == 0
    }
}
