//! The marks of a plan.

ghost use Rattle.std.specs.Prelude.{◌≡◌, ◌↔◌, IsTrue, IfOk, IsOkUnless, MatchOption, map};
ghost use Rattle.wire_runs.specs.Plan.{event_of};
ghost use Rattle.wire_runs.specs.Plan as runs;
ghost use Rattle.wire_scripts.specs.Planned.{plan_of};
ghost use Rattle.wire_runs.specs.Order.{Live, Before};
ghost use Rattle.wire_happens_before.specs.Clocks.{AreMarks, IsClockOf};
ghost use Rattle.wire_happens_before.specs.Updates.{AreUpdates};
ghost use Rattle.wire_happens_before.specs.Chain.{IsShownChain};

use crate::clocks::Clocks;
use crate::grow::mark_all;
use crate::steps::{chain_between, is_same};
use crate::updates::Update;
use std::alloc::Global;
use std::marker::Model;
use wire_plan::Plan;
use wire_types::{Event, Fault, Proc};

/// Which events of a plan are live, and which are before which, by clocks; and the live calls that change
/// what stands under each name.
pub struct HappensBefore {
    clocks: Clocks,
}

// By hand and not derived: so dropping one is a call, and the proof of a function that drops one doesn't take it apart.
impl Drop for HappensBefore {
    fn drop(self) {
        let HappensBefore { clocks: _ } = self;
    }
}

impl Model for HappensBefore {
    ghost use Rattle.std.specs.Prelude.{ℕ, ◌<◌, ◌^◌};
    ghost use Rattle.wire_happens_before.specs.Clocks as spec;

    ghost Value = { spec.Clocks };

    ghost view = { λ m. m.clocks };

    ghost invariant = { λ m. (p : ℕ) → spec.marked_count m.clocks p < 2 ^ 32 };
}

impl HappensBefore {
    /// The marks of a plan. An event is marked after its sources, so what waits in a circle never
    /// is. The one fault is `Fault::Memory`.
    pub fn of(alloc: Global, plan: &Plan) -> Result<HappensBefore, Fault>
        ensures ok { IfOk result (λ marks. AreMarks (plan_of plan.now) marks) }
        ensures memory { IsOkUnless result Fault.Memory }
    {
        let clocks = mark_all(alloc, plan)?;
        Ok(HappensBefore { clocks })
    }

    /// Whether an event is live: the scripts don't rule it out, and all its sources are live.
    pub fn live(&self, event: Event) -> bool
        ensures { (plan : runs.Plan) → AreMarks plan self.now → (IsTrue result ↔ Live plan (event_of event)) }
    {
        self.clocks.is_marked(event)
    }

    /// Whether there is a chain from x to y, through live events.
    pub fn before(&self, x: Event, y: Event) -> bool
        ensures { (plan : runs.Plan) → AreMarks plan self.now → (IsTrue result ↔ Before plan (event_of x) (event_of y)) }
    {
        !is_same(x, y) && x.at < self.clocks.count(y, x.proc)
    }

    /// How many events of a process are this one or before it, 0 where it isn't live.
    pub fn clock(&self, event: Event, proc: Proc) -> u32
        ensures { (plan : runs.Plan) → AreMarks plan self.now → IsClockOf plan (event_of event) proc.number result }
    {
        self.clocks.count(event, proc)
    }

    /// Of the live calls that can change a name those that change what stands there, or more of them, each
    /// once. None is before one that stands in front of it; so where each two of them are ordered by chains,
    /// they stand in this order. Each has the publish that stands under the name after it, where the calls
    /// happened in this order (PMIx Standard 5.0, PMIx_Publish, PMIx_Unpublish).
    pub fn updates(&self, name: u32) -> &[Update]
        ensures { (plan : runs.Plan) → AreMarks plan self.now → AreUpdates plan (Live plan) name result.now }
    {
        self.clocks.updates.list(name)
    }

    /// The chain from x to y that is shown, both ends in it, and none where x isn't before y. Each
    /// event but x stands after the lowest of its sources that is x or that x is before. The caller
    /// ensures that the marks are those of the plan. The one fault is `Fault::Memory`.
    pub fn chain(
        &self,
        alloc: Global,
        plan: &Plan,
        x: Event,
        y: Event,
    ) -> Result<Option<Vec<Event>>, Fault>
        requires { AreMarks (plan_of plan.now) self.now }
        ensures shown { IfOk result (λ o. MatchOption o (Before (plan_of plan.now) (event_of x) (event_of y) → ⊥)
            (λ chain. IsShownChain (plan_of plan.now) (event_of x) (event_of y) (map event_of chain.items) × Before (plan_of plan.now) (event_of x)
            (event_of y))) }
        ensures memory { IsOkUnless result Fault.Memory }
    {
        if !self.before(x, y) {
            return Ok(None);
        }
        let chain = chain_between(alloc, self, plan, x, y)?;
        Ok(Some(chain))
    }
}
