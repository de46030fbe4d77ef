//! What may bring a key to a get that is answered at once, where each spelling of a set is a fence of its own.

ghost use Rattle.std.specs.Prelude.{◌<◌};
ghost use Rattle.wire_runs.specs.Plan.{event_count, process_count};
ghost use Rattle.wire_scripts.specs.Planned.{plan_of};

use crate::coming::Coming;
use std::alloc::{AllocError, Global};
use std::collections::HashMap;
use wire_fates::next_arrival;
use wire_plan::{Kind, Plan};
use wire_types::{Event, Proc};

/// Whose keys are read by gets that come, from each node, or from wherever processes are.
pub(crate) struct Reads {
    places: HashMap<(u32, u32), bool>,
    anywhere: bool,
}

// By hand and not derived: so dropping one is a call, and the proof of a function that drops one doesn't take it apart.
impl Drop for Reads {
    fn drop(self) {
        let Reads {
            places: _,
            anywhere: _,
        } = self;
    }
}

impl Reads {
    /// Where a process's gets are counted.
    fn place_of(&self, plan: &Plan, proc: Proc) -> u32
        requires { proc.number < process_count (plan_of plan.now) }
    {
        if self.anywhere { 0 } else { plan.node_of(proc) }
    }

    /// Takes up an event, where it is a get of another process's key that comes.
    fn take(&mut self, plan: &Plan, coming: &Coming, event: Event) -> Result<(), AllocError>
        requires within { event.at < event_count (plan_of plan.now) event.proc.number }
        requires there { event.proc.number < process_count (plan_of plan.now) }
    {
        if let Kind::Get { owner, .. } = plan.kind(event) {
            if owner.number != event.proc.number && coming.comes(event) {
                let place = self.place_of(plan, event.proc);
                self.places.insert((owner.number, place), true)?;
            }
        }
        Ok(())
    }

    /// Takes up the events of a process.
    fn take_all(&mut self, plan: &Plan, coming: &Coming, proc: Proc) -> Result<(), AllocError>
        requires { proc.number < process_count (plan_of plan.now) }
    {
        for at in 0..plan.event_count(proc) {
            self.take(plan, coming, Event { proc, at })?;
        }
        Ok(())
    }

    /// Of a plan.
    pub(crate) fn of(
        alloc: Global,
        plan: &Plan,
        coming: &Coming,
        anywhere: bool,
    ) -> Result<Reads, AllocError> {
        let mut reads = Reads {
            places: HashMap::new(alloc),
            anywhere,
        };
        for number in 0..plan.process_count() {
            reads.take_all(plan, coming, Proc { number })?;
        }
        Ok(reads)
    }

    /// Whether a get that comes reads an owner's keys where a process is.
    fn has(&self, plan: &Plan, owner: Proc, proc: Proc) -> bool
        requires { proc.number < process_count (plan_of plan.now) }
    {
        let place = self.place_of(plan, proc);
        self.places.contains_key(&(owner.number, place))
    }

    /// Whether the first fence with a member on a reader's node that brings a key there lets its owner go on; where nodes
    /// don't matter, the first that brings it to any.
    fn fence_passes(&self, plan: &Plan, coming: &Coming, reader: Proc, asked: (Proc, u32)) -> bool
        requires owner { asked.0.number < process_count (plan_of plan.now) }
        requires reader { reader.number < process_count (plan_of plan.now) }
    {
        let (owner, key) = asked;
        let count = plan.put_count(owner, key);
        if count != 1 {
            return false;
        }
        let node = if self.anywhere {
            plan.node_of(owner)
        } else {
            plan.node_of(reader)
        };
        match next_arrival(plan, owner, key, node, 0) {
            Some(arrival) => coming.is_asked(Event {
                proc: arrival.proc,
                at: arrival.at.saturating_add(2),
            }),
            None => false,
        }
    }

    /// Whether something that comes may bring its key to a get-now.
    pub(crate) fn may_bring(&self, plan: &Plan, coming: &Coming, get: Event) -> bool
        requires { get.at < event_count (plan_of plan.now) get.proc.number }
    {
        let count = plan.process_count();
        let Kind::GetNow { owner, key } = plan.kind(get) else {
            return true;
        };
        if owner.number >= count || get.proc.number >= count {
            return true;
        }
        self.has(plan, owner, get.proc) || self.fence_passes(plan, coming, get.proc, (owner, key))
    }
}
