//! The gets that bring a key away, to the node of whoever asks, where the plan keeps what they bring.

ghost use Rattle.std.specs.Prelude.{◌≡◌, ◌≢◌, ◌<◌, ◌++◌, ◌∷◌, [], ℕ, suc, true, map, IfOk, OnOk};
ghost use Rattle.wire_runs.specs.Plan.{event_of, event_count};
ghost use Rattle.wire_runs.specs.Plan as runs;
ghost use Rattle.wire_runs.specs.Races.{IsPutOnce};
ghost use Rattle.wire_scripts.specs.Planned.{plan_of};
ghost use Rattle.wire_anywhere.specs.Gets.{gets_under, AreGetsTo, AreGetLists, AreKeptGets, AreCarrying};

use std::alloc::{AllocError, Global};
use std::collections::HashMap;
use wire_fates::KeyRead;
use wire_plan::{Kind, Plan};
use wire_types::{Event, Proc};

/// The gets of each key of a process, in process order; none where the plan doesn't
/// keep what gets bring.
pub(crate) struct GetTable {
    lists: HashMap<(u32, u32), Vec<Event>>,
}

// By hand and not derived: so dropping one is a call, and the proof of a function that drops one doesn't take it apart.
impl Drop for GetTable {
    fn drop(self) {
        let GetTable { lists: _ } = self;
    }
}

impl GetTable {
    /// Adds a get to the list of the owner and the key.
    fn add(&mut self, alloc: Global, asked: (u32, u32), event: Event) -> Result<(), AllocError>
        ensures here { OnOk result (gets_under self.new asked ≡ gets_under self.old asked ++ event_of event ∷ []) }
        ensures others { OnOk result ((other : ℕ × ℕ) → asked ≢ other → gets_under self.new other ≡ gets_under self.old other) }
    {
        match self.lists.get_mut(&asked) {
            Some(list) => list.push(event)?,
            None => {
                let mut list = Vec::new(alloc);
                list.push(event)?;
                self.lists.insert(asked, list)?;
            }
        }
        Ok(())
    }

    /// Adds an event of the plan, where it is a get.
    fn add_event(&mut self, alloc: Global, plan: &Plan, event: Event) -> Result<(), AllocError>
        requires keeps { plan.now.keeps ≡ true }
        requires there { event.at < event_count (plan_of plan.now) event.proc.number }
        ensures { OnOk result (AreGetsTo (plan_of plan.now) event.proc.number event.at self.old →
            AreGetsTo (plan_of plan.now) event.proc.number (suc event.at) self.new) }
    {
        if let Kind::Get { owner, key } = plan.kind(event) {
            self.add(alloc, (owner.number, key), event)?;
        }
        Ok(())
    }

    /// Adds the gets of a process.
    fn add_process(&mut self, alloc: Global, plan: &Plan, proc: Proc) -> Result<(), AllocError>
        requires { plan.now.keeps ≡ true }
        ensures { OnOk result (AreGetsTo (plan_of plan.now) proc.number 0 self.old →
            AreGetsTo (plan_of plan.now) (suc proc.number) 0 self.new) }
    {
        for at in 0..plan.event_count(proc) {
            self.add_event(alloc, plan, Event { proc, at })?;
        }
        Ok(())
    }

    /// Adds the gets of all processes.
    fn add_all(&mut self, alloc: Global, plan: &Plan) -> Result<(), AllocError>
        requires { plan.now.keeps ≡ true }
        ensures { OnOk result (AreGetsTo (plan_of plan.now) 0 0 self.old → AreGetLists (plan_of plan.now) self.new) }
    {
        for number in 0..plan.process_count() {
            self.add_process(alloc, plan, Proc::new(number))?;
        }
        Ok(())
    }

    /// The gets of this plan. The only error is that memory ran out.
    pub(crate) fn of(alloc: Global, plan: &Plan) -> Result<GetTable, AllocError>
        ensures { IfOk result (λ table. AreGetLists (plan_of plan.now) table) }
    {
        let mut table = GetTable {
            lists: HashMap::new(alloc),
        };
        if plan.scripts().keeps() {
            table.add_all(alloc, plan)?;
        }
        Ok(table)
    }

    /// The gets of a key, in process order.
    fn gets(&self, asked: KeyRead) -> &[Event]
        ensures { (plan : runs.Plan) → AreGetLists plan self.now → AreKeptGets plan asked.owner.number asked.key (map event_of result.now) }
    {
        let asked = (asked.owner.number, asked.key);
        match self.lists.get(&asked) {
            Some(list) => list.as_slice(),
            None => &[],
        }
    }

    /// The gets that bring a key away, which its owner puts once: all of its gets, if what the owner stores is
    /// for processes of other nodes. The plan tells this of the node of the first of them.
    pub(crate) fn carrying(&self, plan: &Plan, asked: KeyRead) -> &[Event]
        requires lists { AreGetLists (plan_of plan.now) self.now }
        requires once { IsPutOnce (plan_of plan.now) asked.owner.number asked.key }
        ensures { AreCarrying (plan_of plan.now) asked.owner.number asked.key (map event_of result.now) }
    {
        let gets = self.gets(asked);
        let Some(first) = gets.first() else {
            return gets;
        };
        let node = plan.node_of(first.proc);
        if plan.gets_to(asked.owner, asked.key, node).is_empty() {
            &[]
        } else {
            gets
        }
    }
}
