//! The gets that bring a key to a node, where the plan keeps what they bring.

ghost use Rattle.std.specs.Prelude.{◌≡◌, ◌≢◌, ◌<◌, ◌++◌, ◌∷◌, [], ℕ, suc, true, map, IfOk, OnOk};
ghost use Rattle.wire_runs.specs.Plan.{event_of, event_count};
ghost use Rattle.wire_runs.specs.Plan as runs;
ghost use Rattle.wire_scripts.specs.Planned.{plan_of};
ghost use Rattle.wire_plan.specs.Gets.{gets_under, AreGetsTo, AreGetLists, AreKeptGets};

use crate::deliveries::Delivery;
use crate::events::Events;
use crate::kind::Kind;
use std::alloc::{AllocError, Global};
use std::collections::HashMap;
use wire_types::{Event, Proc};

/// The gets of each key of a process by processes of a node, in process order; none where the plan doesn't
/// keep what gets bring.
pub(crate) struct GetTable {
    lists: HashMap<(u32, u32, u32), Vec<Event>>,
}

// By hand and not derived: so dropping one is a call, and the proof of a function that drops one doesn't take it apart.
impl Drop for GetTable {
    fn drop(self) {
        let GetTable { lists: _ } = self;
    }
}

impl GetTable {
    /// Adds a get to the list of the owner, the key and the node.
    fn add(&mut self, alloc: Global, asked: (u32, u32, u32), event: Event) -> Result<(), AllocError>
        ensures here { OnOk result (gets_under self.new asked ≡ gets_under self.old asked ++ event_of event ∷ []) }
        ensures others { OnOk result ((other : ℕ × ℕ × ℕ) → asked ≢ other → gets_under self.new other ≡ gets_under self.old other) }
    {
        match self.lists.get_mut(&asked) {
            Some(list) => list.push(event)?,
            None => {
                let mut list = Vec::new(alloc);
                list.push(event)?;
                self.lists.insert(asked, list)?;
            }
        }
        Ok(())
    }

    /// Adds an event of the plan, where it is a get.
    fn add_event(&mut self, alloc: Global, events: &Events, event: Event) -> Result<(), AllocError>
        requires keeps { events.now.keeps ≡ true }
        requires there { event.at < event_count (plan_of events.now) event.proc.number }
        ensures { OnOk result (AreGetsTo (plan_of events.now) event.proc.number event.at self.old →
            AreGetsTo (plan_of events.now) event.proc.number (suc event.at) self.new) }
    {
        if let Kind::Get { owner, key } = events.kind(event) {
            let node = events.node_of(event.proc);
            self.add(alloc, (owner.number, key, node), event)?;
        }
        Ok(())
    }

    /// Adds the gets of a process.
    fn add_process(&mut self, alloc: Global, events: &Events, proc: Proc) -> Result<(), AllocError>
        requires { events.now.keeps ≡ true }
        ensures { OnOk result (AreGetsTo (plan_of events.now) proc.number 0 self.old →
            AreGetsTo (plan_of events.now) (suc proc.number) 0 self.new) }
    {
        for at in 0..events.event_count(proc) {
            self.add_event(alloc, events, Event { proc, at })?;
        }
        Ok(())
    }

    /// Adds the gets of all processes.
    fn add_all(&mut self, alloc: Global, events: &Events) -> Result<(), AllocError>
        requires { events.now.keeps ≡ true }
        ensures { OnOk result (AreGetsTo (plan_of events.now) 0 0 self.old → AreGetLists (plan_of events.now) self.new) }
    {
        for number in 0..events.process_count() {
            self.add_process(alloc, events, Proc::new(number))?;
        }
        Ok(())
    }

    /// The gets of these events. The only error is that memory ran out.
    pub(crate) fn of(alloc: Global, events: &Events) -> Result<GetTable, AllocError>
        ensures { IfOk result (λ table. AreGetLists (plan_of events.now) table) }
    {
        let mut table = GetTable {
            lists: HashMap::new(alloc),
        };
        if events.scripts().keeps() {
            table.add_all(alloc, events)?;
        }
        Ok(table)
    }

    /// The gets of a key by processes of a node, in process order.
    pub(crate) fn gets(&self, delivery: Delivery) -> &[Event]
        ensures { (plan : runs.Plan) → AreGetLists plan self.now →
            AreKeptGets plan delivery.owner.number delivery.key delivery.node (map event_of result.now) }
    {
        let asked = (delivery.owner.number, delivery.key, delivery.node);
        match self.lists.get(&asked) {
            Some(list) => list.as_slice(),
            None => &[],
        }
    }
}
