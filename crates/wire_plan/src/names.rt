//! The calls on each name.

ghost use Rattle.std.specs.Prelude.{◌≡◌, ℕ, suc, List, Some, map, OnOk, IfOk, MatchOption};
ghost use Rattle.wire_runs.specs.Plan.{event_of, kind_at};
ghost use Rattle.wire_runs.specs.Plan as runs;
ghost use Rattle.wire_scripts.specs.Planned.{plan_of};
ghost use Rattle.wire_runs.specs.Order.{PublishesOnce};
ghost use Rattle.wire_plan.specs.Index.{AreNameCalls, ArePublishes, AreSweeps};
ghost use Rattle.wire_plan.specs.Kinds.{kind_of};
ghost use Rattle.wire_plan.specs.Tables.{only_of, IsUnswept, AreNamesTo, AreNameCallsOf};

use crate::by_number::{ByNumber, Listing};
use crate::events::Events;
use crate::kind::Kind;
use std::alloc::{AllocError, Global};
use wire_types::{Event, Proc};

/// The calls on each name alone, of these the publishes and the unpublishes, and the calls of each process
/// that take away all its names.
pub(crate) struct NameTable {
    calls: ByNumber,
    publishes: ByNumber,
    takes: ByNumber,
    sweeps: ByNumber,
}

// By hand and not derived: so dropping one is a call, and the proof of a function that drops one doesn't take it apart.
impl Drop for NameTable {
    fn drop(self) {
        let NameTable {
            calls: _,
            publishes: _,
            takes: _,
            sweeps: _,
        } = self;
    }
}

/// The publish of a name, where there is one and no unpublish of the name alone.
fn only_publish(publishes: &[Event], takes: &[Event]) -> Option<Event>
    ensures { result ≡ only_of publishes.now takes.now }
{
    if !takes.is_empty() {
        return None;
    }
    match publishes {
        [publish] => Some(*publish),
        _ => None,
    }
}

impl NameTable {
    /// No call.
    fn empty(alloc: Global) -> NameTable
        ensures { (plan : runs.Plan) → AreNamesTo plan 0 0 result }
    {
        NameTable {
            calls: ByNumber::empty(alloc),
            publishes: ByNumber::empty(alloc),
            takes: ByNumber::empty(alloc),
            sweeps: ByNumber::empty(alloc),
        }
    }

    /// Adds an event of this kind to the lists that it is for.
    fn read(&mut self, alloc: Global, event: Event, kind: Kind) -> Result<(), AllocError>
        ensures { OnOk result ((plan : runs.Plan) (sets : List (List ℕ)) → kind_at plan event.proc.number event.at ≡ Some (kind_of sets kind)
            → AreNamesTo plan event.proc.number event.at self.old → AreNamesTo plan event.proc.number (suc event.at) self.new) }
    {
        self.calls.read(alloc, Listing::NameCalls, event, kind)?;
        self.publishes.read(alloc, Listing::Publishes, event, kind)?;
        self.takes.read(alloc, Listing::Takes, event, kind)?;
        self.sweeps.read(alloc, Listing::Sweeps, event, kind)
    }

    /// Adds the events of a process.
    fn read_all(&mut self, alloc: Global, events: &Events, proc: Proc) -> Result<(), AllocError>
        ensures { OnOk result (AreNamesTo (plan_of events.now) proc.number 0 self.old → AreNamesTo (plan_of events.now) (suc proc.number) 0 self.new) }
    {
        for at in 0..events.event_count(proc) {
            let event = Event { proc, at };
            self.read(alloc, event, events.kind(event))?;
        }
        Ok(())
    }

    /// The calls on each name. The only error is that memory ran out.
    pub(crate) fn of(alloc: Global, events: &Events) -> Result<NameTable, AllocError>
        ensures { IfOk result (λ table. AreNameCallsOf (plan_of events.now) table) }
    {
        let mut table = NameTable::empty(alloc);
        for number in 0..events.process_count() {
            table.read_all(alloc, events, Proc::new(number))?;
        }
        Ok(table)
    }

    /// The calls on a name alone, in process order: publishes, lookups and unpublishes (PMIx Standard 5.0,
    /// PMIx_Publish, PMIx_Lookup, PMIx_Unpublish). None where no event calls it.
    pub(crate) fn calls(&self, name: u32) -> &[Event]
        ensures { (plan : runs.Plan) → AreNameCallsOf plan self.now → AreNameCalls plan name (map event_of result.now) }
    {
        self.calls.list(name)
    }

    /// The publishes of a name, in process order.
    pub(crate) fn publishes(&self, name: u32) -> &[Event]
        ensures { (plan : runs.Plan) → AreNameCallsOf plan self.now → ArePublishes plan name (map event_of result.now) }
    {
        self.publishes.list(name)
    }

    /// The calls of a process that take away all names that it has published, in their order.
    pub(crate) fn sweeps(&self, proc: Proc) -> &[Event]
        ensures { (plan : runs.Plan) → AreNameCallsOf plan self.now → AreSweeps plan proc.number (map event_of result.now) }
    {
        self.sweeps.list(proc.number)
    }

    /// A publish, where its process never takes away all its names.
    fn find_unswept(&self, publish: Event) -> Option<Event>
        ensures { (plan : runs.Plan) → AreNameCallsOf plan self.now → IsUnswept plan publish result }
    {
        if self.sweeps(publish.proc).is_empty() {
            Some(publish)
        } else {
            None
        }
    }

    /// The publish of a name that is published once and that nobody unpublishes. None of any other name.
    pub(crate) fn once_published(&self, name: u32) -> Option<Event>
        ensures { (plan : runs.Plan) → AreNameCallsOf plan self.now →
            MatchOption result ((x : runs.Event) → PublishesOnce plan x name → ⊥) (λ x. PublishesOnce plan (event_of x) name) }
    {
        match only_publish(self.publishes(name), self.takes.list(name)) {
            Some(publish) => self.find_unswept(publish),
            None => None,
        }
    }
}
