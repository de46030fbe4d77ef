//! A plan: scripts with the events of each process, and what is looked up of them.

ghost use Rattle.std.specs.Prelude.{◌≡◌, ◌<◌, ◌^◌, ℕ, List, [], true, Some, length, map, option_map, IfOk, IfErr};
ghost use Rattle.std.specs.Prelude.{◌↔◌, IsTrue, IfSome, MatchOption};
ghost use Rattle.wire_runs.specs.Plan.{Get, Leave, event_of, process_count, kinds, kind_at, event_count, kind, node_of};
ghost use Rattle.wire_runs.specs.Plan as runs;
ghost use Rattle.wire_runs.specs.Puts.{put_count};
ghost use Rattle.wire_runs.specs.Fences.{arrivals as arrivals_of};
ghost use Rattle.wire_scripts.specs.Scripts.{IsSound};
ghost use Rattle.wire_scripts.specs.Planned.{plan_of};
ghost use Rattle.wire_procmap.specs.Map.{map_of};
ghost use Rattle.wire_fence.specs.FenceTable.{AreFencesOf};
ghost use Rattle.wire_plan.specs.Kinds.{kind_of};
ghost use Rattle.wire_runs.specs.Ends.{call_of, calls_of, first_event};
ghost use Rattle.wire_runs.specs.Plan.{event_total};
ghost use Rattle.wire_runs.specs.Order.{may_come, Stores, PublishesOnce};
ghost use Rattle.wire_runs.specs.Races.{IsPutOnce};
ghost use Rattle.wire_plan.specs.Index.{AreSources, AreArrivals, AreNameCalls, ArePublishes, AreSweeps};
ghost use Rattle.wire_plan.specs.Index.{AreGetDeliveries, IsLastBringingArrival, IsSent};
ghost use Rattle.wire_plan.specs.Index.{FindsAwaited, IsFirstPut, IsNextDelivery, source_list, previous_of};
ghost use Rattle.wire_plan.specs.Indexed.{IsIndexed};
ghost use Rattle.wire_plan.specs.Meetings.{is_of_fence, IsMet};

use crate::deliveries::{Delivery, delivering_gets, next_delivery};
use crate::events::Events;
use crate::index::Index;
use crate::kind::Kind;
use crate::meetings::{arrivals_at, fence_at, is_full};
use crate::sources::{Sources, previous_event};
use std::alloc::{AllocError, Global};
use std::marker::Model;
use wire_fence::{FenceId, Fences};
use wire_procmap::ProcMap;
use wire_scripts::Scripts;
use wire_types::{CallAt, Event, Fault, Proc};

/// The scripts of a plan with their events, their fences, and the index of the events.
struct PlanTables {
    events: Events,
    fences: Fences,
    index: Index,
}

// By hand and not derived: so dropping one is a call, and the proof of a function that drops one doesn't take it apart.
impl Drop for PlanTables {
    fn drop(self) {
        let PlanTables {
            events: _,
            fences: _,
            index: _,
        } = self;
    }
}

/// Scripts, with their process map, their fences, the events of each process, and what they wait for.
pub struct Plan {
    // In a box, so that the layout of a plan is one pointer: a proof writes out the layout of all that its function
    // holds, through references too.
    tables: Box<PlanTables>,
}

// By hand and not derived: so dropping one is a call, and the proof of a function that drops one doesn't take it apart.
impl Drop for Plan {
    fn drop(self) {
        let Plan { tables: _ } = self;
    }
}

impl Model for Plan {
    ghost use Rattle.wire_scripts.specs.Scripts as spec;
    ghost use Rattle.wire_fence.specs.FenceTable.{AreFencesOf};
    ghost use Rattle.wire_plan.specs.Indexed.{IsIndexed};

    ghost Value = { spec.Scripts };

    ghost view = { λ p. p.tables.value.events };

    ghost invariant = { λ p. AreFencesOf p.tables.value.events p.tables.value.fences
        × IsIndexed p.tables.value.events p.tables.value.fences p.tables.value.index };
}

/// Makes the fences of these events, and the index of the events.
fn make_fences_and_index(alloc: Global, events: &Events) -> Result<(Fences, Index), Fault>
    ensures fences { IfOk result (λ made. AreFencesOf events.now made.0) }
    ensures index { IfOk result (λ made. IsIndexed events.now made.0 made.1) }
    ensures err { IfErr result (λ e. e ≡ Fault.Memory) }
{
    let fences = Fences::of(alloc, events.scripts(), events.map())?;
    let index = Index::of(alloc, events, &fences)?;
    Ok((fences, index))
}

impl Plan {
    /// The plan of scripts. The one fault is `Fault::Memory`.
    pub fn build(alloc: Global, scripts: Scripts) -> Result<Plan, Fault>
        ensures ok { IfOk result (λ plan. plan ≡ scripts) }
        ensures err { IfErr result (λ e. e ≡ Fault.Memory) }
    {
        let events = Events::of(alloc, scripts)?;
        match make_fences_and_index(alloc, &events) {
            Ok((fences, index)) => {
                let tables = Box::new(
                    alloc,
                    PlanTables {
                        events,
                        fences,
                        index,
                    },
                )
                .map_err(AllocError::from)?;
                Ok(Plan { tables })
            }
            Err(fault) => {
                drop(events);
                Err(fault)
            }
        }
    }

    /// The scripts that it was made of.
    pub fn scripts(&self) -> &Scripts
        ensures scripts { result.now ≡ self.now }
        ensures sound { IsSound self.now }
    {
        self.tables.events.scripts()
    }

    /// The process map of its scripts.
    pub fn map(&self) -> &ProcMap
        ensures { result.now ≡ map_of self.now }
    {
        self.tables.events.map()
    }

    /// The fences of its scripts.
    pub fn fences(&self) -> &Fences
        ensures { AreFencesOf self.now result.now }
    {
        &self.tables.fences
    }

    /// How many processes there are.
    pub fn process_count(&self) -> u32
        ensures { result ≡ process_count (plan_of self.now) }
    {
        self.tables.events.process_count()
    }

    /// What the events of a process are, in their order; none where it isn't of the plan.
    pub fn events(&self, proc: Proc) -> &[Kind]
        ensures { map (kind_of self.now.sets) result.now ≡ kinds (plan_of self.now) proc.number }
    {
        self.tables.events.events(proc)
    }

    /// How many events a process has, none where it isn't of the plan.
    pub fn event_count(&self, proc: Proc) -> u32
        ensures { result ≡ event_count (plan_of self.now) proc.number }
    {
        self.tables.events.event_count(proc)
    }

    /// How many events all processes have.
    pub fn event_total(&self) -> usize
        ensures total { result ≡ event_total (plan_of self.now) }
        ensures fits { result < 2 ^ 32 }
    {
        self.tables.events.event_total()
    }

    /// What an event of the plan is.
    pub fn kind(&self, event: Event) -> Kind
        requires { event.at < event_count (plan_of self.now) event.proc.number }
        ensures { kind_at (plan_of self.now) event.proc.number event.at ≡ Some (kind_of self.now.sets result) }
    {
        self.tables.events.kind(event)
    }

    /// The call that an event of the plan belongs to.
    pub fn call_of(&self, event: Event) -> CallAt
        requires { event.at < event_count (plan_of self.now) event.proc.number }
        ensures { result ≡ call_of (plan_of self.now) (event_of event) }
    {
        self.tables.events.call_of(event)
    }

    /// The first event of a call of the plan: the one event of most calls, the arrival of a fence.
    pub fn first_event(&self, call: CallAt) -> Event
        requires { call.call < length (calls_of (plan_of self.now) call.proc.number) }
        ensures { event_of result ≡ first_event (plan_of self.now) call }
    {
        self.tables.events.first_event(call)
    }

    /// The number of the node of a process of the plan.
    pub fn node_of(&self, proc: Proc) -> u32
        requires { proc.number < process_count (plan_of self.now) }
        ensures { result ≡ node_of (plan_of self.now) proc.number }
    {
        self.tables.events.node_of(proc)
    }

    /// Whether a get of a key isn't ruled out by the scripts.
    fn may_get(&self, event: Event, owner: Proc, key: u32) -> bool
        ensures { result ≡ may_come (plan_of self.now) (event_of event) (Some (Get owner.number key)) }
    {
        if owner == event.proc {
            self.tables.index.keys.is_put_before(owner, key, event.at)
        } else {
            self.tables.index.keys.may_get(owner, key)
        }
    }

    /// Whether an event of the plan, its sources aside, isn't ruled out by the scripts. What is: a get of
    /// one's own key that no put stands before, a get of a key that its owner never puts, or puts once and
    /// doesn't commit after that, and the end of a fence that a member doesn't call.
    pub fn may_come(&self, event: Event) -> bool
        requires { event.at < event_count (plan_of self.now) event.proc.number }
        ensures { result ≡ may_come (plan_of self.now) (event_of event) (kind (plan_of self.now) (event_of event)) }
    {
        match self.kind(event) {
            Kind::Get { owner, key } => self.may_get(event, owner, key),
            Kind::Leave { .. } => is_full(&self.tables.events, &self.tables.fences, event),
            _ => true,
        }
    }

    /// The commit or the publish that an event of the plan waits for.
    fn awaited(&self, event: Event) -> Option<Event>
        requires { event.at < event_count (plan_of self.now) event.proc.number }
        ensures { FindsAwaited (plan_of self.now) (event_of event) (option_map event_of result) }
    {
        match self.kind(event) {
            Kind::Get { owner, key } => {
                if owner == event.proc {
                    None
                } else {
                    self.tables.index.keys.feeding_commit(owner, key)
                }
            }
            Kind::LookupWait { name } => self.tables.index.names.once_published(name),
            _ => None,
        }
    }

    /// The arrivals at the fence that an event of the plan ends; none where it ends none.
    fn arrivals_before(&self, event: Event) -> &[Event]
        requires { event.at < event_count (plan_of self.now) event.proc.number }
        ensures leave { (members : List ℕ) → kind (plan_of self.now) (event_of event) ≡ Some (Leave members)
            → AreArrivals (plan_of self.now) members (arrivals_of (plan_of self.now) event.proc.number members event.at) (map event_of result.now) }
        ensures others { ((members : List ℕ) → kind (plan_of self.now) (event_of event) ≡ Some (Leave members) → ⊥) → result.now ≡ [] }
    {
        match self.kind(event) {
            Kind::Leave { .. } => arrivals_at(
                &self.tables.index.meetings,
                &self.tables.events,
                &self.tables.fences,
                event,
            ),
            _ => &[],
        }
    }

    /// What an event of the plan waits for: the event before it in its process, the commit that stores the
    /// key for which it waits, where the key is put once, or the publish of the name for which it waits,
    /// where the name is published once and nobody unpublishes it, and the arrivals at the fence that it
    /// ends.
    pub fn sources(&self, event: Event) -> Sources<'_>
        requires { event.at < event_count (plan_of self.now) event.proc.number }
        ensures sources { AreSources (plan_of self.now) (event_of event) (source_list result.previous result.awaited result.arrivals.now) }
        ensures previous { option_map event_of result.previous ≡ previous_of (event_of event) }
        ensures awaited { FindsAwaited (plan_of self.now) (event_of event) (option_map event_of result.awaited) }
        ensures leave { (members : List ℕ) → kind (plan_of self.now) (event_of event) ≡ Some (Leave members)
            → AreArrivals (plan_of self.now) members (arrivals_of (plan_of self.now) event.proc.number members event.at) (map event_of result.arrivals.now) }
        ensures others { ((members : List ℕ) → kind (plan_of self.now) (event_of event) ≡ Some (Leave members) → ⊥) → result.arrivals.now ≡ [] }
    {
        Sources {
            previous: previous_event(event),
            awaited: self.awaited(event),
            arrivals: self.arrivals_before(event),
        }
    }

    /// How often a process puts a key.
    pub fn put_count(&self, owner: Proc, key: u32) -> u32
        ensures { result ≡ put_count (plan_of self.now) owner.number key (event_count (plan_of self.now) owner.number) }
    {
        self.tables.index.keys.put_count(owner, key)
    }

    /// The event by which a process puts a key first; `None` where it never does.
    pub fn first_put(&self, owner: Proc, key: u32) -> Option<Event>
        ensures { MatchOption result (put_count (plan_of self.now) owner.number key (event_count (plan_of self.now) owner.number) ≡ 0)
            (λ x. (x.proc ≡ owner) × IsFirstPut (plan_of self.now) (event_of x) key) }
    {
        self.tables.index.keys.first_put(owner, key)
    }

    /// The commit that stores a key of a process: the first one after its first put of the key; `None`
    /// where there is none (PMIx Standard 5.0, Posting Key-Value Pairs).
    pub fn store_of(&self, owner: Proc, key: u32) -> Option<Event>
        ensures { MatchOption result ((x : runs.Event) → x.proc ≡ owner.number → Stores (plan_of self.now) x key → ⊥)
            (λ x. (x.proc ≡ owner) × Stores (plan_of self.now) (event_of x) key) }
    {
        self.tables.index.keys.store_of(owner, key)
    }

    /// The first arrival of a process, from its event of this number on, at a fence that brings a key of
    /// it to a node: a fence that each member calls, each with data collection, with a member on the node,
    /// before which the process has stored the key for processes of other nodes. For a key that the process
    /// puts once (PMIx Standard 5.0, PMIx_Fence with PMIX_COLLECT_DATA).
    pub fn next_delivery(&self, owner: Proc, key: u32, node: u32, from: u32) -> Option<Event>
        ensures owner { IfSome result (λ e. e.proc ≡ owner) }
        ensures next { IsPutOnce (plan_of self.now) owner.number key →
            IsNextDelivery (plan_of self.now) owner.number key node from (option_map (λ e. e.at) result) }
    {
        next_delivery(
            &self.tables.events,
            &self.tables.fences,
            &self.tables.index,
            Delivery { owner, key, node },
            from,
        )
    }

    /// The last arrival of an event's process before it at a fence that brings data: one that each member
    /// calls, each with data collection (PMIx Standard 5.0, PMIx_Fence with PMIX_COLLECT_DATA).
    pub fn last_bringing_arrival(&self, event: Event) -> Option<Event>
        ensures { IsLastBringingArrival (plan_of self.now) (event_of event) (option_map event_of result) }
    {
        self.tables.index.bringing.last_before(event)
    }

    /// Whether what a process has stored under a key before its event of this number is for processes of
    /// other nodes. For a key that the process puts once (PMIx Standard 5.0, the scope of put data).
    pub fn is_sent(&self, owner: Proc, key: u32, at: u32) -> bool
        ensures { IsPutOnce (plan_of self.now) owner.number key → (IsTrue result ↔ IsSent (plan_of self.now) owner.number key at) }
    {
        self.tables.index.keys.is_sent(owner, key, at)
    }

    /// The gets that bring a key of a process to a node, in process order: those of processes of the node,
    /// where the plan keeps what gets bring, and what the owner stores is for processes of other nodes. For
    /// a key that the process puts once.
    pub fn gets_to(&self, owner: Proc, key: u32, node: u32) -> &[Event]
        ensures { IsPutOnce (plan_of self.now) owner.number key → AreGetDeliveries (plan_of self.now) owner.number key node (map event_of result.now) }
    {
        delivering_gets(
            &self.tables.index.gets,
            &self.tables.index.keys,
            Delivery { owner, key, node },
            self.event_count(owner),
        )
    }

    /// The publish of a name that is published once and that nobody unpublishes; `None` of any other name.
    pub fn once_published(&self, name: u32) -> Option<Event>
        ensures { MatchOption result ((x : runs.Event) → PublishesOnce (plan_of self.now) x name → ⊥)
            (λ x. PublishesOnce (plan_of self.now) (event_of x) name) }
    {
        self.tables.index.names.once_published(name)
    }

    /// The calls on a name alone, in process order. Each name is a shard of its own.
    pub fn name_calls(&self, name: u32) -> &[Event]
        ensures { AreNameCalls (plan_of self.now) name (map event_of result.now) }
    {
        self.tables.index.names.calls(name)
    }

    /// The publishes of a name, in process order.
    pub fn publishes(&self, name: u32) -> &[Event]
        ensures { ArePublishes (plan_of self.now) name (map event_of result.now) }
    {
        self.tables.index.names.publishes(name)
    }

    /// The calls of a process that take away all names that it has published, in their order.
    pub fn sweeps(&self, proc: Proc) -> &[Event]
        ensures { AreSweeps (plan_of self.now) proc.number (map event_of result.now) }
    {
        self.tables.index.names.sweeps(proc)
    }
}

/// The fence that an event of the plan, the arrival at it or its end, is part of: its number among these
/// fences of the plan's scripts (PMIx Standard 5.0, PMIx_Fence).
pub fn fence_of(plan: &Plan, fences: &Fences, event: Event) -> FenceId
    requires fences { AreFencesOf plan.now fences.now }
    requires half { is_of_fence (kind (plan_of plan.now) (event_of event)) ≡ true }
    ensures { IsMet plan.now fences.now (event_of event) result.number }
{
    fence_at(&plan.tables.events, fences, event)
}

impl PartialEq for Plan {
    ghost use Rattle.std.specs.Prelude.{◌≡◌};
    ghost use Rattle.std.specs.Bool.{Decides};
    ghost use Rattle.wire_scripts.specs.Same.{same_scripts, scripts_alike};

    ghost eq = { same_scripts };

    ghost laws = { scripts_alike };

    /// Whether both are made of the same scripts, with the same numbers: nodes, jobs, tables, and processes
    /// with their ranks and calls, in order. Takes no memory.
    fn eq(&self, other: &Plan) -> bool
        ensures tested { result ≡ same_scripts self.now other.now }
        ensures same { Decides result (self.now ≡ other.now) }
    {
        self.scripts() == other.scripts()
    }
}
