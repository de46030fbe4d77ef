//! The events of scripts, and what they are made of.

ghost use Rattle.std.specs.Prelude.{◌≡◌, ◌<◌, ◌^◌, List, Some, length, map, take, IfOk, IfErr};
ghost use Rattle.wire_runs.specs.Plan.{event_of, process_count, kinds, kinds_of, kind_at, event_count, node_of};
ghost use Rattle.wire_runs.specs.Plan as runs;
ghost use Rattle.wire_scripts.specs.Scripts.{IsSound};
ghost use Rattle.wire_scripts.specs.Planned.{plan_of};
ghost use Rattle.wire_procmap.specs.Map.{map_of};
ghost use Rattle.wire_plan.specs.Kinds.{kind_of, calls_from, kinds_planned, calls_planned, firsts_planned};
ghost use Rattle.wire_runs.specs.Ends.{call_of, calls_of, first_event};
ghost use Rattle.wire_runs.specs.Plan.{event_total};

use crate::kind::Kind;
use crate::rows::EventRows;
use std::alloc::Global;
use std::marker::Model;
use wire_procmap::ProcMap;
use wire_scripts::Scripts;
use wire_types::{CallAt, Event, Fault, Proc};

/// Scripts, with their process map, their fences, and the events of each process.
pub(crate) struct Events {
    scripts: Scripts,
    places: ProcMap,
    rows: EventRows,
}

// By hand and not derived: so dropping one is a call, and the proof of a function that drops one doesn't take it apart.
impl Drop for Events {
    fn drop(self) {
        let Events {
            scripts: _,
            places: _,
            rows: _,
        } = self;
    }
}

impl Model for Events {
    ghost use Rattle.std.specs.Prelude.{◌≡◌, map};
    ghost use Rattle.wire_scripts.specs.Scripts as spec;
    ghost use Rattle.wire_procmap.specs.Map.{map_of};
    ghost use Rattle.wire_plan.specs.Kinds.{kind_of, AreEventsOf};

    ghost Value = { spec.Scripts };

    ghost view = { λ p. p.scripts };

    ghost invariant = { λ p. AreEventsOf p.scripts (map (kind_of p.scripts.sets) p.rows.kinds.items) p.rows.calls.items p.rows.firsts.items
        × (p.places ≡ map_of p.scripts) };
}

/// The process map of scripts, and their events.
fn parts_of(alloc: Global, scripts: &Scripts) -> Result<(ProcMap, EventRows), Fault>
    ensures places { IfOk result (λ parts. parts.0 ≡ map_of scripts.now) }
    ensures kinds { IfOk result (λ parts. map (kind_of scripts.now.sets) parts.1.kinds.items ≡ kinds_planned scripts.now) }
    ensures calls { IfOk result (λ parts. parts.1.calls.items ≡ calls_planned scripts.now) }
    ensures firsts { IfOk result (λ parts. parts.1.firsts.items ≡ firsts_planned scripts.now) }
    ensures err { IfErr result (λ e. e ≡ Fault.Memory) }
{
    let places = ProcMap::new(alloc, scripts)?;
    let rows = EventRows::of(alloc, scripts, &places)?;
    Ok((places, rows))
}

/// How many events the calls before this one are made of, by bisection, where each event has its call's number here.
fn events_before(numbers: &[u32], call: u32) -> usize
    ensures { (calls : List runs.Call) → numbers.now ≡ calls_from 0 calls → result ≡ length (kinds_of (take call calls)) }
{
    numbers.partition_point(|number| *number < call)
}

impl Events {
    /// The events of scripts. The one fault is `Fault::Memory`.
    pub(crate) fn of(alloc: Global, scripts: Scripts) -> Result<Events, Fault>
        ensures ok { IfOk result (λ kinds. kinds ≡ scripts) }
        ensures err { IfErr result (λ e. e ≡ Fault.Memory) }
    {
        match parts_of(alloc, &scripts) {
            Ok((places, rows)) => Ok(Events {
                scripts,
                places,
                rows,
            }),
            Err(fault) => {
                drop(scripts);
                Err(fault)
            }
        }
    }

    /// The scripts that it was made of.
    pub(crate) fn scripts(&self) -> &Scripts
        ensures scripts { result.now ≡ self.now }
        ensures sound { IsSound self.now }
    {
        &self.scripts
    }

    /// The process map of its scripts.
    pub(crate) fn map(&self) -> &ProcMap
        ensures { result.now ≡ map_of self.now }
    {
        &self.places
    }

    /// How many processes there are.
    pub(crate) fn process_count(&self) -> u32
        ensures { result ≡ process_count (plan_of self.now) }
    {
        self.scripts.processes().len() as u32
    }

    /// What the events of a process are, in their order; none where it isn't of the plan.
    pub(crate) fn events(&self, proc: Proc) -> &[Kind]
        ensures { map (kind_of self.now.sets) result.now ≡ kinds (plan_of self.now) proc.number }
    {
        match self.rows.part(proc) {
            Some(part) => part.of_kinds(&self.rows.kinds),
            None => &[],
        }
    }

    /// The number of the call of each event of a process, in their order; none where it isn't of the plan.
    fn numbers(&self, proc: Proc) -> &[u32]
        ensures { result.now ≡ calls_from 0 (calls_of (plan_of self.now) proc.number) }
    {
        match self.rows.part(proc) {
            Some(part) => part.of_numbers(&self.rows.calls),
            None => &[],
        }
    }

    /// How many events a process has, none where it isn't of the plan.
    pub(crate) fn event_count(&self, proc: Proc) -> u32
        ensures { result ≡ event_count (plan_of self.now) proc.number }
    {
        // The borrow gives the proof what the scripts promise of their numbers.
        let _scripts = &self.scripts;
        self.events(proc).len() as u32
    }

    /// How many events all processes have.
    pub(crate) fn event_total(&self) -> usize
        ensures total { result ≡ event_total (plan_of self.now) }
        ensures fits { result < 2 ^ 32 }
    {
        self.rows.kinds.len()
    }

    /// What an event of the plan is.
    pub(crate) fn kind(&self, event: Event) -> Kind
        requires { event.at < event_count (plan_of self.now) event.proc.number }
        ensures { kind_at (plan_of self.now) event.proc.number event.at ≡ Some (kind_of self.now.sets result) }
    {
        self.events(event.proc)[event.at as usize]
    }

    /// The call that an event of the plan belongs to.
    pub(crate) fn call_of(&self, event: Event) -> CallAt
        requires { event.at < event_count (plan_of self.now) event.proc.number }
        ensures { result ≡ call_of (plan_of self.now) (event_of event) }
    {
        CallAt {
            proc: event.proc,
            call: self.numbers(event.proc)[event.at as usize],
        }
    }

    /// The first event of a call of the plan.
    pub(crate) fn first_event(&self, call: CallAt) -> Event
        requires { call.call < length (calls_of (plan_of self.now) call.proc.number) }
        ensures { event_of result ≡ first_event (plan_of self.now) call }
    {
        // The borrow gives the proof what the scripts promise of their numbers.
        let _scripts = &self.scripts;
        Event {
            proc: call.proc,
            at: events_before(self.numbers(call.proc), call.call) as u32,
        }
    }

    /// The number of the node of a process of the plan.
    pub(crate) fn node_of(&self, proc: Proc) -> u32
        requires { proc.number < process_count (plan_of self.now) }
        ensures { result ≡ node_of (plan_of self.now) proc.number }
    {
        self.scripts.processes()[proc.index()].node()
    }
}
