//! What comes where each spelling of a set is a fence of its own, as libraries take it: for plans in which calls over
//! one set spell it in two ways, and that so are portable for none.

ghost use Rattle.std.specs.Prelude.{◌<◌};
ghost use Rattle.wire_runs.specs.Plan.{event_count};
ghost use Rattle.wire_scripts.specs.Planned.{plan_of};

use std::alloc::{AllocError, Global};
use std::collections::HashMap;
use wire_happens_before::MarkedPlan;
use wire_plan::Kind;
use wire_spelling::Spelling;
use wire_types::{Event, Proc};

/// A fence by its set, how its calls spell that, and which fence of each member so spelt it is.
pub(crate) type SpeltFence = (u32, usize, u32);

/// How far each process comes.
pub(crate) struct Coming {
    counts: Vec<u32>,
    inside: Vec<Option<SpeltFence>>,
    turns: HashMap<(u32, usize, u32), u32>,
    arrived: HashMap<SpeltFence, u32>,
}

// By hand and not derived: so dropping one is a call, and the proof of a function that drops one doesn't take it apart.
impl Drop for Coming {
    fn drop(self) {
        let Coming {
            counts: _,
            inside: _,
            turns: _,
            arrived: _,
        } = self;
    }
}

/// The number of how the call of an arrival spells its set.
pub(crate) fn spelt_number(marked: &MarkedPlan<'_>, spelling: &Spelling, arrival: Event) -> usize
    requires { arrival.at < event_count (plan_of marked.now) arrival.proc.number }
{
    match spelling.of(marked.plan().call_of(arrival)) {
        Some(spelt) => spelt.number,
        None => 0,
    }
}

/// Counts one more under a key, and says how many there were.
pub(crate) fn count_one(
    counts: &mut HashMap<(u32, usize, u32), u32>,
    key: (u32, usize, u32),
) -> Result<u32, AllocError> {
    let before = match counts.get(&key) {
        Some(count) => *count,
        None => 0,
    };
    counts.insert(key, before.saturating_add(1))?;
    Ok(before)
}

impl Coming {
    /// Nobody has begun.
    fn nobody(alloc: Global, marked: &MarkedPlan<'_>) -> Result<Coming, AllocError> {
        let mut counts = Vec::new(alloc);
        let mut inside = Vec::new(alloc);
        for _ in 0..marked.plan().process_count() {
            counts.push(0)?;
            inside.push(None)?;
        }
        Ok(Coming {
            counts,
            inside,
            turns: HashMap::new(alloc),
            arrived: HashMap::new(alloc),
        })
    }

    /// How many events of a process come.
    fn count(&self, proc: Proc) -> u32 {
        match self.counts.get(proc.index()) {
            Some(count) => *count,
            None => 0,
        }
    }

    /// Whether an event comes.
    pub(crate) fn comes(&self, event: Event) -> bool {
        event.at < self.count(event.proc)
    }

    /// Whether a call comes to be made, by its first event.
    pub(crate) fn is_asked(&self, event: Event) -> bool {
        event.at <= self.count(event.proc)
    }

    /// Whether all members have arrived at the fence in which a process is.
    fn is_complete(&self, marked: &MarkedPlan<'_>, proc: Proc) -> bool {
        let Some(Some(fence)) = self.inside.get(proc.index()).copied() else {
            return false;
        };
        let members = marked.plan().scripts().sets().members(fence.0).len();
        match self.arrived.get(&fence) {
            Some(count) => *count as usize >= members,
            None => false,
        }
    }

    /// Whether the next event of a process can come.
    fn may_come(&self, marked: &MarkedPlan<'_>, next: Event) -> bool {
        if next.at >= marked.plan().event_count(next.proc) || !marked.live(next) {
            return false;
        }
        if let Kind::Leave { .. } = marked.plan().kind(next) {
            return self.is_complete(marked, next.proc);
        }
        match marked.plan().sources(next).awaited {
            Some(source) => self.comes(source),
            None => true,
        }
    }

    /// Takes up that the next event of a process comes.
    fn advance(
        &mut self,
        marked: &MarkedPlan<'_>,
        spelling: &Spelling,
        next: Event,
    ) -> Result<(), AllocError>
        requires { next.at < event_count (plan_of marked.now) next.proc.number }
    {
        if let Kind::Arrive { set, .. } = marked.plan().kind(next) {
            let number = spelt_number(marked, spelling, next);
            let turn = count_one(&mut self.turns, (next.proc.number, number, set))?;
            let fence = (set, number, turn);
            count_one(&mut self.arrived, fence)?;
            if next.proc.index() < self.inside.len() {
                self.inside[next.proc.index()] = Some(fence);
            }
        }
        if next.proc.index() < self.counts.len() {
            self.counts[next.proc.index()] = next.at.saturating_add(1);
        }
        Ok(())
    }

    /// Lets a process come as far as it can, and says whether it moved.
    fn go_on(
        &mut self,
        marked: &MarkedPlan<'_>,
        spelling: &Spelling,
        proc: Proc,
    ) -> Result<bool, AllocError> {
        let from = self.count(proc);
        for at in from..marked.plan().event_count(proc) {
            let next = Event { proc, at };
            if !self.may_come(marked, next) {
                return Ok(at > from);
            }
            self.advance(marked, spelling, next)?;
        }
        Ok(from < marked.plan().event_count(proc))
    }

    /// Lets each process come as far as it can, once, and says whether one moved.
    fn pass(&mut self, marked: &MarkedPlan<'_>, spelling: &Spelling) -> Result<bool, AllocError> {
        let mut moved = false;
        for number in 0..marked.plan().process_count() {
            let went = self.go_on(marked, spelling, Proc { number })?;
            moved = moved || went;
        }
        Ok(moved)
    }

    /// How far each process of a plan comes.
    pub(crate) fn of(
        alloc: Global,
        marked: &MarkedPlan<'_>,
        spelling: &Spelling,
    ) -> Result<Coming, AllocError> {
        let mut coming = Coming::nobody(alloc, marked)?;
        for _ in 0..marked.plan().event_total() {
            let moved = coming.pass(marked, spelling)?;
            if !moved {
                return Ok(coming);
            }
        }
        Ok(coming)
    }
}
