//! The events of all processes, one process after another.

ghost use Rattle.std.specs.Prelude.{◌≡◌, ◌<◌, ◌≤◌, ◌^◌, ◌∷◌, ◌++◌, [], ℕ, List, Some, suc, length, map, replicate, slice_get, slice_range};
ghost use Rattle.std.specs.Prelude.{OnOk, IfOk, MatchOption};
ghost use Rattle.wire_runs.specs.Plan.{kinds_of};
ghost use Rattle.wire_scripts.specs.Planned.{planned_call};
ghost use Rattle.wire_procmap.specs.Map.{map_of};
ghost use Rattle.wire_plan.specs.Kinds.{kind_of, kinds_after, calls_from, kinds_planned, calls_planned, firsts_planned};

use crate::kind::{Kind, first_kind};
use std::alloc::{AllocError, Global};
use wire_procmap::ProcMap;
use wire_scripts::Scripts;
use wire_types::{Call, Proc};

/// What the events of all processes are, one process after another, and the number of the call of each; and for each
/// process where its events begin, and behind that where those of the last process end. No process has a list of its
/// own, which a plan of many processes would pay for.
pub(crate) struct EventRows {
    pub kinds: Vec<Kind>,
    pub calls: Vec<u32>,
    pub firsts: Vec<usize>,
}

// By hand and not derived: so dropping one is a call, and the proof of a function that drops one doesn't take it apart.
impl Drop for EventRows {
    fn drop(self) {
        let EventRows {
            kinds: _,
            calls: _,
            firsts: _,
        } = self;
    }
}

/// Where the events of a process begin and end among those of all.
#[derive(Clone, Copy)]
pub(crate) struct Part {
    pub from: usize,
    pub to: usize,
}

impl Part {
    /// What the events of this part are, among the events of all.
    pub fn of_kinds(self, kinds: &[Kind]) -> &[Kind]
        requires rises { self.from ≤ self.to }
        requires within { self.to ≤ length kinds.now }
        ensures { result.now ≡ slice_range kinds.now self.from self.to }
    {
        &kinds[self.from..self.to]
    }

    /// The numbers of the calls of this part's events, among those of all.
    pub fn of_numbers(self, numbers: &[u32]) -> &[u32]
        requires rises { self.from ≤ self.to }
        requires within { self.to ≤ length numbers.now }
        ensures { result.now ≡ slice_range numbers.now self.from self.to }
    {
        &numbers[self.from..self.to]
    }
}

impl EventRows {
    /// No event of any process.
    fn empty(alloc: Global) -> EventRows
        ensures kinds { result.kinds.items ≡ [] }
        ensures calls { result.calls.items ≡ [] }
        ensures firsts { result.firsts.items ≡ [] }
    {
        EventRows {
            kinds: Vec::new(alloc),
            calls: Vec::new(alloc),
            firsts: Vec::new(alloc),
        }
    }

    /// Adds an event of this kind, of the call of this number.
    fn add(&mut self, kind: Kind, call: u32) -> Result<(), AllocError>
        ensures kinds { OnOk result (self.new.kinds.items ≡ self.old.kinds.items ++ kind ∷ []) }
        ensures calls { OnOk result (self.new.calls.items ≡ self.old.calls.items ++ call ∷ []) }
        ensures firsts { OnOk result (self.new.firsts.items ≡ self.old.firsts.items) }
    {
        self.kinds.push(kind)?;
        self.calls.push(call)?;
        Ok(())
    }

    /// Adds the event of a call after its first, if there is one.
    fn add_rest(&mut self, call: Call, number: u32) -> Result<(), AllocError>
        ensures kinds { OnOk result ((sets : List (List ℕ)) → map (kind_of sets) self.new.kinds.items ≡ map (kind_of sets) self.old.kinds.items
            ++ kinds_after sets call) }
        ensures calls { OnOk result ((sets : List (List ℕ)) → self.new.calls.items ≡ self.old.calls.items
            ++ replicate (length (kinds_after sets call)) number) }
        ensures firsts { OnOk result (self.new.firsts.items ≡ self.old.firsts.items) }
    {
        let Call::Fence { set, .. } = call else {
            return Ok(());
        };
        self.add(Kind::Leave { set }, number)
    }

    /// Adds the events of a call.
    fn add_call(
        &mut self,
        scripts: &Scripts,
        places: &ProcMap,
        call: Call,
        number: u32,
    ) -> Result<(), AllocError>
        requires places { places.now ≡ map_of scripts.now }
        ensures kinds { OnOk result (map (kind_of scripts.now.sets) self.new.kinds.items ≡ map (kind_of scripts.now.sets) self.old.kinds.items
            ++ kinds_of (planned_call scripts.now call ∷ [])) }
        ensures calls { OnOk result (self.new.calls.items ≡ self.old.calls.items ++ calls_from number (planned_call scripts.now call ∷ [])) }
        ensures firsts { OnOk result (self.new.firsts.items ≡ self.old.firsts.items) }
    {
        self.add(first_kind(scripts, places, call), number)?;
        self.add_rest(call, number)
    }

    /// Adds the events of a process that makes these calls.
    fn add_process(
        &mut self,
        scripts: &Scripts,
        places: &ProcMap,
        calls: &[Call],
    ) -> Result<(), AllocError>
        requires places { places.now ≡ map_of scripts.now }
        requires few { length calls.now < 2 ^ 31 }
        ensures kinds { OnOk result (map (kind_of scripts.now.sets) self.new.kinds.items ≡ map (kind_of scripts.now.sets) self.old.kinds.items
            ++ kinds_of (map (planned_call scripts.now) calls.now)) }
        ensures calls { OnOk result (self.new.calls.items ≡ self.old.calls.items ++ calls_from 0 (map (planned_call scripts.now) calls.now)) }
        ensures firsts { OnOk result (self.new.firsts.items ≡ self.old.firsts.items ++ length self.old.kinds.items ∷ []) }
    {
        self.firsts.push(self.kinds.len())?;
        let mut number = 0;
        for call in calls {
            self.add_call(scripts, places, *call, number)?;
            number += 1;
        }
        Ok(())
    }

    /// The events of scripts. The only error is that memory ran out.
    pub fn of(alloc: Global, scripts: &Scripts, places: &ProcMap) -> Result<EventRows, AllocError>
        requires places { places.now ≡ map_of scripts.now }
        ensures kinds { IfOk result (λ rows. map (kind_of scripts.now.sets) rows.kinds.items ≡ kinds_planned scripts.now) }
        ensures calls { IfOk result (λ rows. rows.calls.items ≡ calls_planned scripts.now) }
        ensures firsts { IfOk result (λ rows. rows.firsts.items ≡ firsts_planned scripts.now) }
    {
        let processes = scripts.processes();
        let mut rows = EventRows::empty(alloc);
        for process in processes {
            rows.add_process(scripts, places, process.calls())?;
        }
        rows.firsts.push(rows.kinds.len())?;
        Ok(rows)
    }

    /// Where the events of a process stand; `None` where there is no such process.
    pub fn part(&self, proc: Proc) -> Option<Part>
        ensures { MatchOption result (length self.now.firsts.items ≤ suc proc.number)
            (λ part. (slice_get self.now.firsts.items proc.number ≡ Some part.from) × (slice_get self.now.firsts.items (suc proc.number) ≡ Some part.to)) }
    {
        let place = proc.index();
        match self.firsts.get(place + 1) {
            Some(to) => Some(Part {
                from: self.firsts[place],
                to: *to,
            }),
            None => None,
        }
    }
}
