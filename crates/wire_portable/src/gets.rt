//! The gets that come to be made, of keys of other processes, by their owner and by the node of the reader.

ghost use Rattle.std.specs.Prelude.{◌≡◌, ◌≢◌, ◌<◌, ◌≤◌, ◌++◌, ◌∷◌, [], ℕ, List, suc, Some, None, map, IfOk, IsTrue, OnOk};
ghost use Rattle.wire_runs.specs.Plan.{Get, event_of, event_count, process_count, kind};
ghost use Rattle.wire_runs.specs.Plan as runs;
ghost use Rattle.wire_runs.specs.Puts.{stored};
ghost use Rattle.wire_scripts.specs.Planned.{plan_of};
ghost use Rattle.wire_library_laws.specs.Portable.{IsAsked};
ghost use Rattle.wire_portable.specs.Gets.{place_in, gets_under, first_under, AreGetsTo, AreGetLists, AreOpenGets, AreFirst, AreUnreadBeside, IsGetTable};
ghost use Rattle.wire_portable.specs.Phases.{ArePhases};

use crate::asked::is_asked;
use crate::hearing::Hearing;
use crate::judge::Key;
use crate::last_stores::{LastStores, ReadStore};
use crate::phases::Phases;
use std::alloc::{AllocError, Global};
use std::collections::HashMap;
use wire_happens_before::MarkedPlan;
use wire_plan::{Kind, Plan};
use wire_types::{Event, Proc};

/// How the processes of a plan read each other's keys: whether some get waits for one, whether some such key isn't
/// stored by its owner's first commit, and whether some get doesn't wait.
#[derive(Clone, Copy)]
pub(crate) struct ReadWays {
    pub gets: bool,
    pub late: bool,
    pub nows: bool,
}

/// The gets of each process's keys from each node, in process order; or from all nodes together. For each list
/// and phase, how many events of the owner come before any key is there that the list's gets read in that phase; and how
/// late the commits are that store those keys.
pub(crate) struct GetTable<'a> {
    lists: HashMap<(u32, u32), Vec<Event>>,
    firsts: HashMap<(u32, u32, u32), u32>,
    lasts: LastStores,
    phases: &'a Phases,
    together: bool,
}

// By hand and not derived: so dropping one is a call, and the proof of a function that drops one doesn't take it apart.
impl Drop for GetTable<'_> {
    fn drop(self) {
        let GetTable {
            lists: _,
            firsts: _,
            lasts: _,
            phases: _,
            together: _,
        } = self;
    }
}

impl<'a> GetTable<'a> {
    /// Where a process's gets are listed.
    fn place_of(&self, marked: &MarkedPlan<'_>, proc: Proc) -> u32
        requires { proc.number < process_count (plan_of marked.now) }
        ensures { result ≡ place_in self.now.together (plan_of marked.now) proc.number }
    {
        if self.together {
            0
        } else {
            marked.plan().node_of(proc)
        }
    }

    /// How many events of the owner bring none of the keys that a list's gets read in a phase.
    fn first(&self, listed: (u32, u32, u32)) -> u32
        ensures { result ≡ first_under self.now listed }
    {
        match self.firsts.get(&listed) {
            Some(first) => *first,
            None => u32::MAX,
        }
    }

    /// Takes up the commit of this number, which stores a key that a get of a list reads in a phase.
    fn lower(&mut self, listed: (u32, u32, u32), at: u32) -> Result<(), AllocError>
        ensures lower { OnOk result (first_under self.new listed ≤ at) }
        ensures less { OnOk result ((other : ℕ × ℕ × ℕ) → first_under self.new other ≤ first_under self.old other) }
        ensures lists { OnOk result (self.new.lists ≡ self.old.lists) }
        ensures kept { OnOk result (self.new.together ≡ self.old.together) }
        ensures phases { OnOk result (self.new.phases ≡ self.old.phases) }
    {
        if at < self.first(listed) {
            self.firsts.insert(listed, at)?;
        }
        Ok(())
    }

    /// Takes up a commit for `is_brought` and `earlier_reader`.
    fn raise(&mut self, listed: (u32, u32, u32), store: ReadStore) -> Result<(), AllocError>
        ensures lists { OnOk result (self.new.lists ≡ self.old.lists) }
        ensures firsts { OnOk result (self.new.firsts ≡ self.old.firsts) }
        ensures kept { OnOk result (self.new.together ≡ self.old.together) }
        ensures phases { OnOk result (self.new.phases ≡ self.old.phases) }
    {
        self.lasts.take(listed, store)
    }

    /// Takes up the key that a get of a list reads in a phase, a get of this process.
    fn lower_to(
        &mut self,
        marked: &MarkedPlan<'_>,
        listed: (u32, u32, u32),
        asked: Key,
        reader: Proc,
    ) -> Result<(), AllocError>
        ensures lower { OnOk result (stored (plan_of marked.now) asked.owner.number asked.key (first_under self.new listed) ≡ None) }
        ensures less { OnOk result ((other : ℕ × ℕ × ℕ) → first_under self.new other ≤ first_under self.old other) }
        ensures lists { OnOk result (self.new.lists ≡ self.old.lists) }
        ensures kept { OnOk result (self.new.together ≡ self.old.together) }
        ensures phases { OnOk result (self.new.phases ≡ self.old.phases) }
    {
        match marked.plan().store_of(asked.owner, asked.key) {
            Some(store) => {
                let at = store.at;
                self.raise(listed, ReadStore { at, reader })?;
                self.lower(listed, at)
            }
            None => Ok(()),
        }
    }

    /// Adds a get to the list of an owner and a place.
    fn add(&mut self, alloc: Global, asked: (u32, u32), event: Event) -> Result<(), AllocError>
        ensures here { OnOk result (gets_under self.new asked ≡ gets_under self.old asked ++ event_of event ∷ []) }
        ensures others { OnOk result ((other : ℕ × ℕ) → asked ≢ other → gets_under self.new other ≡ gets_under self.old other) }
        ensures firsts { OnOk result (self.new.firsts ≡ self.old.firsts) }
        ensures kept { OnOk result (self.new.together ≡ self.old.together) }
        ensures phases { OnOk result (self.new.phases ≡ self.old.phases) }
    {
        match self.lists.get_mut(&asked) {
            Some(list) => list.push(event)?,
            None => {
                let mut list = Vec::new(alloc);
                list.push(event)?;
                self.lists.insert(asked, list)?;
            }
        }
        Ok(())
    }

    /// Adds a get of a key of another process.
    fn add_get(
        &mut self,
        alloc: Global,
        marked: &MarkedPlan<'_>,
        event: Event,
        asked: Key,
    ) -> Result<(), AllocError>
        requires is { kind (plan_of marked.now) (event_of event) ≡ Some (Get asked.owner.number asked.key) }
        requires other { event.proc.number ≢ asked.owner.number }
        ensures added { OnOk result (AreGetsTo self.old.together (plan_of marked.now) event.proc.number event.at self.old →
            AreGetsTo self.old.together (plan_of marked.now) event.proc.number (suc event.at) self.new) }
        ensures firsts { OnOk result (AreFirst (plan_of marked.now) self.old.phases.now self.old → AreFirst (plan_of marked.now) self.old.phases.now self.new) }
        ensures kept { OnOk result (self.new.together ≡ self.old.together) }
        ensures phases { OnOk result (self.new.phases ≡ self.old.phases) }
    {
        if is_asked(marked, event) {
            let place = self.place_of(marked, event.proc);
            let phase = self.phases.phase(event);
            let listed = (asked.owner.number, place, phase);
            self.lower_to(marked, listed, asked, event.proc)?;
            self.add(alloc, (asked.owner.number, place), event)?;
        }
        Ok(())
    }

    /// Adds an event of the plan, where it is such a get.
    fn add_event(
        &mut self,
        alloc: Global,
        marked: &MarkedPlan<'_>,
        event: Event,
    ) -> Result<(), AllocError>
        requires { event.at < event_count (plan_of marked.now) event.proc.number }
        ensures added { OnOk result (AreGetsTo self.old.together (plan_of marked.now) event.proc.number event.at self.old →
            AreGetsTo self.old.together (plan_of marked.now) event.proc.number (suc event.at) self.new) }
        ensures firsts { OnOk result (AreFirst (plan_of marked.now) self.old.phases.now self.old → AreFirst (plan_of marked.now) self.old.phases.now self.new) }
        ensures kept { OnOk result (self.new.together ≡ self.old.together) }
        ensures phases { OnOk result (self.new.phases ≡ self.old.phases) }
    {
        if let Kind::Get { owner, key } = marked.plan().kind(event) {
            if owner.number != event.proc.number {
                self.add_get(alloc, marked, event, Key { owner, key })?;
            }
        }
        Ok(())
    }

    /// Adds the gets of a process.
    fn add_process(
        &mut self,
        alloc: Global,
        marked: &MarkedPlan<'_>,
        proc: Proc,
    ) -> Result<(), AllocError>
        ensures added { OnOk result (AreGetsTo self.old.together (plan_of marked.now) proc.number 0 self.old →
            AreGetsTo self.old.together (plan_of marked.now) (suc proc.number) 0 self.new) }
        ensures firsts { OnOk result (AreFirst (plan_of marked.now) self.old.phases.now self.old → AreFirst (plan_of marked.now) self.old.phases.now self.new) }
        ensures kept { OnOk result (self.new.together ≡ self.old.together) }
        ensures phases { OnOk result (self.new.phases ≡ self.old.phases) }
    {
        for at in 0..marked.plan().event_count(proc) {
            self.add_event(alloc, marked, Event { proc, at })?;
        }
        Ok(())
    }

    /// Adds the gets of all processes.
    fn add_all(&mut self, alloc: Global, marked: &MarkedPlan<'_>) -> Result<(), AllocError>
        ensures added { OnOk result (AreGetsTo self.old.together (plan_of marked.now) 0 0 self.old →
            AreGetLists self.old.together (plan_of marked.now) self.new) }
        ensures firsts { OnOk result (AreFirst (plan_of marked.now) self.old.phases.now self.old → AreFirst (plan_of marked.now) self.old.phases.now self.new) }
        ensures kept { OnOk result (self.new.together ≡ self.old.together) }
        ensures phases { OnOk result (self.new.phases ≡ self.old.phases) }
    {
        for number in 0..marked.plan().process_count() {
            self.add_process(alloc, marked, Proc { number })?;
        }
        Ok(())
    }

    /// The gets of a plan: by nodes, or together.
    pub(crate) fn of(
        alloc: Global,
        marked: &MarkedPlan<'_>,
        phases: &'a Phases,
        reads: ReadWays,
        together: bool,
    ) -> Result<GetTable<'a>, AllocError>
        requires { ArePhases (plan_of marked.now) phases.now }
        ensures { IfOk result (λ table. IsGetTable together (plan_of marked.now) table) }
    {
        let count = if reads.nows && !together {
            phases.count()
        } else {
            0
        };
        let mut table = GetTable {
            lists: HashMap::new(alloc),
            firsts: HashMap::new(alloc),
            lasts: LastStores::empty(alloc, count),
            phases,
            together,
        };
        table.add_all(alloc, marked)?;
        Ok(table)
    }

    /// The list of an owner and a place.
    fn list(&self, asked: (u32, u32)) -> &[Event]
        ensures { map event_of result.now ≡ gets_under self.now asked }
    {
        match self.lists.get(&asked) {
            Some(list) => list.as_slice(),
            None => &[],
        }
    }

    /// The gets of an owner's keys that are made where a process is, in process order.
    pub(crate) fn beside(&self, marked: &MarkedPlan<'_>, owner: Proc, proc: Proc) -> &[Event]
        requires lists { AreGetLists self.now.together (plan_of marked.now) self.now }
        requires there { proc.number < process_count (plan_of marked.now) }
        ensures { AreOpenGets self.now.together (plan_of marked.now) owner.number
            (place_in self.now.together (plan_of marked.now) proc.number) (map event_of result.now) }
    {
        let place = self.place_of(marked, proc);
        self.list((owner.number, place))
    }

    /// How many events of the owner bring none of the keys that are read by gets which can be under way at once with this
    /// one: those of its phase, made where it is made.
    pub(crate) fn first_beside(&self, marked: &MarkedPlan<'_>, get: Event, asked: Key) -> u32
        requires table { IsGetTable self.now.together (plan_of marked.now) self.now }
        requires is { kind (plan_of marked.now) (event_of get) ≡ Some (Get asked.owner.number asked.key) }
        requires asked { IsAsked (plan_of marked.now) (event_of get) }
        ensures { (places : List runs.Event) → AreOpenGets self.now.together (plan_of marked.now) asked.owner.number
            (place_in self.now.together (plan_of marked.now) get.proc.number) places
            → AreUnreadBeside (plan_of marked.now) asked.owner.number result (event_of get) places }
    {
        let place = self.place_of(marked, get.proc);
        let phase = self.phases.phase(get);
        self.first((asked.owner.number, place, phase))
    }

    /// Whether one of those gets, of a phase no later than a get-now's, may have brought the key that a commit stores: it
    /// reads a key that comes no earlier. (That none has where it says no is only tested: else 5.0 is blamed needlessly.)
    pub(crate) fn is_brought(&self, marked: &MarkedPlan<'_>, get: Event, store: Event) -> bool
        requires { get.proc.number < process_count (plan_of marked.now) }
    {
        let place = self.place_of(marked, get.proc);
        let phases = self.phases.phase(get).saturating_add(1);
        self.lasts
            .reader_in((store.proc.number, place, phases), store.at)
            .is_some()
    }

    /// The process of one of those gets that is of an earlier phase than a get-now, and reads such a key.
    pub(crate) fn earlier_reader(
        &self,
        marked: &MarkedPlan<'_>,
        get: Event,
        store: Event,
    ) -> Option<Proc>
        requires { get.proc.number < process_count (plan_of marked.now) }
    {
        let place = self.place_of(marked, get.proc);
        let phases = self.phases.phase(get);
        self.lasts
            .reader_in((store.proc.number, place, phases), store.at)
    }

    /// Whether no get is listed.
    fn is_empty(&self) -> bool {
        self.lists.is_empty()
    }

    /// What processes hear of each other, where gets are listed by nodes: else nobody asks.
    pub(crate) fn hearing(&self, alloc: Global, plan: &Plan) -> Result<Hearing, AllocError> {
        if self.together || self.is_empty() {
            return Ok(Hearing::empty(alloc));
        }
        Hearing::of(alloc, plan, self.phases)
    }

    /// Whether a call's process has heard of another one in the call's phase.
    pub(crate) fn has_heard(&self, hearing: &Hearing, call: Event) -> bool {
        hearing.has_heard(self.phases, call)
    }
}
