//! Clocks, each kept as the root of its base: the clock of what an event counts beside its own process. Events
//! that count the same there share a base, and bases share what they have in common.

ghost use Rattle.std.specs.Prelude.{◌≡◌, ◌<◌, ◌≤◌, ◌+◌, ◌^◌, ◌↔◌, ◌++◌, ◌∷◌, [], ℕ, Some, IsTrue, IfOk, OnOk};
ghost use Rattle.std.specs.Prelude.{option_map, map, length, max};
ghost use Rattle.wire_runs.specs.Plan.{event_of, event_count};
ghost use Rattle.wire_runs.specs.Plan as runs;
ghost use Rattle.wire_scripts.specs.Planned.{plan_of};
ghost use Rattle.wire_clocks.specs.ClockTrees.{IsRoot};
ghost use Rattle.wire_clocks.specs.Rising.{IsRaise, rising_says};
ghost use Rattle.wire_happens_before.specs.Clocks.{marked_count, root_at, base_at, own_of, clock_of};
ghost use Rattle.wire_happens_before.specs.Marking.{AreBased, IsGrown, MarksNext, Notes, root_before, Counts, IsRaised};
ghost use Rattle.wire_happens_before.specs.Meeting.{AreMarked, IsJoin};
ghost use Rattle.wire_happens_before.specs.Following.{last_root};

use crate::updates::Updates;
use std::alloc::{AllocError, Global};
use wire_clocks::{ClockTrees, Rising};
use wire_plan::Plan;
use wire_types::{Event, Proc};

/// For each marked event of each process the root of its base, and the trees that these are roots of. The clock
/// of an event counts the events up to it in its process, and what its base counts. And the marked
/// calls that can change each name.
pub(crate) struct Clocks {
    pub roots: Vec<Vec<u32>>,
    pub trees: ClockTrees,
    pub updates: Updates,
}

// By hand and not derived: so dropping one is a call, and the proof of a function that drops one doesn't take it apart.
impl Drop for Clocks {
    fn drop(self) {
        let Clocks {
            roots: _,
            trees: _,
            updates: _,
        } = self;
    }
}

/// How many events of a process are this one or stand before it in its process.
fn own_count(event: Event, proc: Proc) -> u32
    requires { event.at + 1 < 2 ^ 32 }
    ensures { result ≡ own_of (event_of event) proc.number }
{
    if proc.number == event.proc.number {
        event.at + 1
    } else {
        0
    }
}

impl Clocks {
    /// How many events of a process are marked.
    pub(crate) fn marked(&self, proc: Proc) -> usize
        ensures { result ≡ marked_count self.now proc.number }
    {
        match self.roots.get(proc.index()) {
            Some(roots) => roots.len(),
            None => 0,
        }
    }

    /// Whether an event is marked.
    pub(crate) fn is_marked(&self, event: Event) -> bool
        ensures { IsTrue result ↔ (event.at < marked_count self.now event.proc.number) }
    {
        (event.at as usize) < self.marked(event.proc)
    }

    /// Whether a source is marked, if there is one.
    pub(crate) fn is_source_marked(&self, source: Option<Event>) -> bool
        ensures { IsTrue result ↔ ((z : runs.Event) → option_map event_of source ≡ Some z → z.at < marked_count self.now z.proc) }
    {
        match source {
            Some(event) => self.is_marked(event),
            None => true,
        }
    }

    /// The root of the base of an event, if it is marked.
    fn root(&self, event: Event) -> Option<u32>
        ensures { result ≡ root_at self.now (event_of event) }
    {
        let Some(roots) = self.roots.get(event.proc.index()) else {
            return None;
        };
        roots.get(event.at as usize).copied()
    }

    /// What the clock of an event says of a process, 0 where it isn't marked.
    pub(crate) fn count(&self, event: Event, proc: Proc) -> u32
        requires { (p : ℕ) → marked_count self.now p < 2 ^ 32 }
        ensures { result ≡ clock_of self.now (event_of event) proc.number }
    {
        match self.root(event) {
            Some(root) => self
                .trees
                .get(root, proc.number)
                .max(own_count(event, proc)),
            None => 0,
        }
    }

    /// The root of the base of the event before, that of zeros where there is none.
    fn root_before(&self, previous: Option<Event>) -> u32
        ensures { result ≡ root_before self.now (option_map event_of previous) }
    {
        match previous {
            Some(event) => self.root(event).unwrap_or(0),
            None => 0,
        }
    }

    /// The root of the base of the last marked event of a process, that of zeros where none is marked.
    pub(crate) fn last_root(&self, proc: Proc) -> u32
        requires { (p : ℕ) → marked_count self.now p < 2 ^ 32 }
        ensures { result ≡ last_root self.now proc.number }
    {
        let count = self.marked(proc);
        if count == 0 {
            return 0;
        }
        let event = Event {
            proc,
            at: (count - 1) as u32,
        };
        self.root_before(Some(event))
    }

    /// Whether the clock of the event before, if there is one, counts an event.
    fn counts(&self, previous: Option<Event>, event: Event) -> bool
        requires { (p : ℕ) → marked_count self.now p < 2 ^ 32 }
        ensures { IsTrue result ↔ Counts self.now (option_map event_of previous) (event_of event) }
    {
        match previous {
            Some(previous) => event.at < self.count(previous, event.proc),
            None => false,
        }
    }

    /// Joins the base of this root into a clock, unless it is the one that was joined last.
    fn join_base(&mut self, rising: &mut Rising, root: u32, last: u32) -> Result<(), AllocError>
        requires based { AreBased self.old }
        requires rising { IsRaise self.old.trees rising.old }
        requires root { IsRoot self.old.trees root }
        requires last { (q : ℕ) → base_at self.old last q ≤ rising_says self.old.trees rising.old q }
        ensures grown { OnOk result (IsGrown self.old self.new) }
        ensures based { OnOk result (AreBased self.new) }
        ensures rising { OnOk result (IsRaise self.new.trees rising.new) }
        ensures joined { OnOk result ((q : ℕ) → rising_says self.new.trees rising.new q ≡ max (rising_says self.old.trees rising.old q)
            (base_at self.old root q)) }
    {
        if root == last {
            return Ok(());
        }
        rising.join(&mut self.trees, root)
    }

    /// Raises a clock to that of a marked event, where it is raised to the base of the root `last` before. The
    /// root of the base that it is then raised to.
    fn raise_to(&mut self, rising: &mut Rising, event: Event, last: u32) -> Result<u32, AllocError>
        requires based { AreBased self.old }
        requires marked { event.at < marked_count self.old event.proc.number }
        requires rising { IsRaise self.old.trees rising.old }
        requires last { (q : ℕ) → base_at self.old last q ≤ rising_says self.old.trees rising.old q }
        ensures based { OnOk result (AreBased self.new) }
        ensures grown { OnOk result (IsGrown self.old self.new) }
        ensures rising { OnOk result (IsRaise self.new.trees rising.new) }
        ensures each { OnOk result ((q : ℕ) → rising_says self.new.trees rising.new q ≡ max (rising_says self.old.trees rising.old q)
            (clock_of self.old (event_of event) q)) }
        ensures last { IfOk result (λ last. (q : ℕ) → base_at self.new last q ≤ rising_says self.new.trees rising.new q) }
    {
        let root = self.root(event).unwrap();
        self.join_base(rising, root, last)?;
        rising.raise(&mut self.trees, event.proc.number, event.at + 1)?;
        Ok(root)
    }

    /// The root of the join of the clocks of marked events.
    pub(crate) fn join(&mut self, events: &[Event]) -> Result<u32, AllocError>
        requires based { AreBased self.old }
        requires marked { AreMarked self.old (map event_of events.now) (length events.now) }
        ensures based { OnOk result (AreBased self.new) }
        ensures grown { OnOk result (IsGrown self.old self.new) }
        ensures there { IfOk result (λ n. IsRoot self.new.trees n) }
        ensures join { IfOk result (λ n. IsJoin self.old (map event_of events.now) (length events.now) (base_at self.new n)) }
    {
        let mut rising = Rising::new(&self.trees);
        let mut last = 0;
        for event in events {
            last = self.raise_to(&mut rising, *event, last)?;
        }
        rising.finish(&mut self.trees)
    }

    /// The root of the base of a root, raised to the clock of a marked event.
    fn raise_root(&mut self, root: u32, event: Event) -> Result<u32, AllocError>
        requires based { AreBased self.old }
        requires root { IsRoot self.old.trees root }
        requires marked { event.at < marked_count self.old event.proc.number }
        ensures based { OnOk result (AreBased self.new) }
        ensures grown { OnOk result (IsGrown self.old self.new) }
        ensures there { IfOk result (λ n. IsRoot self.new.trees n) }
        ensures each { IfOk result (λ n. (q : ℕ) → base_at self.new n q ≡ max (base_at self.old root q) (clock_of self.old (event_of event) q)) }
    {
        let base = self.root(event).unwrap();
        let joined = self.trees.join(root, base)?;
        self.trees.raise(joined, event.proc.number, event.at + 1)
    }

    /// The root of a base for an event that waits for these at most: that of the event before it, unless that
    /// event doesn't count the one that is awaited.
    pub(crate) fn base_after(
        &mut self,
        previous: Option<Event>,
        awaited: Option<Event>,
    ) -> Result<u32, AllocError>
        requires based { AreBased self.old }
        requires awaited { (z : runs.Event) → option_map event_of awaited ≡ Some z → z.at < marked_count self.old z.proc }
        ensures based { OnOk result (AreBased self.new) }
        ensures grown { OnOk result (IsGrown self.old self.new) }
        ensures there { IfOk result (λ n. IsRoot self.new.trees n) }
        ensures raised { IfOk result (λ n. IsRaised self.old (option_map event_of previous) (option_map event_of awaited) (base_at self.new n)) }
    {
        let root = self.root_before(previous);
        let Some(event) = awaited else {
            return Ok(root);
        };
        if self.counts(previous, event) {
            return Ok(root);
        }
        self.raise_root(root, event)
    }

    /// Adds the root of the base of the next event of a process. No change of a name is noted.
    pub(crate) fn push(&mut self, proc: Proc, root: u32) -> Result<(), AllocError>
        requires { proc.number < length self.old.roots.items }
        ensures adds { OnOk result (MarksNext self.old self.new proc.number root) }
        ensures updates { self.new.updates ≡ self.old.updates }
    {
        self.roots[proc.index()].push(root)?;
        Ok(())
    }

    /// Marks the next event of a process, with the base of this root.
    pub(crate) fn mark(
        &mut self,
        alloc: Global,
        plan: &Plan,
        event: Event,
        root: u32,
    ) -> Result<(), AllocError>
        requires process { event.proc.number < length self.old.roots.items }
        requires there { event.at < event_count (plan_of plan.now) event.proc.number }
        ensures adds { OnOk result (MarksNext self.old self.new event.proc.number root) }
        ensures notes { OnOk result (Notes (plan_of plan.now) (event_of event) self.old self.new) }
    {
        self.updates.note(alloc, plan, event)?;
        self.push(event.proc, root)
    }
}
