//! Fences of those processes that read each other's keys, which part what these do into phases.

ghost use Rattle.std.specs.Prelude.{◌≡◌, ◌<◌, ◌≤◌, ◌^◌, ◌↔◌, ℕ, suc, Some, [], true, IfOk, IsTrue, MatchOption, map};
ghost use Rattle.wire_runs.specs.Fences.{arrivals_with, is_member};
ghost use Rattle.wire_runs.specs.Plan.{Get, event_of, event_count, kind, kind_at, process_count, set_of};
ghost use Rattle.wire_scripts.specs.Planned.{plan_of};
ghost use Rattle.wire_scripts.specs.Scripts.{set_at};
ghost use Rattle.wire_library_laws.specs.Portable.{IsAsked};
ghost use Rattle.wire_portable.specs.Phases.{AreMainRows, AreMainSets, ArePhases, AreReadWithin, IsMainRow, IsPhaseRow, IsThereUnlessEnded, main_of, phase_of};

use crate::judge::Key;
use crate::main_sets::{Choice, main_sets};
use std::alloc::{AllocError, Global};
use std::marker::Model;
use wire_plan::{Kind, Plan};
use wire_types::{Event, Proc};

/// The main set of each process, and at how many fences over it the process has arrived before each of its events. None
/// where some process reads a key of one with another main set.
pub(crate) struct Phases {
    sets: Vec<Option<u32>>,
    rows: Vec<Vec<u32>>,
}

// By hand and not derived: so dropping one is a call, and the proof of a function that drops one doesn't take it apart.
impl Drop for Phases {
    fn drop(self) {
        let Phases { sets: _, rows: _ } = self;
    }
}

impl Model for Phases {
    ghost use Rattle.std.specs.Prelude.{ℕ, List, map};

    ghost Value = { List (List ℕ) };

    ghost view = { λ p. map (λ row. row.items) p.rows.items };
}

/// The main set of a process, if it has one.
fn set_of_process(sets: &[Option<u32>], proc: Proc) -> Option<u32>
    ensures { result ≡ main_of sets.now proc.number }
{
    match sets.get(proc.index()) {
        Some(set) => *set,
        None => None,
    }
}

/// Whether two numbers are the same, or both are none.
fn are_equal(number: Option<u32>, other: Option<u32>) -> bool
    ensures { IsTrue result ↔ (number ≡ other) }
{
    match number {
        Some(n) => match other {
            Some(m) => n == m,
            None => false,
        },
        None => other.is_none(),
    }
}

/// Whether two processes have one main set, or both none.
fn are_together(sets: &[Option<u32>], one: Proc, other: Proc) -> bool
    ensures { IsTrue result → main_of sets.now one.number ≡ main_of sets.now other.number }
{
    are_equal(set_of_process(sets, one), set_of_process(sets, other))
}

/// Whether an event reads no key of a process with another main set.
fn is_within(plan: &Plan, sets: &[Option<u32>], event: Event) -> bool
    requires { event.at < event_count (plan_of plan.now) event.proc.number }
    ensures { IsTrue result → (p key : ℕ) → kind (plan_of plan.now) (event_of event) ≡ Some (Get p key) →
        main_of sets.now event.proc.number ≡ main_of sets.now p }
{
    match plan.kind(event) {
        Kind::Get { owner, .. } => are_together(sets, event.proc, owner),
        Kind::GetNow { owner, .. } => are_together(sets, event.proc, owner),
        _ => true,
    }
}

/// Whether no event of a process does.
fn all_within(plan: &Plan, sets: &[Option<u32>], proc: Proc) -> bool
    ensures { IsTrue result → (at p key : ℕ) → kind_at (plan_of plan.now) proc.number at ≡ Some (Get p key) →
        main_of sets.now proc.number ≡ main_of sets.now p }
{
    for at in 0..plan.event_count(proc) {
        if !is_within(plan, sets, Event { proc, at }) {
            return false;
        }
    }
    true
}

/// Whether all processes have one main set, or none.
fn are_same(plan: &Plan, sets: &[Option<u32>]) -> bool
    ensures { IsTrue result → (p : ℕ) → p < process_count (plan_of plan.now) → main_of sets.now p ≡ main_of sets.now 0 }
{
    for number in 0..plan.process_count() {
        if !are_together(sets, Proc { number }, Proc { number: 0 }) {
            return false;
        }
    }
    true
}

/// Whether each process reads keys of those with its main set alone.
fn are_within(plan: &Plan, sets: &[Option<u32>]) -> bool
    ensures { IsTrue result → AreReadWithin (plan_of plan.now) sets.now }
{
    // Scripts are sound, so owners of keys are processes.
    let _ = plan.scripts();
    if are_same(plan, sets) {
        return true;
    }
    for number in 0..plan.process_count() {
        if !all_within(plan, sets, Proc { number }) {
            return false;
        }
    }
    true
}

/// At how many fences over a set a process of it has arrived after an event, given at how many before it.
fn count_after(plan: &Plan, set: u32, event: Event, count: u32) -> u32
    requires within { event.at < event_count (plan_of plan.now) event.proc.number }
    requires member { is_member (set_of (set_at plan.now.sets set)) event.proc.number ≡ true }
    requires fits { suc count < 2 ^ 32 }
    ensures counted { result ≡ arrivals_with (set_of (set_at plan.now.sets set)) count (kind (plan_of plan.now) (event_of event)) }
    ensures less { result ≤ suc count }
{
    // Scripts are sound, so sets with the same processes have one number.
    let _ = plan.scripts();
    match plan.kind(event) {
        Kind::Arrive { set: other, .. } => { if other == set { count + 1 } else { count } }
        _ => count,
    }
}

/// At how many fences over a set a process of it has arrived before each of its events.
fn row_of(alloc: Global, plan: &Plan, set: u32, proc: Proc) -> Result<Vec<u32>, AllocError>
    requires { is_member (set_of (set_at plan.now.sets set)) proc.number ≡ true }
    ensures { IfOk result (λ row. IsPhaseRow (plan_of plan.now) (set_of (set_at plan.now.sets set)) proc.number row.items) }
{
    // Scripts are sound, so the numbers of their events fit.
    let _ = plan.scripts();
    let mut row = Vec::with_capacity(alloc, plan.event_count(proc) as usize)?;
    let mut count = 0;
    for at in 0..plan.event_count(proc) {
        row.push(count)?;
        count = count_after(plan, set, Event { proc, at }, count);
    }
    Ok(row)
}

/// The row of a process with this main set, an empty one where it has none.
fn main_row(
    alloc: Global,
    plan: &Plan,
    main: Option<u32>,
    proc: Proc,
) -> Result<Vec<u32>, AllocError>
    requires { (set : ℕ) → main ≡ Some set → is_member (set_of (set_at plan.now.sets set)) proc.number ≡ true }
    ensures { IfOk result (λ row. IsMainRow plan.now proc.number main row.items) }
{
    match main {
        Some(set) => row_of(alloc, plan, set, proc),
        None => Ok(Vec::new(alloc)),
    }
}

/// The rows of all processes.
fn all_rows(alloc: Global, plan: &Plan, sets: &[Option<u32>]) -> Result<Vec<Vec<u32>>, AllocError>
    requires { AreMainSets plan.now sets.now }
    ensures { IfOk result (λ rows. AreMainRows plan.now sets.now (map (λ row. row.items) rows.items)) }
{
    let mut rows = Vec::new(alloc);
    for number in 0..plan.process_count() {
        let proc = Proc { number };
        let main = set_of_process(sets, proc);
        let row = main_row(alloc, plan, main, proc)?;
        rows.push(row)?;
    }
    Ok(rows)
}

impl Phases {
    /// Those by these main sets, if each process reads keys of those with its own alone.
    fn by(alloc: Global, plan: &Plan, sets: Vec<Option<u32>>) -> Result<Option<Phases>, AllocError>
        requires { AreMainSets plan.now sets.items }
        ensures { IfOk result (λ found. MatchOption found (Unit {0}) (λ phases. ArePhases (plan_of plan.now) phases)) }
    {
        if !are_within(plan, sets.as_slice()) {
            return Ok(None);
        }
        let rows = all_rows(alloc, plan, sets.as_slice())?;
        Ok(Some(Phases { sets, rows }))
    }

    /// Those by the widest sets, if there are such.
    fn by_width(alloc: Global, plan: &Plan) -> Result<Phases, AllocError>
        ensures { IfOk result (λ phases. ArePhases (plan_of plan.now) phases) }
    {
        let sets = main_sets(alloc, plan, Choice::Wide)?;
        let found = Phases::by(alloc, plan, sets)?;
        match found {
            Some(phases) => Ok(phases),
            None => Ok(Phases::one(alloc)),
        }
    }

    /// Those of a plan: by the sets over which processes meet most, or else by the widest.
    pub(crate) fn of(alloc: Global, plan: &Plan) -> Result<Phases, AllocError>
        ensures { IfOk result (λ phases. ArePhases (plan_of plan.now) phases) }
    {
        let sets = main_sets(alloc, plan, Choice::Often)?;
        let found = Phases::by(alloc, plan, sets)?;
        match found {
            Some(phases) => Ok(phases),
            None => Phases::by_width(alloc, plan),
        }
    }

    /// All that processes do is one phase.
    pub(crate) fn one(alloc: Global) -> Phases
        ensures { result ≡ [] }
    {
        Phases {
            sets: Vec::new(alloc),
            rows: Vec::new(alloc),
        }
    }

    /// How many phases there are: no call of a later phase comes to be made.
    pub(crate) fn count(&self) -> u32 {
        let mut most = 0;
        for row in &self.rows {
            let last = row.last().copied().unwrap_or(0);
            if last > most {
                most = last;
            }
        }
        most.saturating_add(1)
    }

    /// The number of an event's phase.
    pub(crate) fn phase(&self, event: Event) -> u32
        ensures { result ≡ phase_of self.now (event_of event) }
    {
        match self.rows.get(event.proc.index()) {
            Some(row) => match row.get(event.at as usize) {
                Some(phase) => *phase,
                None => 0,
            },
            None => 0,
        }
    }

    /// Whether an event's process has the main set of another event's, and the event is of an earlier phase.
    pub(crate) fn is_earlier(&self, event: Event, than: Event) -> bool {
        are_together(self.sets.as_slice(), event.proc, than.proc)
            && self.phase(event) < self.phase(than)
    }

    /// Whether the commit that stores a key is of an earlier phase than a get of it.
    pub(crate) fn is_stored_earlier(&self, plan: &Plan, get: Event, asked: Key) -> bool
        ensures { IsTrue result → ArePhases (plan_of plan.now) self.now → kind (plan_of plan.now) (event_of get) ≡ Some (Get asked.owner.number asked.key) →
            IsAsked (plan_of plan.now) (event_of get) → IsThereUnlessEnded (plan_of plan.now) asked.owner.number asked.key (event_of get) }
    {
        match plan.store_of(asked.owner, asked.key) {
            Some(store) => self.phase(store) < self.phase(get),
            None => false,
        }
    }
}
