//! Fences: whether their calls spell the set alike and agree in collecting.

ghost use Rattle.std.specs.Prelude.{◌≡◌, ◌<◌, ◌==◌, ◌↔◌, ℕ, List, Bool, true, false, Some, map, slice_index_or, IfOk, IsTrue, OnOk};
ghost use Rattle.std.specs.List.{list_all};
ghost use Rattle.wire_runs.specs.Plan.{Arrive, kind, event_of, event_count, set_of};
ghost use Rattle.wire_scripts.specs.Scripts.{numbers_of, set_at};
ghost use Rattle.wire_scripts.specs.Scripts as content;
ghost use Rattle.wire_scripts.specs.Map.{job_at};
ghost use Rattle.wire_scripts.specs.Planned.{plan_of};
ghost use Rattle.wire_fates.specs.Deliveries.{Arrives};
ghost use Rattle.wire_portable.specs.declared.libraries.Library.{Library as L};
ghost use Rattle.wire_portable.specs.Adding.{AddsUnportable};
ghost use Rattle.wire_portable.specs.Libraries.{has};
ghost use Rattle.wire_portable.specs.Unportable.{IsUnblamed};
ghost use Rattle.wire_portable.specs.Words.{is_one_job as is_of_one, takes};
ghost use Rattle.wire_portable.specs.Fences.{AreEventsOfPlan, IsFirstSpelt, IsPlainArrival, IsPlainCall, NamesNobodyTwice, KeepsFenceRules, TellsJobs};
ghost use Rattle.wire_portable.specs.Fences as spec;

use crate::jobs::job_of;
use crate::libraries::Libraries;
use crate::listed::{Rule, UnportableList};
use std::alloc::{AllocError, Global};
use wire_fates::all_arrivals;
use wire_happens_before::MarkedPlan;
use wire_plan::{Kind, Plan};
use wire_scripts::Scripts;
use wire_spelling::{Spelling, Spelt};
use wire_types::{Event, Proc};

/// What is asked of each set: whether its processes are of one job, and how the first live call over it spells it.
/// `unseen` says of how many sets no such call was seen yet.
pub(crate) struct SetTable {
    one_job: Vec<bool>,
    spelt: Vec<Option<usize>>,
    unseen: usize,
}

// By hand and not derived: so dropping one is a call, and the proof of a function that drops one doesn't take it apart.
impl Drop for SetTable {
    fn drop(self) {
        let SetTable {
            one_job: _,
            spelt: _,
            unseen: _,
        } = self;
    }
}

/// Whether a process is of a job.
fn is_of_job(scripts: &Scripts, proc: Proc, job: u32) -> bool
    ensures { result ≡ (job_at scripts.now.processes proc.number == job) }
{
    job_of(scripts, proc) == job
}

/// Whether processes are all of a job.
fn are_of_job(scripts: &Scripts, members: &[Proc], job: u32) -> bool
    ensures { result ≡ list_all (λ n. job_at scripts.now.processes n == job) (numbers_of members.now) }
{
    for member in members {
        if !is_of_job(scripts, *member, job) {
            return false;
        }
    }
    true
}

/// Whether processes are of one job.
fn is_one_job(scripts: &Scripts, members: &[Proc]) -> bool
    ensures { result ≡ is_of_one scripts.now (numbers_of members.now) }
{
    match members {
        [first, ..] => are_of_job(scripts, members, job_of(scripts, *first)),
        [] => true,
    }
}

impl SetTable {
    /// Of the sets of a plan, before any call is looked at.
    fn of_sets(alloc: Global, scripts: &Scripts) -> Result<SetTable, AllocError>
        ensures { IfOk result (λ table. TellsJobs scripts.now table) }
    {
        let mut one_job = Vec::new(alloc);
        let mut spelt = Vec::new(alloc);
        for set in 0..scripts.sets().len() {
            one_job.push(is_one_job(scripts, scripts.sets().members(set)))?;
            spelt.push(None)?;
        }
        let unseen = spelt.len();
        Ok(SetTable {
            one_job,
            spelt,
            unseen,
        })
    }

    /// Takes up how a live call spells its set, where it is the first.
    fn take(&mut self, marked: &MarkedPlan<'_>, spelling: &Spelling, event: Event)
        requires { event.at < event_count (plan_of marked.now) event.proc.number }
        ensures { self.new.one_job ≡ self.old.one_job }
    {
        let Kind::Arrive { set, .. } = marked.plan().kind(event) else {
            return;
        };
        if !marked.live(event) {
            return;
        }
        if let Some(None) = self.spelt.get(set as usize).copied() {
            self.spelt[set as usize] = number_of(spelling.of(marked.plan().call_of(event)));
            self.unseen = self.unseen.saturating_sub(1);
        }
    }

    /// Takes up the calls of a process.
    fn take_all(&mut self, marked: &MarkedPlan<'_>, spelling: &Spelling, proc: Proc)
        ensures { self.new.one_job ≡ self.old.one_job }
    {
        for at in 0..marked.plan().event_count(proc) {
            if self.unseen == 0 {
                return;
            }
            self.take(marked, spelling, Event { proc, at });
        }
    }

    /// Of the sets of a plan.
    pub(crate) fn of(
        alloc: Global,
        marked: &MarkedPlan<'_>,
        spelling: &Spelling,
    ) -> Result<SetTable, AllocError>
        ensures { IfOk result (λ table. TellsJobs marked.now table) }
    {
        let plan = marked.plan();
        let mut table = SetTable::of_sets(alloc, plan.scripts())?;
        for number in 0..plan.process_count() {
            table.take_all(marked, spelling, Proc::new(number));
        }
        Ok(table)
    }

    /// How the first live call over a set spells it.
    fn spelt_first(&self, set: u32) -> Option<usize>
        ensures { result ≡ spec.spelt_first self.now set }
    {
        match self.spelt.get(set as usize) {
            Some(number) => *number,
            None => None,
        }
    }

    /// Whether the processes of a set are of one job.
    pub(crate) fn is_of_one_job(&self, set: u32) -> bool
        ensures { result ≡ slice_index_or self.now.one_job.items set true }
    {
        match self.one_job.get(set as usize) {
            Some(is) => *is,
            None => true,
        }
    }
}

/// The number of a spelling.
fn number_of(spelt: Option<Spelt>) -> Option<usize>
    ensures { result ≡ spec.number_of spelt }
{
    match spelt {
        Some(spelt) => Some(spelt.number),
        None => None,
    }
}

/// Whether a call names a process or a job twice.
fn repeats(spelt: Option<Spelt>) -> bool
    ensures { result ≡ false → NamesNobodyTwice spelt }
{
    match spelt {
        Some(spelt) => spelt.repeats,
        None => true,
    }
}

/// Whether an arrival says that data is collected.
fn collects(plan: &Plan, arrival: Event) -> bool
    requires { arrival.at < event_count (plan_of plan.now) arrival.proc.number }
    ensures { (members : List ℕ) (collect : Bool) → kind (plan_of plan.now) (event_of arrival) ≡ Some (Arrive members collect) → result ≡ collect }
{
    match plan.kind(arrival) {
        Kind::Arrive { collect, .. } => collect,
        _ => false,
    }
}

/// Whether two numbers are the same, or both are none.
fn are_same(number: Option<usize>, other: Option<usize>) -> bool
    ensures { IsTrue result ↔ (number ≡ other) }
{
    match number {
        Some(n) => match other {
            Some(m) => n == m,
            None => false,
        },
        None => other.is_none(),
    }
}

/// The number of how the call of an event spells its set.
fn number_at(plan: &Plan, spelling: &Spelling, event: Event) -> Option<usize>
    requires { event.at < event_count (plan_of plan.now) event.proc.number }
    ensures { result ≡ spec.numbered plan.now spelling.now (event_of event) }
{
    number_of(spelt_at(plan, spelling, event))
}

/// Whether the call of an event spells its set by this number.
fn is_spelt(plan: &Plan, spelling: &Spelling, event: Event, number: Option<usize>) -> bool
    requires { event.at < event_count (plan_of plan.now) event.proc.number }
    ensures { IsTrue result ↔ (spec.numbered plan.now spelling.now (event_of event) ≡ number) }
{
    are_same(number_at(plan, spelling, event), number)
}

/// The first of these arrivals whose call spells the set by this number.
fn first_spelt(
    plan: &Plan,
    spelling: &Spelling,
    arrivals: &[Event],
    number: Option<usize>,
) -> Option<Event>
    requires { AreEventsOfPlan (plan_of plan.now) (map event_of arrivals.now) }
    ensures { IsFirstSpelt plan.now spelling.now number (map event_of arrivals.now) result }
{
    for other in arrivals {
        if is_spelt(plan, spelling, *other, number) {
            return Some(*other);
        }
    }
    None
}

/// Whether the call of an arrival spells its set by this number, and collects otherwise.
fn is_otherwise(
    plan: &Plan,
    spelling: &Spelling,
    arrival: Event,
    number: Option<usize>,
    collect: bool,
) -> bool
    requires { arrival.at < event_count (plan_of plan.now) arrival.proc.number }
{
    is_spelt(plan, spelling, arrival, number) && collects(plan, arrival) != collect
}

/// Whether those of these arrivals whose calls spell the set by this number agree in collecting.
fn agree(
    plan: &Plan,
    spelling: &Spelling,
    arrivals: &[Event],
    number: Option<usize>,
    collect: bool,
) -> bool
    requires { AreEventsOfPlan (plan_of plan.now) (map event_of arrivals.now) }
{
    for other in arrivals {
        if is_otherwise(plan, spelling, *other, number, collect) {
            return false;
        }
    }
    true
}

/// All libraries, if something breaks a rule.
pub(crate) fn all_if(breaks: bool) -> Libraries
    ensures { (library : L) → has result library ≡ breaks }
{
    if breaks {
        Libraries::all()
    } else {
        Libraries::none()
    }
}

/// A live call of a fence: its arrival, the number of its set, and whether it collects.
#[derive(Clone, Copy)]
struct FenceCall {
    arrival: Event,
    set: u32,
    collect: bool,
}

/// A live call of a fence, and the first arrival there that spells the set alike.
#[derive(Clone, Copy)]
struct Compared {
    call: FenceCall,
    first: Event,
}

/// The libraries that may not take the set of a call.
fn not_taking(sets: &SetTable, set: u32) -> Libraries
    ensures { (s : content.Scripts) (library : L) → TellsJobs s sets.now → has result library ≡ false →
        takes library s (set_at s.sets set) ≡ true }
{
    if sets.is_of_one_job(set) {
        Libraries::none()
    } else {
        Libraries::only_v4()
    }
}

/// Whether the first arrival at a fence collects as a call there does.
fn agrees(plan: &Plan, first: Event, collect: bool) -> bool
    requires { first.at < event_count (plan_of plan.now) first.proc.number }
    ensures { result ≡ true → (members : List ℕ) (is : Bool) → kind (plan_of plan.now) (event_of first) ≡ Some (Arrive members is) → is ≡ collect }
{
    let is = collects(plan, first);
    if collect { is } else { !is }
}

/// Whether a call is the first arrival at its fence, and another that spells the set alike collects otherwise.
fn is_divided(plan: &Plan, spelling: &Spelling, first: Event, call: FenceCall) -> bool
    requires here { call.arrival.at < event_count (plan_of plan.now) call.arrival.proc.number }
    requires arrives { Arrives (plan_of plan.now) (event_of call.arrival) }
{
    if first != call.arrival {
        return false;
    }
    let arrivals = all_arrivals(plan, call.arrival);
    let number = number_at(plan, spelling, call.arrival);
    !agree(plan, spelling, arrivals, number, call.collect)
}

/// Whether the call of a fence and the first arrival there that spells the set alike differ in collecting; at that
/// arrival itself whether the others that spell it alike do.
fn differs(plan: &Plan, spelling: &Spelling, first: Event, call: FenceCall) -> bool
    requires within { first.at < event_count (plan_of plan.now) first.proc.number }
    requires here { call.arrival.at < event_count (plan_of plan.now) call.arrival.proc.number }
    requires arrives { Arrives (plan_of plan.now) (event_of call.arrival) }
    ensures { result ≡ false → (members : List ℕ) (is : Bool) →
        kind (plan_of plan.now) (event_of first) ≡ Some (Arrive members is) → is ≡ call.collect }
{
    if agrees(plan, first, call.collect) {
        is_divided(plan, spelling, first, call)
    } else {
        true
    }
}

/// The libraries for which a call names a process or a job twice.
fn repeating(spelt: Option<Spelt>) -> Libraries
    ensures { (library : L) → has result library ≡ false → NamesNobodyTwice spelt }
{
    all_if(repeats(spelt))
}

/// How the call of an event spells its set.
fn spelt_at(plan: &Plan, spelling: &Spelling, event: Event) -> Option<Spelt>
    requires { event.at < event_count (plan_of plan.now) event.proc.number }
    ensures { result ≡ spec.spelt_at plan.now spelling.now (event_of event) }
{
    spelling.of(plan.call_of(event))
}

/// Adds what a call of a fence breaks that spells its set as the table says, at the first arrival there that spells the
/// set alike.
fn add_first(
    plan: &Plan,
    spelling: &Spelling,
    sets: &SetTable,
    found: &mut UnportableList,
    compared: Compared,
) -> Result<(), AllocError>
    requires within { compared.first.at < event_count (plan_of plan.now) compared.first.proc.number }
    requires here { compared.call.arrival.at < event_count (plan_of plan.now) compared.call.arrival.proc.number }
    requires arrives { Arrives (plan_of plan.now) (event_of compared.call.arrival) }
    requires jobs { TellsJobs plan.now sets.now }
    requires alike { spec.numbered plan.now spelling.now (event_of compared.call.arrival) ≡ spec.spelt_first sets.now compared.call.set }
    ensures { OnOk result (AddsUnportable found.old found.new (λ library.
        KeepsFenceRules library plan.now spelling.now sets.now (event_of compared.first) compared.call)) }
{
    let Compared { call, first } = compared;
    let spelt = spelt_at(plan, spelling, call.arrival);
    let differing = all_if(differs(plan, spelling, first, call));
    let others = not_taking(sets, call.set);
    let twice = repeating(spelt);
    found.blame(plan, first, Rule::FenceCollect, differing)?;
    found.blame(plan, first, Rule::FenceJobs, others)?;
    found.blame(plan, first, Rule::FenceRepeats, twice)
}

/// Adds that a call doesn't spell its set as the first live call over it does.
fn add_apart(plan: &Plan, found: &mut UnportableList, arrival: Event) -> Result<(), AllocError>
    requires { arrival.at < event_count (plan_of plan.now) arrival.proc.number }
    ensures { OnOk result ((library : L) → IsUnblamed library found.new → ⊥) }
{
    found.blame(plan, arrival, Rule::FenceSpelling, Libraries::all())
}

/// Adds what a call of a fence breaks.
fn add_call(
    plan: &Plan,
    spelling: &Spelling,
    sets: &SetTable,
    found: &mut UnportableList,
    call: FenceCall,
) -> Result<(), AllocError>
    requires is { kind (plan_of plan.now) (event_of call.arrival)
        ≡ Some (Arrive (set_of (set_at plan.now.sets call.set)) call.collect) }
    requires jobs { TellsJobs plan.now sets.now }
    ensures { OnOk result (AddsUnportable found.old found.new (λ library. IsPlainCall library plan.now spelling.now sets.now
        (set_of (set_at plan.now.sets call.set)) call.collect (event_of call.arrival))) }
{
    // Scripts are sound, so who calls a fence is one of its members.
    let _ = plan.scripts();
    let arrivals = all_arrivals(plan, call.arrival);
    let number = number_at(plan, spelling, call.arrival);
    if !are_same(number, sets.spelt_first(call.set)) {
        return add_apart(plan, found, call.arrival);
    }
    match first_spelt(plan, spelling, arrivals, number) {
        Some(first) => add_first(plan, spelling, sets, found, Compared { call, first }),
        None => found.blame(plan, call.arrival, Rule::FenceCollect, Libraries::all()),
    }
}

/// Adds what an event breaks, if it is an arrival at a fence.
fn add_arrival(
    plan: &Plan,
    spelling: &Spelling,
    sets: &SetTable,
    found: &mut UnportableList,
    arrival: Event,
) -> Result<(), AllocError>
    requires within { arrival.at < event_count (plan_of plan.now) arrival.proc.number }
    requires jobs { TellsJobs plan.now sets.now }
    ensures { OnOk result (AddsUnportable found.old found.new (λ library. IsPlainArrival library plan.now spelling.now sets.now (event_of arrival))) }
{
    match plan.kind(arrival) {
        Kind::Arrive { set, collect } => {
            let call = FenceCall {
                arrival,
                set,
                collect,
            };
            add_call(plan, spelling, sets, found, call)
        }
        _ => Ok(()),
    }
}

/// Adds what an event breaks, if it is a live arrival at a fence.
pub(crate) fn add_fence(
    marked: &MarkedPlan<'_>,
    spelling: &Spelling,
    sets: &SetTable,
    found: &mut UnportableList,
    arrival: Event,
) -> Result<(), AllocError>
    requires within { arrival.at < event_count (plan_of marked.now) arrival.proc.number }
    requires jobs { TellsJobs marked.now sets.now }
    ensures { OnOk result (AddsUnportable found.old found.new (λ library. IsPlainArrival library marked.now spelling.now sets.now (event_of arrival))) }
{
    if marked.live(arrival) {
        add_arrival(marked.plan(), spelling, sets, found, arrival)
    } else {
        Ok(())
    }
}
