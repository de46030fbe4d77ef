//! What processes that aren't ready wait for.

ghost use Rattle.std.specs.Prelude.{◌≡◌, ◌<◌, ◌^◌, ℕ, List, Some, true, false, length, map, option_map, replicate};
ghost use Rattle.std.specs.Prelude.{slice_set, slice_index_or, IfOk, IfErr};
ghost use Rattle.wire_runs.specs.Plan.{event_of, kind as kind_in};
ghost use Rattle.wire_scripts.specs.Planned.{plan_of};
ghost use Rattle.wire_fence.specs.FenceTable.{AreFencesOf};
ghost use Rattle.wire_plan.specs.Kinds.{kind_of};
ghost use Rattle.wire_core.specs.Waiting.{is_known_wait, is_same_thing as is_same, after as after_it};
ghost use Rattle.wire_core.specs.Waiting.{coming, Awaits, IsFirst, AreUnknown};

use std::alloc::Global;
use std::marker::Model;
use wire_fence::{Arrivals, FenceId, Fences};
use wire_plan::{Kind, Plan, fence_of};
use wire_types::{Event, Fault, Proc};

/// What a process waits for, as far as it is known.
#[derive(Clone, Copy)]
pub(crate) enum Awaited {
    /// It isn't known: the process may be ready.
    Unknown,
    /// A commit of this process.
    Commit(Proc),
    /// The arrival that completes this fence.
    Fence(FenceId),
    /// A publication of this name.
    Publish(u32),
    /// Nothing that another process does.
    Nothing,
}

/// Whether it is known what a process waits for.
fn is_known(awaited: Awaited) -> bool
    ensures { result ≡ is_known_wait awaited }
{
    !matches!(awaited, Awaited::Unknown)
}

/// Whether what comes is the thing that is awaited.
fn is_same_thing(comes: Awaited, awaited: Awaited) -> bool
    ensures { result ≡ is_same comes awaited }
{
    match (comes, awaited) {
        (Awaited::Commit(comes), Awaited::Commit(awaited)) => comes.number == awaited.number,
        (Awaited::Fence(comes), Awaited::Fence(awaited)) => comes.number == awaited.number,
        (Awaited::Publish(comes), Awaited::Publish(awaited)) => comes == awaited,
        _ => false,
    }
}

/// What is known of what a process waits for, after this came.
fn known_after(comes: Awaited, awaited: Awaited) -> Awaited
    ensures { result ≡ after_it comes awaited }
{
    if is_same_thing(comes, awaited) {
        Awaited::Unknown
    } else {
        awaited
    }
}

/// What an event of the plan, which is of this kind, waits for.
pub(crate) fn awaited_at(plan: &Plan, fences: &Fences, event: Event, kind: Kind) -> Awaited
    requires fences { AreFencesOf plan.now fences.now }
    requires is { kind_in (plan_of plan.now) (event_of event) ≡ Some (kind_of plan.now.sets kind) }
    ensures { Awaits plan.now fences.now (event_of event) result }
{
    match kind {
        Kind::Get { owner, .. } => Awaited::Commit(owner),
        Kind::Leave { .. } => Awaited::Fence(fence_of(plan, fences, event)),
        Kind::LookupWait { name } => Awaited::Publish(name),
        Kind::Put { .. }
        | Kind::Commit
        | Kind::Arrive { .. }
        | Kind::GetNow { .. }
        | Kind::Publish { .. }
        | Kind::Lookup { .. }
        | Kind::Unpublish { .. }
        | Kind::UnpublishAll
        | Kind::Fixed(_) => Awaited::Nothing,
    }
}

/// What an event of this process and kind brings that may be awaited. The fence is that at which it is
/// an arrival, which is counted already.
pub(crate) fn what_comes(
    arrivals: &Arrivals,
    fence: Option<FenceId>,
    kind: Kind,
    proc: Proc,
) -> Awaited
    ensures { (sets : List (List ℕ)) → result ≡ coming proc fence arrivals.now (kind_of sets kind) }
{
    match fence {
        Some(fence) => {
            if arrivals.complete(fence) {
                Awaited::Fence(fence)
            } else {
                Awaited::Unknown
            }
        }
        None => match kind {
            Kind::Commit => Awaited::Commit(proc),
            Kind::Publish { name } => Awaited::Publish(name),
            _ => Awaited::Unknown,
        },
    }
}

/// Whether it is known what the process of this number waits for.
fn is_known_of(awaited: &[Awaited], number: u32) -> bool
    ensures { result ≡ is_known_wait (slice_index_or awaited.now number Awaited.Unknown) }
{
    match awaited.get(number as usize) {
        Some(awaited) => is_known(*awaited),
        None => false,
    }
}

/// The first process, from this one on, of which nothing is known.
fn first_unknown(awaited: &[Awaited], from: u32) -> u32
    requires few { length awaited.now < 2 ^ 32 }
    requires below { (p : ℕ) → p < from → is_known_wait (slice_index_or awaited.now p Awaited.Unknown) ≡ true }
    ensures { IsFirst awaited.now result }
{
    let mut number = from;
    'known: while is_known_of(awaited, number) {
        number += 1;
    }
    number
}

/// Forgets what was known of each process that waits for this.
fn forget(awaited: &mut Vec<Awaited>, comes: Awaited)
    ensures { awaited.new.items ≡ map (after_it comes) awaited.old.items }
{
    for awaited in awaited.iter_mut() {
        *awaited = known_after(comes, *awaited);
    }
}

/// Whether it is known of any process what it waits for.
fn is_any_known(awaited: &[Awaited]) -> bool
    ensures { result ≡ false → AreUnknown awaited.now }
{
    awaited.iter().any(|awaited| is_known(*awaited))
}

/// What each process is known to wait for.
pub(crate) struct Waits {
    awaited: Vec<Awaited>,
    lowest: u32,
    any: bool,
}

// By hand and not derived: so dropping one is a call, and the proof of a function that drops one doesn't take it apart.
impl Drop for Waits {
    fn drop(self) {
        let Waits {
            awaited: _,
            lowest: _,
            any: _,
        } = self;
    }
}

impl Model for Waits {
    ghost use Rattle.std.specs.Prelude.{◌≡◌, ◌<◌, ◌^◌, List, length, false};
    ghost use Rattle.wire_core.specs.declared.waits.Awaited.{Awaited};
    ghost use Rattle.wire_core.specs.Waiting.{IsFirst, AreUnknown};

    ghost Value = { List Awaited };

    ghost view = { λ s. s.awaited.items };

    ghost invariant = { λ s. (length s.awaited.items < 2 ^ 32) × IsFirst s.awaited.items s.lowest × (s.any ≡ false → AreUnknown s.awaited.items) };
}

impl Waits {
    /// Nothing is known of so many processes.
    pub fn new(alloc: Global, count: u32) -> Result<Waits, Fault>
        ensures ok { IfOk result (λ waits. waits ≡ replicate count Awaited.Unknown) }
        ensures err { IfErr result (λ e. e ≡ Fault.Memory) }
    {
        Ok(Waits {
            awaited: vec![in alloc; Awaited::Unknown; count as usize]?,
            lowest: 0,
            any: false,
        })
    }

    /// Whether it is known what a process waits for.
    pub fn is_noted(&self, proc: Proc) -> bool
        ensures { result ≡ is_known_wait (slice_index_or self.now proc.number Awaited.Unknown) }
    {
        is_known_of(&self.awaited, proc.number)
    }

    /// The number of the first process of which nothing is known.
    pub fn lowest(&self) -> u32
        ensures { IsFirst self.now result }
    {
        self.lowest
    }

    /// Notes what a process waits for.
    pub fn note(&mut self, proc: Proc, awaited: Awaited)
        requires { proc.number < length self.old }
        ensures { self.new ≡ slice_set self.old proc.number awaited }
    {
        self.awaited[proc.index()] = awaited;
        self.any = self.any | is_known(awaited);
        let from = self.lowest.min(proc.number);
        self.lowest = first_unknown(&self.awaited, from);
    }

    /// Forgets what was known of each process that waits for this.
    pub fn wake(&mut self, comes: Awaited)
        ensures { self.new ≡ map (after_it comes) self.old }
    {
        if self.any && is_known(comes) {
            forget(&mut self.awaited, comes);
            self.any = is_any_known(&self.awaited);
            self.lowest = first_unknown(&self.awaited, 0);
        }
    }
}
