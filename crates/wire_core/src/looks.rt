//! What fences have brought from a process to a node, looked for once.

ghost use Rattle.std.specs.Prelude.{◌≡◌, ◌+◌, ◌*◌, ◌-◌, ◌<◌, ◌≤◌, ◌^◌, min, max, length, ℕ, Some, false, slice_get};
ghost use Rattle.std.specs.Prelude.{IfOk};
ghost use Rattle.std.specs.Prelude.{IfErr, IfSome, if◌then◌else◌};
ghost use Rattle.wire_runs.specs.Plan.{Plan as ThePlan, event_count, process_count};
ghost use Rattle.wire_runs.specs.Puts.{stored};
ghost use Rattle.wire_runs.specs.Sight.{delivered};
ghost use Rattle.wire_scripts.specs.Planned.{plan_of};
ghost use Rattle.wire_fence.specs.FenceTable.{AreFencesOf};
ghost use Rattle.wire_core.specs.Course.{plan_in, state_of};
ghost use Rattle.wire_core.specs.Met.{brings_at, stored_at};
ghost use Rattle.wire_core.specs.Looks.{IsLook, AreLooks, BringNothing, stored_or};

use crate::met::{brings, may_bring};
use crate::running::Core;
use std::alloc::Global;
use std::marker::Model;
use wire_plan::Kind;
use wire_types::{Event, Fault, Proc};

/// How far the events of a process were looked through for those that may bring its data to a node.
#[derive(Clone, Copy)]
pub(crate) struct Look {
    pub owner: Proc,
    pub node: u32,
    /// So many events were looked at.
    pub seen: u32,
    /// Those of them that may bring something are among so many.
    pub last: u32,
    /// All but the last of those are among so many.
    pub before: u32,
}

impl Look {
    /// No event was looked at.
    fn none(owner: Proc, node: u32) -> Look
        ensures { result ≡ record { owner = owner; node = node; seen = 0; last = 0; before = 0 } }
    {
        Look {
            owner,
            node,
            seen: 0,
            last: 0,
            before: 0,
        }
    }

    /// One event more was looked at.
    fn with_next(self, may_bring: bool) -> Look
        requires { self.seen + 1 < 2 ^ 32 }
        ensures owner { result.owner ≡ self.owner }
        ensures node { result.node ≡ self.node }
        ensures seen { result.seen ≡ self.seen + 1 }
        ensures look { (plan : ThePlan) → IsLook plan self →
            (may_bring ≡ false → (cut : ℕ → ℕ) → brings_at plan cut self.owner.number self.node self.seen ≡ false) → IsLook plan result }
    {
        let seen = self.seen + 1;
        if may_bring {
            Look {
                owner: self.owner,
                node: self.node,
                seen,
                last: seen,
                before: self.last,
            }
        } else {
            Look {
                owner: self.owner,
                node: self.node,
                seen,
                last: self.last,
                before: self.before,
            }
        }
    }
}

/// For so many processes and nodes there is always a place for each process and node. Within the limits of versions 1
/// and 2 there are no more: 512 processes on 512 nodes. So many looks take 5 MiB.
const ALWAYS_KEPT: usize = 512 * 512;

/// The looks that are kept. Where there are too many processes and nodes, several share a place, which has the look
/// that was kept last; what it took the place of is looked for again.
#[derive(Drop)]
pub(crate) struct Looks {
    looks: Vec<Look>,
    nodes: usize,
}

impl Model for Looks {
    ghost use Rattle.std.specs.Prelude.{List};
    ghost use Rattle.wire_core.specs.declared.looks.Look.{Look};

    ghost Value = { List Look };

    ghost view = { λ s. s.looks.items };
}

impl Looks {
    /// No event was looked at. There is a place for each process and node, or as many as a plan has events, which
    /// aren't fewer than the processes and nodes that its gets ask.
    pub fn new(alloc: Global, processes: u32, nodes: u32, events: usize) -> Result<Looks, Fault>
        ensures ok { IfOk result (λ looks. (plan : ThePlan) → AreLooks plan looks) }
        ensures room { IfOk result (λ looks. length looks ≡ min (min (nodes * processes) (2 ^ 64 - 1)) (max events 262144)) }
        ensures err { IfErr result (λ e. e ≡ Fault.Memory) }
    {
        let nodes = nodes as usize;
        let pairs = nodes.saturating_mul(processes as usize);
        let places = pairs.min(events.max(ALWAYS_KEPT));
        let none = Look::none(Proc::new(0), 0);
        Ok(Looks {
            looks: vec![in alloc; none; places]?,
            nodes,
        })
    }

    /// The place for a process and a node, where there is any.
    fn place(&self, owner: Proc, node: u32) -> usize {
        let number = self
            .nodes
            .saturating_mul(owner.index())
            .saturating_add(node as usize);
        match self.looks.len() {
            0 => 0,
            places => number % places,
        }
    }

    /// The look that is kept for a process and a node.
    fn at(&self, owner: Proc, node: u32) -> Look
        ensures owner { result.owner ≡ owner }
        ensures node { result.node ≡ node }
        ensures look { (plan : ThePlan) → AreLooks plan self.now → IsLook plan result }
    {
        match self.looks.get(self.place(owner, node)) {
            Some(look) if look.owner == owner && look.node == node => *look,
            _ => Look::none(owner, node),
        }
    }

    /// Keeps a look.
    fn put(&mut self, look: Look)
        ensures { (plan : ThePlan) → AreLooks plan self.old → IsLook plan look → AreLooks plan self.new }
    {
        let place = self.place(look.owner, look.node);
        if place < self.looks.len() {
            self.looks[place] = look;
        }
    }
}

impl<'a> Core<'a> {
    /// Looks through the events of a process that are done and weren't looked at.
    fn look_on(&self, owner: Proc, node: u32) -> Look
        ensures { IsLook (plan_in self.now) result }
    {
        let mut look = self.looks.at(owner, node);
        for at in look.seen..self.done(owner) {
            let may = may_bring(self.plan, self.fences, Event { proc: owner, at }, node);
            look = look.with_next(may);
        }
        look
    }

    /// Where the next event of a process is a get that is answered at once, looks through the events of
    /// its owner, unless `newest_bringing_arrival` answers it. For speed alone: what is kept of a look changes no
    /// answer.
    pub(crate) fn look_back(&mut self, proc: Proc)
        requires { proc.number < process_count (plan_in self.old) }
        ensures { self.new ≡ self.old }
    {
        let Some(Kind::GetNow { owner, .. }) = self.next_kind(proc) else {
            return;
        };
        let node = self.plan.node_of(proc);
        if self
            .newest_bringing_arrival(owner, node, self.done(owner))
            .is_some()
        {
            return;
        }
        let look = self.look_on(owner, node);
        self.looks.put(look);
    }

    /// Of a process's events from one number to below another, the last that has brought its data to a
    /// node.
    fn last_between(&self, owner: Proc, node: u32, from: u32, to: u32) -> Option<u32>
        requires order { from ≤ to }
        requires within { to ≤ event_count (plan_in self.now) owner.number }
        ensures told { (key : ℕ) → delivered (plan_in self.now) (state_of self.now).done owner.number node key to
            ≡ stored_or (plan_in self.now) owner.number
            key result (delivered (plan_in self.now) (state_of self.now).done owner.number node key from) }
        ensures below { IfSome result (λ at. at < to) }
    {
        let mut at = to;
        'events: while at > from {
            at -= 1;
            if brings(
                self.plan,
                self.fences,
                &self.arrivals,
                Event { proc: owner, at },
                node,
            ) {
                return Some(at);
            }
        }
        None
    }

    /// Of the arrivals of a process, so many of whose events are done, the last at a fence that brings data, where it
    /// has brought that of the process to a node. A test for speed alone: where nothing is found, nothing is promised,
    /// and the events are looked through.
    fn newest_bringing_arrival(&self, owner: Proc, node: u32, done: u32) -> Option<u32>
        requires { done ≡ (state_of self.now).done owner.number }
        ensures told { IfSome result (λ at. (key : ℕ) → delivered (plan_in self.now) (state_of self.now).done owner.number node key done
            ≡ stored (plan_in self.now) owner.number key at) }
        ensures done { IfSome result (λ at. at < done) }
    {
        // The steps so far are an interleaving, so no more events are done than there are.
        let _ = self.history();
        let Some(arrival) = self.plan().last_bringing_arrival(Event {
            proc: owner,
            at: done,
        })
        else {
            return None;
        };
        self.last_between(owner, node, arrival.at, arrival.at + 1)
    }

    /// The look that is kept for a process and a node, where it saw no more than so many events.
    fn look_to(&self, owner: Proc, node: u32, done: u32) -> Look
        ensures owner { result.owner ≡ owner }
        ensures node { result.node ≡ node }
        ensures within { result.seen ≤ done }
        ensures look { IsLook (plan_in self.now) result }
    {
        let look = self.looks.at(owner, node);
        if look.seen <= done {
            look
        } else {
            Look::none(owner, node)
        }
    }

    /// Of the arrivals of a process, so many of whose events are done, the last at a fence that has brought
    /// its data to a node.
    pub(crate) fn last_bringing(&self, owner: Proc, node: u32, done: u32) -> Option<u32>
        requires { done ≡ (state_of self.now).done owner.number }
        ensures told { (key : ℕ) → delivered (plan_in self.now) (state_of self.now).done owner.number node key
            (event_count (plan_in self.now) owner.number) ≡ stored_at (plan_in self.now) owner.number key result }
        ensures done { IfSome result (λ at. at < done) }
    {
        // The steps so far are an interleaving, so no more events are done than there are.
        let _ = self.history();
        if let Some(at) = self.newest_bringing_arrival(owner, node, done) {
            return Some(at);
        }
        let look = self.look_to(owner, node, done);
        if let Some(at) = self.last_between(owner, node, look.seen, done) {
            return Some(at);
        }
        let next = look.last.saturating_sub(1);
        if let Some(at) = self.last_between(owner, node, next, look.last) {
            return Some(at);
        }
        self.last_between(owner, node, 0, look.before)
    }
}
