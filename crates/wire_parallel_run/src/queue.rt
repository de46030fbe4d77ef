//! In which order the processes of a core are served: one that waits is put by until that comes for which it waits. No
//! contract speaks of the order, and none rests on it.

ghost use Rattle.std.specs.Prelude.{◌≡◌, Some};
ghost use Rattle.wire_runs.specs.Plan.{event_of, kind as kind_in};
ghost use Rattle.wire_scripts.specs.Planned.{plan_of};
ghost use Rattle.wire_plan.specs.Kinds.{kind_of};

use std::alloc::{AllocError, Global};
use wire_plan::{Kind, Plan, fence_of};
use wire_types::{Event, Proc};

/// For what a process may wait.
#[derive(Clone, Copy)]
enum Thing {
    /// A commit of this process.
    Commit(Proc),
    /// The end of the fence of this number.
    FenceEnd(u32),
    /// A publish of this name.
    Publish(u32),
}

/// What an event of the plan, which is of this kind, waits for.
fn awaited_at(plan: &Plan, event: Event, kind: Kind) -> Option<Thing>
    requires { kind_in (plan_of plan.now) (event_of event) ≡ Some (kind_of plan.now.sets kind) }
{
    match kind {
        Kind::Get { owner, .. } => Some(Thing::Commit(owner)),
        Kind::Leave { .. } => Some(Thing::FenceEnd(fence_of(plan, plan.fences(), event).number)),
        Kind::LookupWait { name } => Some(Thing::Publish(name)),
        _ => None,
    }
}

/// What an event of the plan, which is of this kind, brings to those that wait for it. The last one to arrive at a
/// fence leaves it at once.
fn brought_at(plan: &Plan, event: Event, kind: Kind) -> Option<Thing>
    requires { kind_in (plan_of plan.now) (event_of event) ≡ Some (kind_of plan.now.sets kind) }
{
    match kind {
        Kind::Commit => Some(Thing::Commit(event.proc)),
        Kind::Leave { .. } => Some(Thing::FenceEnd(fence_of(plan, plan.fences(), event).number)),
        Kind::Publish { name } => Some(Thing::Publish(name)),
        _ => None,
    }
}

/// What an event waits for; nothing where it isn't of the plan.
fn awaited(plan: &Plan, event: Event) -> Option<Thing> {
    if event.at >= plan.event_count(event.proc) {
        return None;
    }
    awaited_at(plan, event, plan.kind(event))
}

/// What an event brings; nothing where it isn't of the plan.
fn brought(plan: &Plan, event: Event) -> Option<Thing> {
    if event.at >= plan.event_count(event.proc) {
        return None;
    }
    brought_at(plan, event, plan.kind(event))
}

/// For each thing of a kind, by its number, the processes that wait for it.
#[derive(Drop)]
struct Waiting {
    alloc: Global,
    lists: Vec<Vec<Proc>>,
}

impl Waiting {
    /// Nobody waits.
    fn new(alloc: Global) -> Waiting {
        Waiting {
            alloc,
            lists: Vec::new(alloc),
        }
    }

    /// Makes a list for each thing up to the one of this number.
    fn make_lists(&mut self, number: usize) -> Result<(), AllocError> {
        for _ in self.lists.len()..=number {
            self.lists.push(Vec::new(self.alloc))?;
        }
        Ok(())
    }

    /// Notes that a process waits for the thing of this number.
    fn add(&mut self, number: usize, proc: Proc) -> Result<(), AllocError> {
        self.make_lists(number)?;
        if let Some(list) = self.lists.get_mut(number) {
            list.push(proc)?;
        }
        Ok(())
    }

    /// Moves those that wait for the thing of this number to those that are woken.
    fn wake(&mut self, number: usize, woken: &mut Vec<Proc>) -> Result<(), AllocError> {
        let Some(list) = self.lists.get_mut(number) else {
            return Ok(());
        };
        for proc in list.iter() {
            woken.push(*proc)?;
        }
        list.clear();
        Ok(())
    }
}

/// The processes that are to be served, and those that wait.
#[derive(Drop)]
pub(crate) struct Queue {
    count: u32,
    /// Those below this number were served.
    begun: u32,
    /// Those for which that has come for which they waited.
    woken: Vec<Proc>,
    /// Those that wait for a commit, by its process.
    for_commits: Waiting,
    /// Those that wait for the end of a fence, by its number.
    for_fences: Waiting,
    /// Those that wait for a publish, by its name.
    for_names: Waiting,
}

impl Queue {
    /// None of so many processes was served.
    pub fn new(alloc: Global, count: u32) -> Queue {
        Queue {
            count,
            begun: 0,
            woken: Vec::new(alloc),
            for_commits: Waiting::new(alloc),
            for_fences: Waiting::new(alloc),
            for_names: Waiting::new(alloc),
        }
    }

    /// Takes the process that is to be served next: one that was woken, else the lowest that wasn't served.
    pub fn take(&mut self) -> Option<Proc> {
        if let Some(proc) = self.woken.pop() {
            return Some(proc);
        }
        if self.begun >= self.count {
            return None;
        }
        let proc = Proc::new(self.begun);
        self.begun += 1;
        Some(proc)
    }

    /// Wakes those that wait for what this event brings.
    pub fn wake(&mut self, plan: &Plan, event: Event) -> Result<(), AllocError> {
        match brought(plan, event) {
            Some(Thing::Commit(owner)) => self.for_commits.wake(owner.index(), &mut self.woken),
            Some(Thing::FenceEnd(fence)) => self.for_fences.wake(fence as usize, &mut self.woken),
            Some(Thing::Publish(name)) => self.for_names.wake(name as usize, &mut self.woken),
            None => Ok(()),
        }
    }

    /// Puts a process by until that comes for which this event, its next one, waits.
    pub fn put_by(&mut self, plan: &Plan, next: Event) -> Result<(), AllocError> {
        match awaited(plan, next) {
            Some(Thing::Commit(owner)) => self.for_commits.add(owner.index(), next.proc),
            Some(Thing::FenceEnd(fence)) => self.for_fences.add(fence as usize, next.proc),
            Some(Thing::Publish(name)) => self.for_names.add(name as usize, next.proc),
            None => Ok(()),
        }
    }
}
