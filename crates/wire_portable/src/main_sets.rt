//! The main set of each process: the one over which it meets others most. Which set that is doesn't matter to contracts.

ghost use Rattle.std.specs.Prelude.{◌≡◌, true, Some, IfOk, IsTrue, MatchOption, slice_get};
ghost use Rattle.wire_runs.specs.Fences.{is_member};
ghost use Rattle.wire_runs.specs.Plan.{set_of};
ghost use Rattle.wire_scripts.specs.Scripts.{numbers_of, set_at};
ghost use Rattle.wire_portable.specs.Phases.{AreMainSets};

use std::alloc::{AllocError, Global};
use wire_plan::{Kind, Plan};
use wire_scripts::Sets;
use wire_types::{Event, Proc};

/// By what a set is chosen: by how many processes meet how often over it, or by how many alone.
#[derive(Clone, Copy, PartialEq, Eq)]
pub(crate) enum Choice {
    /// By how many processes meet how often.
    Often,
    /// By how many processes.
    Wide,
}

/// The best set so far of a process, and how good it is: not at all at first.
#[derive(Clone, Copy)]
struct Best {
    set: u32,
    weight: u64,
}

/// Whether a process stands first in a set.
fn leads(sets: &Sets, set: u32, proc: Proc) -> bool {
    match sets.members(set).first() {
        Some(first) => first.number == proc.number,
        None => false,
    }
}

/// Of each process whether it stands first in some set.
fn leaders(alloc: Global, plan: &Plan) -> Result<Vec<bool>, AllocError> {
    let sets = plan.scripts().sets();
    let mut lead = vec![in alloc; false; plan.process_count() as usize]?;
    for set in 0..sets.len() {
        if let Some(first) = sets.members(set).first() {
            if let Some(slot) = lead.get_mut(first.index()) {
                *slot = true;
            }
        }
    }
    Ok(lead)
}

/// Counts the fences that a process calls over the sets in which it stands first.
fn count_led(plan: &Plan, proc: Proc, counts: &mut Vec<u32>) {
    let sets = plan.scripts().sets();
    for at in 0..plan.event_count(proc) {
        if let Kind::Arrive { set, .. } = plan.kind(Event { proc, at }) {
            if leads(sets, set, proc) {
                if let Some(slot) = counts.get_mut(set as usize) {
                    *slot = slot.saturating_add(1);
                }
            }
        }
    }
}

/// How often the first process of each set calls its fences.
fn meetings(alloc: Global, plan: &Plan) -> Result<Vec<u32>, AllocError> {
    let mut counts = vec![in alloc; 0; plan.scripts().sets().len() as usize]?;
    let lead = leaders(alloc, plan)?;
    for number in 0..plan.process_count() {
        if let Some(true) = lead.get(number as usize).copied() {
            count_led(plan, Proc { number }, &mut counts);
        }
    }
    Ok(counts)
}

/// How good a set is.
fn weight_of(choice: Choice, members: &[Proc], count: u32) -> u64 {
    let wide = members.len() as u64;
    match choice {
        Choice::Often => wide.saturating_mul(count as u64),
        Choice::Wide => wide,
    }
}

/// Takes up a set for its processes.
fn offer(best: &mut Vec<Best>, members: &[Proc], offered: Best) {
    for member in members {
        if let Some(slot) = best.get_mut(member.index()) {
            if offered.weight > slot.weight {
                *slot = offered;
            }
        }
    }
}

/// The best set of each process.
fn best_sets(alloc: Global, plan: &Plan, choice: Choice) -> Result<Vec<Best>, AllocError> {
    let sets = plan.scripts().sets();
    let counts = meetings(alloc, plan)?;
    let mut best = Vec::new(alloc);
    for _ in 0..plan.process_count() {
        best.push(Best { set: 0, weight: 0 })?;
    }
    for set in 0..sets.len() {
        if let Some(count) = counts.get(set as usize).copied() {
            let members = sets.members(set);
            let weight = weight_of(choice, members, count);
            offer(&mut best, members, Best { set, weight });
        }
    }
    Ok(best)
}

/// Whether a process stands at this place among these.
fn is_at(members: &[Proc], place: usize, proc: Proc) -> bool
    ensures { IsTrue result → slice_get (numbers_of members.now) place ≡ Some proc.number }
{
    match members.get(place) {
        Some(member) => member.number == proc.number,
        None => false,
    }
}

/// Whether a process is one of a set, by bisection.
fn is_of_set(plan: &Plan, set: u32, proc: Proc) -> bool
    ensures { IsTrue result → is_member (set_of (set_at plan.now.sets set)) proc.number ≡ true }
{
    let scripts = plan.scripts();
    let sets = scripts.sets();
    let members = sets.members(set);
    let place = members.partition_point(|member| member.number < proc.number);
    is_at(members, place, proc)
}

/// The best set of a process, if it is of one.
fn own_set(plan: &Plan, best: &[Best], proc: Proc) -> Option<u32>
    ensures { MatchOption result (Unit {0}) (λ set. is_member (set_of (set_at plan.now.sets set)) proc.number ≡ true) }
{
    let Some(one) = best.get(proc.index()).copied() else {
        return None;
    };
    if is_of_set(plan, one.set, proc) {
        Some(one.set)
    } else {
        None
    }
}

/// The number of the main set of each process, if it is of one.
pub(crate) fn main_sets(
    alloc: Global,
    plan: &Plan,
    choice: Choice,
) -> Result<Vec<Option<u32>>, AllocError>
    ensures { IfOk result (λ sets. AreMainSets plan.now sets.items) }
{
    let best = best_sets(alloc, plan, choice)?;
    let mut sets = Vec::new(alloc);
    for number in 0..plan.process_count() {
        sets.push(own_set(plan, best.as_slice(), Proc { number }))?;
    }
    Ok(sets)
}
