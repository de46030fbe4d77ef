//! The lines of a plan in which calls over one set spell it in two ways: libraries take each spelling for a fence of
//! its own, so fewer calls come.

ghost use Rattle.std.specs.Prelude.{◌≡◌, ◌<◌, true, length};
ghost use Rattle.wire_runs.specs.Plan.{event_count};
ghost use Rattle.wire_runs.specs.Ends.{calls_of};
ghost use Rattle.wire_scripts.specs.Planned.{plan_of};
ghost use Rattle.wire_portable.specs.declared.libraries.Library.{Library as L};
ghost use Rattle.wire_portable.specs.Unportable.{IsUnblamed};

use crate::brought::Reads;
use crate::coming::{Coming, SpeltFence, count_one, spelt_number};
use crate::fences::SetTable;
use crate::libraries::Libraries;
use crate::listed::{Rule, Unportable, UnportableList};
use std::alloc::{AllocError, Global};
use std::collections::HashMap;
use wire_happens_before::MarkedPlan;
use wire_plan::{Kind, Plan};
use wire_spelling::Spelling;
use wire_types::{CallAt, Event, Proc};

/// What is known of the calls of a fence that spell its set alike.
#[derive(Clone, Copy)]
struct Group {
    first: Event,
    set: u32,
    number: usize,
    collect: bool,
    agree: bool,
    comes: bool,
}

/// The groups of a plan, in the order of their first calls.
struct Groups {
    list: Vec<Group>,
    places: HashMap<SpeltFence, usize>,
    turns: HashMap<(u32, usize, u32), u32>,
}

// By hand and not derived: so dropping one is a call, and the proof of a function that drops one doesn't take it apart.
impl Drop for Groups {
    fn drop(self) {
        let Groups {
            list: _,
            places: _,
            turns: _,
        } = self;
    }
}

impl Groups {
    /// Takes up a call.
    fn join(&mut self, fence: SpeltFence, call: Group) -> Result<(), AllocError> {
        if let Some(place) = self.places.get(&fence).copied() {
            if place < self.list.len() {
                let old = self.list[place];
                self.list[place] = Group {
                    agree: old.agree && old.collect == call.collect,
                    comes: old.comes || call.comes,
                    ..old
                };
            }
            return Ok(());
        }
        self.places.insert(fence, self.list.len())?;
        self.list.push(call)?;
        Ok(())
    }

    /// Takes up an event, where it is the arrival at a fence.
    fn take(
        &mut self,
        marked: &MarkedPlan<'_>,
        spelling: &Spelling,
        coming: &Coming,
        event: Event,
    ) -> Result<(), AllocError>
        requires { event.at < event_count (plan_of marked.now) event.proc.number }
    {
        let Kind::Arrive { set, collect } = marked.plan().kind(event) else {
            return Ok(());
        };
        let number = spelt_number(marked, spelling, event);
        let turn = count_one(&mut self.turns, (event.proc.number, number, set))?;
        let call = Group {
            first: event,
            set,
            number,
            collect,
            agree: true,
            comes: coming.comes(event),
        };
        self.join((set, number, turn), call)
    }

    /// Takes up the events of a process.
    fn take_all(
        &mut self,
        marked: &MarkedPlan<'_>,
        spelling: &Spelling,
        coming: &Coming,
        proc: Proc,
    ) -> Result<(), AllocError> {
        for at in 0..marked.plan().event_count(proc) {
            self.take(marked, spelling, coming, Event { proc, at })?;
        }
        Ok(())
    }

    /// Of a plan.
    fn of(
        alloc: Global,
        marked: &MarkedPlan<'_>,
        spelling: &Spelling,
        coming: &Coming,
    ) -> Result<Groups, AllocError> {
        let mut groups = Groups {
            list: Vec::new(alloc),
            places: HashMap::new(alloc),
            turns: HashMap::new(alloc),
        };
        for number in 0..marked.plan().process_count() {
            groups.take_all(marked, spelling, coming, Proc { number })?;
        }
        Ok(groups)
    }
}

/// For each set the number of how the first call that comes spells it.
struct FirstSpellings {
    numbers: HashMap<u32, usize>,
}

// By hand and not derived: so dropping one is a call, and the proof of a function that drops one doesn't take it apart.
impl Drop for FirstSpellings {
    fn drop(self) {
        let FirstSpellings { numbers: _ } = self;
    }
}

impl FirstSpellings {
    /// Whether a group spells its set as the first one of that set does.
    fn is_as_first(&mut self, group: Group) -> Result<bool, AllocError> {
        if let Some(number) = self.numbers.get(&group.set).copied() {
            return Ok(number == group.number);
        }
        self.numbers.insert(group.set, group.number)?;
        Ok(true)
    }
}

/// Adds what a group breaks.
fn add_group(
    plan: &Plan,
    spelling: &Spelling,
    sets: &SetTable,
    found: &mut UnportableList,
    group: Group,
) -> Result<(), AllocError>
    requires { group.first.at < event_count (plan_of plan.now) group.first.proc.number }
{
    if !group.agree {
        found.blame(plan, group.first, Rule::FenceCollect, Libraries::all())?;
    }
    if !sets.is_of_one_job(group.set) {
        found.blame(plan, group.first, Rule::FenceJobs, Libraries::only_v4())?;
    }
    if let Some(spelt) = spelling.of(plan.call_of(group.first)) {
        if spelt.repeats {
            found.blame(plan, group.first, Rule::FenceRepeats, Libraries::all())?;
        }
    }
    Ok(())
}

/// Whether a group has a call that comes, and its first call is of the plan, as it always is.
fn has_calls(plan: &Plan, group: Group) -> bool
    ensures { result ≡ true → group.first.at < event_count (plan_of plan.now) group.first.proc.number }
{
    group.comes && group.first.at < plan.event_count(group.first.proc)
}

/// Adds what the fences break.
fn add_groups(
    alloc: Global,
    plan: &Plan,
    spelling: &Spelling,
    sets: &SetTable,
    found: &mut UnportableList,
    groups: &Groups,
) -> Result<(), AllocError> {
    let mut firsts = FirstSpellings {
        numbers: HashMap::new(alloc),
    };
    for group in &groups.list {
        if has_calls(plan, *group) {
            add_group(plan, spelling, sets, found, *group)?;
            let alike = firsts.is_as_first(*group)?;
            if !alike {
                found.blame(plan, group.first, Rule::FenceSpelling, Libraries::all())?;
            }
        }
    }
    Ok(())
}

/// Whether a call is of the plan, as those of lines always are.
fn is_call(plan: &Plan, call: CallAt) -> bool
    ensures { result ≡ true → call.call < length (calls_of (plan_of plan.now) call.proc.number) }
{
    match plan.scripts().processes().get(call.proc.index()) {
        Some(process) => (call.call as usize) < process.calls().len(),
        None => false,
    }
}

/// Whether a call comes to be made.
fn is_made(plan: &Plan, coming: &Coming, call: CallAt) -> bool {
    is_call(plan, call) && coming.is_asked(plan.first_event(call))
}

/// Whether something that comes may bring its key to a get-now.
fn may_bring(plan: &Plan, coming: &Coming, reads: &Reads, call: CallAt) -> bool {
    if !is_call(plan, call) {
        return false;
    }
    let get = plan.first_event(call);
    get.at < plan.event_count(get.proc) && reads.may_bring(plan, coming, get)
}

/// Whether a line stays: one of a call that comes to be made, and not of a fence, nor of a get-now to which nothing that
/// comes brings its key; a put again is told in any case.
fn stays(plan: &Plan, coming: &Coming, reads: &Reads, line: Unportable) -> bool {
    match line.rule {
        Rule::FenceCollect | Rule::FenceJobs | Rule::FenceRepeats | Rule::FenceSpelling => false,
        Rule::Rewrite => true,
        Rule::GetNow => {
            is_made(plan, coming, line.call) && may_bring(plan, coming, reads, line.call)
        }
        _ => is_made(plan, coming, line.call),
    }
}

/// The lines that stay.
fn staying(
    alloc: Global,
    plan: &Plan,
    coming: &Coming,
    reads: &Reads,
    lines: &UnportableList,
) -> Result<UnportableList, AllocError> {
    let mut found = UnportableList::empty(alloc);
    for place in 0..lines.len() {
        if let Some(line) = lines.get(place) {
            if stays(plan, coming, reads, line) {
                found.push(line)?;
            }
        }
    }
    Ok(found)
}

/// The lines by the rules, and whether they are of a plan wherever its processes are.
#[derive(Clone, Copy)]
pub(crate) struct Ruled<'a> {
    pub lines: &'a UnportableList,
    pub anywhere: bool,
}

/// The lines where each spelling is a fence of its own, given those by the rules.
pub(crate) fn as_spelt(
    alloc: Global,
    marked: &MarkedPlan<'_>,
    spelling: &Spelling,
    sets: &SetTable,
    ruled: Ruled<'_>,
) -> Result<UnportableList, AllocError> {
    let plan = marked.plan();
    let coming = Coming::of(alloc, marked, spelling)?;
    let reads = Reads::of(alloc, plan, &coming, ruled.anywhere)?;
    let groups = Groups::of(alloc, marked, spelling, &coming)?;
    let mut found = staying(alloc, plan, &coming, &reads, ruled.lines)?;
    add_groups(alloc, plan, spelling, sets, &mut found, &groups)?;
    Ok(found.in_order())
}

/// The lines that were found so, which blame all libraries, as they always do; else the lines by the rules.
pub(crate) fn all_blamed(found: UnportableList, lines: UnportableList) -> UnportableList
    ensures { (library : L) → IsUnblamed library result → IsUnblamed library lines }
{
    if found.blames_all() { found } else { lines }
}
