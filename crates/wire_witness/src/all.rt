//! The search for witnesses of the races of a plan.

ghost use Rattle.std.specs.Prelude.{◌≡◌, IfOk, IfErr};
ghost use Rattle.wire_types.specs.declared.Fault.TheVariants.{Memory};
ghost use Rattle.wire_findings.specs.Findings.{AreFindings};
ghost use Rattle.wire_witness.specs.Searches as spec;
ghost use Rattle.wire_witness.specs.Searches.{IsRaceSearch};

use crate::races::{count_races, take_races};
use crate::tried::{TriedRace, count_shown, try_races};
use std::alloc::Global;
use std::thread::Threads;
use wire_findings::FindingList;
use wire_happens_before::{HappensBefore, MarkedPlan};
use wire_json::RaceCounts;
use wire_plan::Plan;
use wire_races::finding_list;
use wire_types::Fault;

/// The races of a plan of which witnesses were looked for, and how many races it has in all.
#[derive(Drop)]
pub struct RaceSearch {
    pub tried: Vec<TriedRace>,
    pub count: usize,
}

impl RaceSearch {
    /// How many races are shown.
    pub fn count_shown(&self) -> usize
        ensures { result ≡ spec.shown_by_races self.now }
    {
        count_shown(self.tried.as_slice())
    }

    /// How many races there are in all, and how many of them are shown, not shown and not tried.
    pub fn counts(&self) -> RaceCounts
        ensures { result ≡ spec.counts_of self.now }
    {
        let tried = self.tried.as_slice();
        let shown = count_shown(tried);
        RaceCounts {
            races: self.count as u64,
            shown: shown as u64,
            not_shown: tried.len().saturating_sub(shown) as u64,
            not_tried: self.count.saturating_sub(tried.len()) as u64,
        }
    }
}

/// Looks for witnesses of the races among the findings of a plan, of so many races at most.
fn search_found(
    alloc: Global,
    marked: &MarkedPlan<'_>,
    found: &FindingList,
    most: usize,
) -> Result<RaceSearch, Fault>
    requires { AreFindings marked.now found.now }
    ensures ok { IfOk result (IsRaceSearch marked.now most) }
    ensures err { IfErr result (λ e. e ≡ Memory) }
{
    let races = take_races(alloc, found, most)?;
    let count = count_races(found);
    let tried = try_races(alloc, marked, races.as_slice())?;
    Ok(RaceSearch { tried, count })
}

/// Looks for witnesses of the races of a marked plan, of so many races at most.
fn search_marked(
    rt: &(impl Threads + Sync),
    alloc: Global,
    marked: &MarkedPlan<'_>,
    most: usize,
) -> Result<RaceSearch, Fault>
    ensures ok { IfOk result (IsRaceSearch marked.now most) }
    ensures err { IfErr result (λ e. e ≡ Memory) }
{
    let found = finding_list(rt, alloc, marked)?;
    let search = search_found(alloc, marked, &found, most);
    drop(found);
    search
}

/// Looks for witnesses of the races of a plan, of so many races at most, in the order of the findings, as
/// [`crate::find_witness`] does. The one fault is `Fault::Memory`.
pub fn search_races(
    rt: &(impl Threads + Sync),
    alloc: Global,
    plan: &Plan,
    most: usize,
) -> Result<RaceSearch, Fault>
    ensures ok { IfOk result (IsRaceSearch plan.now most) }
    ensures err { IfErr result (λ e. e ≡ Memory) }
{
    let marks = HappensBefore::of(alloc, plan)?;
    let search = search_marked(rt, alloc, &marks.with(plan), most);
    drop(marks);
    search
}
