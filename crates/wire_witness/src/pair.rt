//! The search for a witness of two calls.

ghost use Rattle.std.specs.Prelude.{◌≡◌, ◌<◌, length, IfOk, IfErr};
ghost use Rattle.wire_types.specs.declared.Fault.TheVariants.{Memory};
ghost use Rattle.wire_runs.specs.Ends.{calls_of};
ghost use Rattle.wire_scripts.specs.Planned.{plan_of};
ghost use Rattle.wire_races.specs.Racing.{AreRacing};
ghost use Rattle.wire_witness.specs.Searches as spec;
ghost use Rattle.wire_witness.specs.Searches.{IsPairSearch};

use crate::search::find_witness;
use crate::witness::Witness;
use std::alloc::Global;
use wire_happens_before::{HappensBefore, MarkedPlan};
use wire_plan::Plan;
use wire_races::are_racing;
use wire_types::{CallAt, Fault};

/// What a search for a witness of two calls found.
#[derive(Drop)]
pub enum PairSearch {
    /// The calls don't race.
    NoRace,
    /// They race, and no witness was found, which doesn't mean that there is none.
    NotShown,
    /// They race, and this is a witness of them.
    Shown(Witness),
}

impl PairSearch {
    /// How many races are shown: one or none.
    pub fn count_shown(&self) -> usize
        ensures { result ≡ spec.shown_by_pair self.now }
    {
        match self {
            PairSearch::Shown(_) => 1,
            PairSearch::NoRace | PairSearch::NotShown => 0,
        }
    }
}

/// Looks for a witness of two calls that race.
fn search_race(
    alloc: Global,
    marked: &MarkedPlan<'_>,
    calls: (CallAt, CallAt),
) -> Result<PairSearch, Fault>
    requires race { AreRacing (plan_of marked.now) calls.0 calls.1 }
    ensures ok { IfOk result (IsPairSearch marked.now calls.0 calls.1) }
    ensures err { IfErr result (λ e. e ≡ Memory) }
{
    match find_witness(alloc, marked, calls.0, calls.1)? {
        Some(witness) => Ok(PairSearch::Shown(witness)),
        None => Ok(PairSearch::NotShown),
    }
}

/// Looks whether two calls of a marked plan race, and if so for a witness of them.
fn search_calls(
    alloc: Global,
    marked: &MarkedPlan<'_>,
    calls: (CallAt, CallAt),
) -> Result<PairSearch, Fault>
    requires x_there { calls.0.call < length (calls_of (plan_of marked.now) calls.0.proc.number) }
    requires y_there { calls.1.call < length (calls_of (plan_of marked.now) calls.1.proc.number) }
    ensures ok { IfOk result (IsPairSearch marked.now calls.0 calls.1) }
    ensures err { IfErr result (λ e. e ≡ Memory) }
{
    let racing = are_racing(alloc, marked, calls.0, calls.1)?;
    if !racing {
        return Ok(PairSearch::NoRace);
    }
    search_race(alloc, marked, calls)
}

/// Looks whether two calls of a plan race, and if so for a witness of them, as [`crate::find_witness`]
/// does. The one fault is `Fault::Memory`.
pub fn search_pair(alloc: Global, plan: &Plan, calls: (CallAt, CallAt)) -> Result<PairSearch, Fault>
    requires x_there { calls.0.call < length (calls_of (plan_of plan.now) calls.0.proc.number) }
    requires y_there { calls.1.call < length (calls_of (plan_of plan.now) calls.1.proc.number) }
    ensures ok { IfOk result (IsPairSearch plan.now calls.0 calls.1) }
    ensures err { IfErr result (λ e. e ≡ Memory) }
{
    let marks = HappensBefore::of(alloc, plan)?;
    let search = search_calls(alloc, &marks.with(plan), calls);
    drop(marks);
    search
}
