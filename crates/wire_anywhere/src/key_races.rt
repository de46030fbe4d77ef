//! Races on keys on any placement, by the get-nows of the plan.

ghost use Rattle.std.specs.Prelude.{◌≡◌, ◌<◌, Some, OnOk, IfOk};
ghost use Rattle.wire_runs.specs.Plan.{GetNow, event_of, process_count, event_count, kind};
ghost use Rattle.wire_runs.specs.Plan as runs;
ghost use Rattle.wire_scripts.specs.Planned.{plan_of};
ghost use Rattle.wire_anywhere.specs.Adding.{AddsPlacementFindings, ToldIn, IsPiece, ArePieces, IsInSome};
ghost use Rattle.wire_anywhere.specs.Gets.{AreGetLists};
ghost use Rattle.wire_anywhere.specs.Races.{IsShownBy, IsShownOf, IsShown};

use crate::far_races::add_far_races;
use crate::gets::GetTable;
use crate::near_races::add_near_race;
use crate::placed::PlacedList;
use rayon::prelude::*;
use std::alloc::{AllocError, Global};
use std::thread::Threads;
use wire_fates::KeyRead;
use wire_happens_before::MarkedPlan;
use wire_plan::Kind;
use wire_races::{is_open, least_processes};
use wire_types::{Event, Proc};

/// Adds the races of a get-now.
fn add_get_now(
    marked: &MarkedPlan<'_>,
    table: &GetTable,
    found: &mut PlacedList,
    asked: KeyRead,
) -> Result<(), AllocError>
    requires table { AreGetLists (plan_of marked.now) table.now }
    requires get { kind (plan_of marked.now) (event_of asked.get_now) ≡ Some (GetNow asked.owner.number asked.key) }
    ensures { OnOk result (AddsPlacementFindings (plan_of marked.now) found.old found.new (IsShownBy (plan_of marked.now) (event_of asked.get_now))) }
{
    if !is_open(marked, asked) {
        return Ok(());
    }
    add_near_race(marked, found, asked)?;
    add_far_races(marked, table, found, asked)
}

/// Adds the races of an event of the plan, where it is a get-now.
fn add_event(
    marked: &MarkedPlan<'_>,
    table: &GetTable,
    found: &mut PlacedList,
    event: Event,
) -> Result<(), AllocError>
    requires table { AreGetLists (plan_of marked.now) table.now }
    requires there { event.at < event_count (plan_of marked.now) event.proc.number }
    ensures { OnOk result (AddsPlacementFindings (plan_of marked.now) found.old found.new (IsShownBy (plan_of marked.now) (event_of event))) }
{
    match marked.plan().kind(event) {
        Kind::GetNow { owner, key } => {
            let asked = KeyRead {
                get_now: event,
                owner,
                key,
            };
            add_get_now(marked, table, found, asked)
        }
        _ => Ok(()),
    }
}

/// Adds the races of the get-nows of a process.
fn add_process(
    marked: &MarkedPlan<'_>,
    table: &GetTable,
    found: &mut PlacedList,
    proc: Proc,
) -> Result<(), AllocError>
    requires { AreGetLists (plan_of marked.now) table.now }
    ensures { OnOk result (AddsPlacementFindings (plan_of marked.now) found.old found.new
        (ToldIn (IsShownBy (plan_of marked.now)) proc.number (event_count (plan_of marked.now) proc.number))) }
{
    for at in 0..marked.plan().event_count(proc) {
        add_event(marked, table, found, Event { proc, at })?;
    }
    Ok(())
}

/// The races of the get-nows of a process: a piece of the search.
fn make_piece(
    alloc: Global,
    marked: &MarkedPlan<'_>,
    table: &GetTable,
    proc: Proc,
) -> Result<PlacedList, AllocError>
    requires { AreGetLists (plan_of marked.now) table.now }
    ensures { IfOk result (IsPiece (plan_of marked.now) (IsShownOf (plan_of marked.now) proc.number)) }
{
    let mut found = PlacedList::empty(alloc);
    add_process(marked, table, &mut found, proc)?;
    Ok(found)
}

/// A piece for each process, in their order, made by several threads.
fn make_pieces(
    rt: &(impl Threads + Sync),
    alloc: Global,
    marked: &MarkedPlan<'_>,
    table: &GetTable,
) -> Result<Vec<PlacedList>, AllocError>
    requires { AreGetLists (plan_of marked.now) table.now }
    ensures { IfOk result (λ pieces. ArePieces (plan_of marked.now) (process_count (plan_of marked.now)) (IsShownOf (plan_of marked.now)) pieces.items) }
{
    let plan = marked.plan();
    (0..plan.process_count())
        .into_par_iter()
        .with_min_len(least_processes(plan))
        .map(
            |number: u32| -> Result<PlacedList, AllocError>
                requires { AreGetLists (plan_of marked.now) table.now }
                ensures { IfOk result (IsPiece (plan_of marked.entry.now) (IsShownOf (plan_of marked.entry.now) number)) }
            { make_piece(alloc, marked, table, Proc { number }) },
        )
        .collect::<Result<Vec<_>, AllocError>>(rt, alloc)?
}

/// Adds the findings of all pieces. The one error is that memory ran out.
fn add_pieces(found: &mut PlacedList, pieces: Vec<PlacedList>) -> Result<(), AllocError>
    ensures { OnOk result ((plan : runs.Plan) → AddsPlacementFindings plan found.old found.new (IsInSome plan pieces.items)) }
{
    for piece in pieces {
        found.append(piece)?;
    }
    Ok(())
}

/// Adds all races on keys of all placements. The one error is that memory ran out.
pub(crate) fn add_key_races(
    rt: &(impl Threads + Sync),
    alloc: Global,
    marked: &MarkedPlan<'_>,
    found: &mut PlacedList,
) -> Result<(), AllocError>
    ensures { OnOk result (AddsPlacementFindings (plan_of marked.now) found.old found.new (IsShown (plan_of marked.now))) }
{
    let table = GetTable::of(alloc, marked.plan())?;
    let pieces = make_pieces(rt, alloc, marked, &table)?;
    add_pieces(found, pieces)
}
