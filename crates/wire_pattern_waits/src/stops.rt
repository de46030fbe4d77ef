//! Where the processes of an instance stand when its run can't go on.

ghost use Rattle.std.specs.Prelude.{◌≡◌, ◌<◌, ◌^◌, ◌++◌, ◌||◌, ℕ, OnOk, IfOk, IfErr, length, slice_get};
ghost use Rattle.std.specs.List.{list_any};
ghost use Rattle.wire_types.specs.declared.Fault.TheVariants.{Memory};
ghost use Rattle.wire_types.specs.Texts.{lists_of};
ghost use Rattle.wire_core.specs.EndsAfter.{plain_ends};
ghost use Rattle.wire_pattern.specs.Instances.{IsCast, cast_of};
ghost use Rattle.wire_pattern.specs.Planned.{steps_in};
ghost use Rattle.wire_instances.specs.Views.{cast_by};
ghost use Rattle.wire_pattern_waits.specs.LineSets.{has_line};
ghost use Rattle.wire_pattern_waits.specs.Noting.{AreNotedToo};
ghost use Rattle.wire_pattern_waits.specs.Places.{steps_places};
ghost use Rattle.wire_pattern_waits.specs.Stops as spec;

use crate::line_set::LineSet;
use crate::places::{Caller, places_of};
use std::alloc::{AllocError, Global};
use wire_core::plain_outcome;
use wire_instances::{Cast, roles_by};
use wire_pattern::Pattern;
use wire_plan::Plan;
use wire_scripts::Scripts;
use wire_types::{CallEnd, Fault, Outcome};

/// A call line at which a process stands: the number of its role, and its own in the role's script, from 1.
#[derive(Clone, Copy)]
pub(crate) struct Stop {
    pub(crate) role: u32,
    pub(crate) line: usize,
}

/// Whether a call is what its process stands at, and waits for something.
fn is_waiting(end: &CallEnd) -> bool
    ensures { result ≡ spec.ends_waiting end.now }
{
    match end {
        CallEnd::Waiting => true,
        CallEnd::Replied(_) | CallEnd::Ready | CallEnd::Unreached => false,
    }
}

/// Whether a process waits at one of these calls.
fn is_stopped(row: &[CallEnd]) -> bool
    ensures { result ≡ list_any spec.ends_waiting row.now }
{
    for end in row {
        if is_waiting(end) {
            return true;
        }
    }
    false
}

/// Adds the stops of a process of this role, by what became of its calls and by the numbers of their lines.
fn add_stops(
    out: &mut Vec<Stop>,
    role: u32,
    row: &[CallEnd],
    places: &[usize],
) -> Result<(), AllocError>
    ensures { OnOk result (out.new.items ≡ out.old.items ++ spec.process_stops role row.now places.now) }
{
    for (number, end) in row.iter().enumerate() {
        let Some(line) = places.get(number) else {
            return Ok(());
        };
        if is_waiting(end) {
            out.push(Stop { role, line: *line })?;
        }
    }
    Ok(())
}

/// Adds the stops of a process, by what became of its calls.
fn add_process(
    out: &mut Vec<Stop>,
    alloc: Global,
    caller: &Caller,
    row: &[CallEnd],
) -> Result<(), AllocError>
    requires { IsCast caller.now.pattern.now (cast_by caller.now.cast.now) }
    ensures { OnOk result (out.new.items ≡ out.old.items ++ spec.process_stops caller.now.role row.now
        (steps_places (cast_by caller.now.cast.now) caller.now.process 0 1
        (steps_in (slice_get caller.now.pattern.now.roles caller.now.role)))) }
{
    if !is_stopped(row) {
        return Ok(());
    }
    let places = places_of(alloc, caller)?;
    add_stops(out, caller.role, row, places.as_slice())
}

/// The role of each process.
pub fn process_roles(alloc: Global, pattern: &Pattern, cast: &Cast) -> Result<Vec<u32>, AllocError>
    requires { IsCast pattern.now (cast_by cast.now) }
    ensures roles { IfOk result (λ v. v.items ≡ (cast_of (cast_by cast.now)).roles) }
    ensures few { IfOk result (λ v. length v.items < 2 ^ 31) }
{
    // The roles are sound, so there are few of them.
    let _roles = pattern.roles();
    let roles = roles_by(alloc, cast.sizes.as_slice())?;
    Ok(roles)
}

/// The stops of all processes of an instance, by what became of their calls.
fn stops_by(
    alloc: Global,
    pattern: &Pattern,
    cast: &Cast,
    rows: &[Vec<CallEnd>],
) -> Result<Vec<Stop>, AllocError>
    requires { IsCast pattern.now (cast_by cast.now) }
    ensures { IfOk result (λ v. v.items
        ≡ spec.stops_from pattern.now (cast_by cast.now) 0 (cast_of (cast_by cast.now)).roles (lists_of rows.now)) }
{
    let roles = process_roles(alloc, pattern, cast)?;
    let mut stops = Vec::new(alloc);
    for (number, role) in roles.iter().enumerate() {
        let Some(row) = rows.get(number) else {
            return Ok(stops);
        };
        let caller = Caller {
            pattern,
            cast,
            process: number as u32,
            role: *role,
        };
        add_process(&mut stops, alloc, &caller, row.as_slice())?;
    }
    Ok(stops)
}

/// What became of every call in the plain run of scripts.
pub fn ends_of_run(alloc: Global, scripts: Scripts) -> Result<Outcome, Fault>
    ensures ok { IfOk result (λ outcome. lists_of outcome.rows.items ≡ (plain_ends scripts).rows) }
    ensures err { IfErr result (λ e. e ≡ Memory) }
{
    let plan = Plan::build(alloc, scripts)?;
    let outcome = plain_outcome(alloc, &plan);
    drop(plan);
    outcome
}

/// Notes the lines of stops.
fn note_stops(noted: &mut LineSet, alloc: Global, stops: &[Stop]) -> Result<(), AllocError>
    ensures { OnOk result ((role line : ℕ) → has_line noted.new role line
        ≡ has_line noted.old role line || spec.is_noted stops.now role line) }
{
    for stop in stops {
        noted.insert(alloc, stop.role, stop.line)?;
    }
    Ok(())
}

/// Notes the call lines at which the processes of an instance wait, by what became of their calls where the plain run of
/// its scripts can't go on: these, and no others.
pub fn note_waits(
    noted: &mut LineSet,
    alloc: Global,
    pattern: &Pattern,
    cast: &Cast,
    rows: &[Vec<CallEnd>],
) -> Result<(), AllocError>
    requires { IsCast pattern.now (cast_by cast.now) }
    ensures { OnOk result (AreNotedToo pattern.now (cast_by cast.now) (lists_of rows.now) noted.old noted.new) }
{
    let stops = stops_by(alloc, pattern, cast, rows)?;
    note_stops(noted, alloc, stops.as_slice())
}
