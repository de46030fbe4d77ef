//! With which statuses the get-nows of an instance are answered, on a few placings.

ghost use Rattle.std.specs.Prelude.{◌≡◌, ◌<◌, ◌^◌, ◌++◌, [], ◌∷◌, OnOk, IfOk, IfErr, length, slice_get};
ghost use Rattle.wire_types.specs.declared.Fault.TheVariants.{Memory};
ghost use Rattle.wire_types.specs.Texts.{lists_of};
ghost use Rattle.wire_scripts.specs.Scripts.{calls_in, numbers_of};
ghost use Rattle.wire_core.specs.EndsAfter.{plain_ends};
ghost use Rattle.wire_pattern.specs.Instances.{IsCast, cast_of};
ghost use Rattle.wire_pattern.specs.Planned.{steps_in};
ghost use Rattle.wire_instances.specs.Views.{cast_by};
ghost use Rattle.wire_cutoff.specs.Judged.{IsFewCast, IsJudgeFault};
ghost use Rattle.wire_pattern_waits.specs.Places.{steps_places};
ghost use Rattle.wire_cutoff.specs.Selections.{Selection as SelectionSpec};
ghost use Rattle.wire_cutoff_laws.specs.Promised.{IsSettledForAll};
ghost use Rattle.wire_pattern_waits.specs.Waits.{alone};
ghost use Rattle.wire_pattern_answers.specs.Answers.{AnswersIn, IsAnsweredAtLine};
ghost use Rattle.wire_pattern_answers.specs.Notes as spec;
ghost use Rattle.wire_pattern_answers.specs.Notes.{NotesAre, IsAnsweredThere, IsAnsweredApart, IsAnsweredByOne, AreToldToo};
ghost use Rattle.wire_pattern_answers.specs.Notes.{AreToldTogether, AreToldByFew};

use crate::laws::few_placings_tell;
use crate::notes::{Note, add_notes};
use crate::told::StatusesByLine;
use std::alloc::{AllocError, Global};
use wire_core::plain_outcome;
use wire_cutoff::instance_scripts;
use wire_instance_laws::laws::instances_read;
use wire_instances::Cast;
use wire_pattern::Pattern;
use wire_pattern_waits::{Caller, places_of, process_roles};
use wire_plan::Plan;
use wire_reader::reads_once;
use wire_scripts::Scripts;
use wire_types::{CallEnd, Fault, Proc};

/// Adds the notes of a process of these scripts, by what became of its calls.
fn add_process(
    out: &mut Vec<Note>,
    alloc: Global,
    caller: &Caller,
    scripts: &Scripts,
    row: &[CallEnd],
) -> Result<(), AllocError>
    requires { IsCast caller.now.pattern.now (cast_by caller.now.cast.now) }
    ensures { OnOk result (out.new.items ≡ out.old.items ++ spec.process_notes caller.now.role row.now
        (calls_in (slice_get scripts.now.processes caller.now.process))
        (steps_places (cast_by caller.now.cast.now) caller.now.process 0 1
        (steps_in (slice_get caller.now.pattern.now.roles caller.now.role)))) }
{
    let Some(script) = scripts.processes().get(caller.process as usize) else {
        return Ok(());
    };
    let places = places_of(alloc, caller)?;
    add_notes(out, caller.role, row, script.calls(), places.as_slice())
}

/// The notes of all processes of scripts, by what became of their calls.
fn notes_by(
    alloc: Global,
    pattern: &Pattern,
    cast: &Cast,
    scripts: &Scripts,
    rows: &[Vec<CallEnd>],
) -> Result<Vec<Note>, AllocError>
    requires { IsCast pattern.now (cast_by cast.now) }
    ensures { IfOk result (λ v. v.items
        ≡ spec.notes_from pattern.now (cast_by cast.now) scripts.now 0 (cast_of (cast_by cast.now)).roles (lists_of rows.now)) }
{
    let roles = process_roles(alloc, pattern, cast)?;
    let mut notes = Vec::new(alloc);
    for (number, role) in roles.iter().enumerate() {
        let Some(row) = rows.get(number) else {
            return Ok(notes);
        };
        let caller = Caller {
            pattern,
            cast,
            process: number as u32,
            role: *role,
        };
        add_process(&mut notes, alloc, &caller, scripts, row.as_slice())?;
    }
    Ok(notes)
}

/// The notes of scripts by what becomes of their calls in their plain run: these, and no others.
pub fn notes_after(
    alloc: Global,
    pattern: &Pattern,
    cast: &Cast,
    scripts: &Scripts,
    rows: &[Vec<CallEnd>],
) -> Result<Vec<Note>, AllocError>
    requires { IsCast pattern.now (cast_by cast.now) }
    ensures { IfOk result (λ v. lists_of rows.now ≡ (plain_ends scripts.now).rows
        → NotesAre v.items (IsAnsweredAtLine pattern.now (cast_by cast.now) scripts.now)) }
{
    let notes = notes_by(alloc, pattern, cast, scripts, rows)?;
    Ok(notes)
}

/// The notes of a plan: these, and no others.
fn notes_on(alloc: Global, pattern: &Pattern, cast: &Cast, plan: &Plan) -> Result<Vec<Note>, Fault>
    requires { IsCast pattern.now (cast_by cast.now) }
    ensures ok { IfOk result (λ v. NotesAre v.items (IsAnsweredAtLine pattern.now (cast_by cast.now) plan.now)) }
    ensures err { IfErr result (λ e. e ≡ Memory) }
{
    let outcome = plain_outcome(alloc, plan)?;
    let notes = notes_after(
        alloc,
        pattern,
        cast,
        plan.scripts(),
        outcome.rows.as_slice(),
    )?;
    Ok(notes)
}

/// The notes of scripts: these, and no others.
fn notes_of(
    alloc: Global,
    pattern: &Pattern,
    cast: &Cast,
    scripts: Scripts,
) -> Result<Vec<Note>, Fault>
    requires { IsCast pattern.now (cast_by cast.now) }
    ensures ok { IfOk result (λ v. NotesAre v.items (IsAnsweredAtLine pattern.now (cast_by cast.now) scripts)) }
    ensures err { IfErr result (λ e. e ≡ Memory) }
{
    let plan = Plan::build(alloc, scripts)?;
    let notes = notes_on(alloc, pattern, cast, &plan);
    drop(plan);
    notes
}

/// The notes of an instance with these ranks on a node of their own, and all others on another.
fn placed_notes(
    alloc: Global,
    pattern: &Pattern,
    cast: &Cast,
    ranks: &[Proc],
) -> Result<Vec<Note>, Fault>
    requires { IsFewCast pattern.now (cast_by cast.now) }
    ensures ok { IfOk result (λ v. NotesAre v.items (IsAnsweredApart pattern.now (cast_by cast.now) (numbers_of ranks.now))) }
    ensures err { IfErr result (λ e. IsJudgeFault pattern.now e) }
{
    reads_once();
    let (text, scripts) = instance_scripts(alloc, pattern, cast)?;
    drop(text);
    let placed = scripts.place(alloc, ranks)?;
    let notes = notes_of(alloc, pattern, cast, placed)?;
    Ok(notes)
}

/// A list of one rank.
fn one_rank(alloc: Global, rank: u32) -> Result<Vec<Proc>, AllocError>
    ensures { IfOk result (λ v. numbers_of v.items ≡ rank ∷ []) }
{
    let mut ranks = Vec::new(alloc);
    ranks.push(Proc { number: rank })?;
    Ok(ranks)
}

/// The notes of an instance with one rank on a node of its own, and all others on another.
fn notes_apart(alloc: Global, pattern: &Pattern, cast: &Cast, rank: u32) -> Result<Vec<Note>, Fault>
    requires { IsFewCast pattern.now (cast_by cast.now) }
    ensures ok { IfOk result (λ v. NotesAre v.items (IsAnsweredApart pattern.now (cast_by cast.now) (rank ∷ []))) }
    ensures err { IfErr result (λ e. IsJudgeFault pattern.now e) }
{
    let ranks = one_rank(alloc, rank)?;
    placed_notes(alloc, pattern, cast, ranks.as_slice())
}

/// The notes of an instance with all ranks on one node.
fn notes_together(alloc: Global, pattern: &Pattern, cast: &Cast) -> Result<Vec<Note>, Fault>
    requires { IsFewCast pattern.now (cast_by cast.now) }
    ensures ok { IfOk result (λ v. NotesAre v.items (IsAnsweredApart pattern.now (cast_by cast.now) [])) }
    ensures err { IfErr result (λ e. IsJudgeFault pattern.now e) }
{
    let ranks = Vec::new(alloc);
    placed_notes(alloc, pattern, cast, ranks.as_slice())
}

/// How many processes an instance has.
fn process_count(alloc: Global, pattern: &Pattern, cast: &Cast) -> Result<u32, AllocError>
    requires { IsCast pattern.now (cast_by cast.now) }
    ensures { IfOk result (λ n. n ≡ length (cast_of (cast_by cast.now)).roles) }
{
    let roles = process_roles(alloc, pattern, cast)?;
    Ok(roles.len() as u32)
}

/// Tells the answers of an instance with each of its first ranks, so many, on a node of its own.
fn tell_each(
    told: &mut StatusesByLine,
    alloc: Global,
    pattern: &Pattern,
    cast: &Cast,
    count: u32,
) -> Result<(), Fault>
    requires { IsFewCast pattern.now (cast_by cast.now) }
    ensures ok { OnOk result (AreToldToo told.old told.new (IsAnsweredByOne pattern.now (cast_by cast.now) count)) }
    ensures err { IfErr result (λ e. IsJudgeFault pattern.now e) }
{
    for rank in 0..count {
        let notes = notes_apart(alloc, pattern, cast, rank)?;
        told.add_all(alloc, notes.as_slice())?;
    }
    Ok(())
}

/// Tells the answers of an instance with each of its ranks on a node of its own.
fn tell_apart(
    told: &mut StatusesByLine,
    alloc: Global,
    pattern: &Pattern,
    cast: &Cast,
) -> Result<(), Fault>
    requires { IsFewCast pattern.now (cast_by cast.now) }
    ensures ok { OnOk result (AreToldToo told.old told.new
        (IsAnsweredByOne pattern.now (cast_by cast.now) (length (cast_of (cast_by cast.now)).roles))) }
    ensures err { IfErr result (λ e. IsJudgeFault pattern.now e) }
{
    let count = process_count(alloc, pattern, cast)?;
    tell_each(told, alloc, pattern, cast, count)
}

/// Tells the answers of an instance with all ranks on one node. Where that leaves it open whether a key is found
/// outside its scope, also those with each rank on a node of its own.
fn tell_together(
    told: &mut StatusesByLine,
    alloc: Global,
    pattern: &Pattern,
    cast: &Cast,
) -> Result<(), Fault>
    requires { IsFewCast pattern.now (cast_by cast.now) }
    ensures ok { OnOk result (AreToldTogether pattern.now (cast_by cast.now) told.old told.new) }
    ensures err { IfErr result (λ e. IsJudgeFault pattern.now e) }
{
    let notes = notes_together(alloc, pattern, cast)?;
    told.add_all(alloc, notes.as_slice())?;
    if !told.is_open(notes.as_slice()) {
        return Ok(());
    }
    tell_apart(told, alloc, pattern, cast)?;
    Ok(())
}

/// Tells the answers of an instance by the notes of it with its processes on the nodes of the cast, and with all on one
/// node.
fn tell_instance(
    told: &mut StatusesByLine,
    alloc: Global,
    pattern: &Pattern,
    cast: &Cast,
    notes: &[Note],
) -> Result<(), Fault>
    requires { IsFewCast pattern.now (cast_by cast.now) }
    ensures ok { OnOk result (NotesAre notes.now (IsAnsweredThere pattern.now (cast_by cast.now))
        → AreToldByFew pattern.now (cast_by cast.now) told.old told.new) }
    ensures err { IfErr result (λ e. IsJudgeFault pattern.now e) }
{
    told.add_all(alloc, notes)?;
    tell_together(told, alloc, pattern, cast)?;
    Ok(())
}

/// Tells the answers of an instance on all nodes, these and no others, by the notes of it with each process on a node of
/// its own. Nothing is found in the pattern. After an error `told` may have some of them.
pub fn tell_answers(
    told: &mut StatusesByLine,
    alloc: Global,
    pattern: &Pattern,
    cast: &Cast,
    notes: &[Note],
) -> Result<(), Fault>
    requires { IsFewCast pattern.now (cast_by cast.now) }
    ensures ok { OnOk result ((selection : SelectionSpec) → cast_by cast.now ≡ alone pattern.now selection → IsSettledForAll pattern.now
        → NotesAre notes.now (IsAnsweredThere pattern.now (cast_by cast.now)) → AreToldToo told.old told.new (AnswersIn pattern.now selection)) }
    ensures err { IfErr result (λ e. IsJudgeFault pattern.now e) }
{
    // The pattern is sound.
    let _roles = pattern.roles();
    instances_read();
    few_placings_tell();
    tell_instance(told, alloc, pattern, cast, notes)?;
    Ok(())
}
