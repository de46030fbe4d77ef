//! All instances that are judged, one after the other.

ghost use Rattle.std.specs.Prelude.{◌≡◌, ◌<◌, ◌^◌, Ok, None, OnOk, IfOk, IfErr, IfSome, map};
ghost use Rattle.wire_instances.specs.Nodes.{HaveOwnNodes};
ghost use Rattle.wire_instances.specs.Views.{turn_by, choice_by, cast_by};
ghost use Rattle.wire_cutoff.specs.Judged.{IsFewCast, IsJudgeFault, IsSweepFault, IsWithinPatternLimits};
ghost use Rattle.wire_cutoff.specs.Selections.{selections, most_sizes, IsCastFor, IsSelectionSettled};
ghost use Rattle.wire_cutoff.specs.Views.{selection_by, IsFoundAt, IsFoundFor};
ghost use Rattle.wire_cutoff_laws.specs.Sizes as counted;
ghost use Rattle.wire_cutoff_laws.specs.Sizes.{AreFewSizes};
ghost use Rattle.wire_cutoff_laws.specs.Choices.{chosen_by};
ghost use Rattle.wire_cutoff_laws.specs.Promised.{AreFewSettled, IsSettledForAll, HasOneEndForAll};

use crate::choices::optional_turns;
use crate::counterexample::{Counterexample, find_counterexample};
use crate::judge::judge_instance;
use crate::limits::judge_limits;
use crate::selections::{Selection, all_selections, note_sound, total_of};
use std::alloc::{AllocError, Global};
use std::thread::Threads;
use wire_cutoff_laws::laws::cutoff_suffices;
use wire_instances::{Cast, Choice, Turn, all_alone, roles_by};
use wire_pattern::Pattern;
use wire_types::Fault;

/// Whether a turn is taken.
fn choice_of(turn: Turn, taken: bool) -> Choice
    ensures { choice_by result ≡ (turn_by turn, taken) }
{
    Choice { turn, taken }
}

/// Which of these turns are taken.
fn choices_of(alloc: Global, turns: &[Turn], bits: &[bool]) -> Result<Vec<Choice>, AllocError>
    ensures { IfOk result (λ v. map choice_by v.items ≡ chosen_by (map turn_by turns.now) bits.now) }
{
    let mut chosen = Vec::with_capacity(alloc, turns.len())?;
    for (number, turn) in turns.iter().enumerate() {
        match bits.get(number) {
            Some(taken) => chosen.push(choice_of(*turn, *taken))?,
            None => return Ok(chosen),
        }
    }
    Ok(chosen)
}

/// The instance of a selection, each process on a node of its own.
pub fn cast_for(alloc: Global, pattern: &Pattern, selection: &Selection) -> Result<Cast, AllocError>
    requires sizes { AreFewSizes pattern.now.roles selection.now.sizes.items }
    requires few { counted.total_of selection.now.sizes.items < 2 ^ 31 }
    ensures few { IfOk result (λ c. IsFewCast pattern.now (cast_by c)) }
    ensures of { IfOk result (λ c. IsCastFor pattern.now (selection_by selection.now) (cast_by c)) }
    ensures alone { IfOk result (λ c. HaveOwnNodes (counted.total_of selection.now.sizes.items) c.nodes) }
{
    note_sound(pattern);
    let sizes = selection.sizes.as_slice();
    let roles = roles_by(alloc, sizes)?;
    let turns = optional_turns(alloc, pattern, roles.as_slice())?;
    let chosen = choices_of(alloc, turns.as_slice(), selection.taken.as_slice())?;
    let nodes = all_alone(alloc, total_of(sizes))?;
    let sizes = Vec::from_slice(alloc, sizes)?;
    Ok(Cast {
        sizes,
        chosen,
        nodes,
    })
}

/// Judges the instance of a selection.
fn judge_selection(
    rt: &(impl Threads + Sync),
    alloc: Global,
    pattern: &Pattern,
    selection: &Selection,
) -> Result<Option<Counterexample>, Fault>
    requires sizes { AreFewSizes pattern.now.roles selection.now.sizes.items }
    requires few { counted.total_of selection.now.sizes.items < 2 ^ 31 }
    ensures settled { result ≡ Ok None → IsSelectionSettled pattern.now (selection_by selection.now) }
    ensures found { IfOk result (λ r. IfSome r (λ c. IsFoundAt pattern.now (selection_by selection.now) c)) }
    ensures err { IfErr result (λ e. IsJudgeFault pattern.now e) }
{
    let cast = cast_for(alloc, pattern, selection)?;
    if judge_instance(rt, alloc, pattern, &cast)? {
        return Ok(None);
    }
    find_counterexample(rt, alloc, pattern, &cast)
}

/// Judges these instances, one after the other, until something is found.
fn judge_all(
    rt: &(impl Threads + Sync),
    alloc: Global,
    pattern: &Pattern,
    all: &[Selection],
) -> Result<Option<Counterexample>, Fault>
    requires all { map selection_by all.now ≡ selections pattern.now }
    requires few { counted.total_of (most_sizes pattern.now.roles) < 2 ^ 31 }
    ensures settled { result ≡ Ok None → AreFewSettled pattern.now }
    ensures found { IfOk result (λ r. IfSome r (λ c. IsFoundFor pattern.now c)) }
    ensures err { IfErr result (λ e. IsJudgeFault pattern.now e) }
{
    for selection in all {
        match judge_selection(rt, alloc, pattern, selection)? {
            Some(found) => return Ok(Some(found)),
            None => {}
        }
    }
    Ok(None)
}

/// Judges a pattern for every number of processes of its roles, on all nodes: nothing is found in any instance, or
/// there is a counterexample, an instance with its findings. Of the instances with at most three processes of each
/// role, or with the least that the role has, it is the first in which something is found: one with the fewest
/// processes. The limits of a pattern are those of the largest of these instances.
pub fn judge_pattern(
    rt: &(impl Threads + Sync),
    alloc: Global,
    pattern: &Pattern,
) -> Result<Option<Counterexample>, Fault>
    ensures within { OnOk result (IsWithinPatternLimits pattern.now) }
    ensures few { result ≡ Ok None → AreFewSettled pattern.now }
    ensures settled { result ≡ Ok None → IsSettledForAll pattern.now }
    ensures one_end { result ≡ Ok None → HasOneEndForAll pattern.now }
    ensures found { IfOk result (λ r. IfSome r (λ c. IsFoundFor pattern.now c)) }
    ensures err { IfErr result (λ e. IsSweepFault pattern.now e) }
{
    judge_limits(alloc, pattern)?;
    note_sound(pattern);
    cutoff_suffices();
    let all = all_selections(alloc, pattern)?;
    judge_all(rt, alloc, pattern, all.as_slice())
}
