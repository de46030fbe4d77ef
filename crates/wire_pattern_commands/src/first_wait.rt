//! The first instance of a pattern in which a rank waits for ever, or a larger one.

ghost use Rattle.std.specs.Prelude.{◌≡◌, ◌≢◌, ◌<◌, ◌^◌, ◌==◌, [], not, map, IfOk, IfErr, MatchOption};
ghost use Rattle.wire_types.specs.declared.Fault.TheVariants.{Memory};
ghost use Rattle.wire_core.specs.EndsAfter.{plain_ends};
ghost use Rattle.wire_cutoff.specs.Judged.{IsJudgeFault};
ghost use Rattle.wire_cutoff.specs.Selections.{selections, most_sizes};
ghost use Rattle.wire_cutoff.specs.Views.{selection_by};
ghost use Rattle.wire_cutoff_laws.specs.Sizes.{AreFewSizes, total_of};
ghost use Rattle.wire_pattern_commands.specs.FirstWait.{IsFirstWaitOf, IsLaterRead, IsLaterWaitOf, IsExplainedWaitOf, IsWaitOf};
ghost use Rattle.wire_pattern_later.specs.Later.{IsInstanceWith, IsUnreadWith};

use crate::beyond::Beyond;
use crate::left_out::{LeftOut, left_out};
use std::alloc::Global;
use wire_core::plain_outcome;
use wire_cutoff::{Selection, all_selections, cast_for, instance_scripts};
use wire_pattern::Pattern;
use wire_pattern_later::{Instance, instance_with};
use wire_plan::Plan;
use wire_reader::reads_once;
use wire_scripts::Scripts;
use wire_types::Fault;

/// An instance in which a rank waits for ever: how many processes each role has, which turns it leaves out, the text of
/// its plan, and what that reads as.
pub(crate) struct FirstWait {
    pub(crate) sizes: Vec<u32>,
    pub(crate) left: Vec<LeftOut>,
    pub(crate) text: Vec<u8>,
    pub(crate) plan: Plan,
}

// By hand and not derived: so dropping one is a call, and the proof of a function that drops one doesn't take it apart.
impl Drop for FirstWait {
    fn drop(self) {
        let FirstWait {
            sizes: _,
            left: _,
            text: _,
            plan: _,
        } = self;
    }
}

/// Whether a rank waits where the plain run of a plan can't go on.
fn has_waits(alloc: Global, plan: &Plan) -> Result<bool, Fault>
    ensures ok { IfOk result (λ waits. waits ≡ not ((plain_ends plan.now).waiting == 0)) }
    ensures err { IfErr result (λ e. e ≡ Memory) }
{
    let outcome = plain_outcome(alloc, plan)?;
    Ok(outcome.waiting != 0)
}

/// An instance of these sizes, without these turns, and with this text, that reads as these scripts, where a rank waits
/// in it.
fn wait_in(
    alloc: Global,
    sizes: Vec<u32>,
    left: Vec<LeftOut>,
    text: Vec<u8>,
    scripts: Scripts,
) -> Result<Option<FirstWait>, Fault>
    ensures ok { IfOk result (λ found. MatchOption found ((plain_ends scripts).waiting ≡ 0)
        (λ it. (it.sizes ≡ sizes) × (it.left ≡ left) × (it.text ≡ text) × (it.plan ≡ scripts) × ((plain_ends scripts).waiting ≢ 0))) }
    ensures err { IfErr result (λ e. e ≡ Memory) }
{
    let plan = Plan::build(alloc, scripts)?;
    match has_waits(alloc, &plan) {
        Ok(waits) => {
            if !waits {
                drop(plan);
                return Ok(None);
            }
            Ok(Some(FirstWait {
                sizes,
                left,
                text,
                plan,
            }))
        }
        Err(fault) => {
            drop(plan);
            Err(fault)
        }
    }
}

/// The instance of a selection, where a rank waits in it.
fn wait_of(
    alloc: Global,
    pattern: &Pattern,
    selection: &Selection,
) -> Result<Option<FirstWait>, Fault>
    requires sizes { AreFewSizes pattern.now.roles selection.now.sizes.items }
    requires few { total_of selection.now.sizes.items < 2 ^ 31 }
    ensures ok { IfOk result (IsWaitOf pattern.now (selection_by selection.now)) }
    ensures err { IfErr result (λ e. IsJudgeFault pattern.now e) }
{
    let sizes = Vec::from_slice(alloc, selection.sizes.as_slice())?;
    let cast = cast_for(alloc, pattern, selection)?;
    let left = left_out(alloc, pattern, &cast)?;
    let (text, scripts) = instance_scripts(alloc, pattern, &cast)?;
    let found = wait_in(alloc, sizes, left, text, scripts)?;
    Ok(found)
}

/// The first of these instances in which a rank waits, if there is one.
fn wait_among(
    alloc: Global,
    pattern: &Pattern,
    all: &[Selection],
) -> Result<Option<FirstWait>, Fault>
    requires all { map selection_by all.now ≡ selections pattern.now }
    requires few { total_of (most_sizes pattern.now.roles) < 2 ^ 31 }
    ensures ok { IfOk result (IsFirstWaitOf pattern.now) }
    ensures err { IfErr result (λ e. IsJudgeFault pattern.now e) }
{
    for selection in all {
        match wait_of(alloc, pattern, selection)? {
            Some(found) => return Ok(Some(found)),
            None => {}
        }
    }
    Ok(None)
}

/// The first instance that is judged in which a rank waits for ever, if there is one: one with the fewest processes.
fn find_first_wait(alloc: Global, pattern: &Pattern) -> Result<Option<FirstWait>, Fault>
    requires { total_of (most_sizes pattern.now.roles) < 2 ^ 31 }
    ensures ok { IfOk result (IsFirstWaitOf pattern.now) }
    ensures err { IfErr result (λ e. IsJudgeFault pattern.now e) }
{
    let all = all_selections(alloc, pattern)?;
    wait_among(alloc, pattern, all.as_slice())
}

/// An instance, with its plan.
fn planned(alloc: Global, instance: Instance) -> Result<FirstWait, Fault>
    ensures ok { IfOk result (λ it. (it.sizes ≡ instance.sizes) × (it.left.items ≡ []) × (it.text ≡ instance.text) × (it.plan ≡ instance.scripts)) }
    ensures err { IfErr result (λ e. e ≡ Memory) }
{
    let Instance {
        sizes,
        text,
        scripts,
    } = instance;
    let plan = Plan::build(alloc, scripts)?;
    Ok(FirstWait {
        sizes,
        left: Vec::new(alloc),
        text,
        plan,
    })
}

/// The instance with so many ranks of each group; none where that is past the limits of a plan.
fn later_with(alloc: Global, pattern: &Pattern, ranks: u32) -> Result<Option<FirstWait>, Fault>
    ensures ok { IfOk result (λ found. MatchOption found (IsUnreadWith pattern.now ranks)
        (λ it. IsInstanceWith pattern.now ranks it.sizes.items it.text.items it.plan × (it.left.items ≡ []))) }
    ensures err { IfErr result (λ e. e ≡ Memory) }
{
    match instance_with(alloc, pattern, ranks)? {
        Some(instance) => {
            let found = planned(alloc, instance)?;
            Ok(Some(found))
        }
        None => Ok(None),
    }
}

/// The instance with the number of ranks of each group with which something waits first, if that is known.
fn find_later_wait(
    alloc: Global,
    pattern: &Pattern,
    beyond: &Beyond,
) -> Result<Option<FirstWait>, Fault>
    requires { IsLaterRead pattern.now beyond.now }
    ensures ok { IfOk result (IsLaterWaitOf pattern.now beyond.now) }
    ensures err { IfErr result (λ e. e ≡ Memory) }
{
    reads_once();
    match beyond {
        Beyond::First(later) => later_with(alloc, pattern, later.ranks),
        Beyond::Unsaid | Beyond::Never | Beyond::Unknown => Ok(None),
    }
}

/// The instance in which ranks wait that is shown: the first that is judged in which one does; or, where none does in
/// these, that with the number of ranks of each group with which one does first, if that is known.
pub(crate) fn find_shown(
    alloc: Global,
    pattern: &Pattern,
    beyond: &Beyond,
) -> Result<Option<FirstWait>, Fault>
    requires few { total_of (most_sizes pattern.now.roles) < 2 ^ 31 }
    requires later { IsLaterRead pattern.now beyond.now }
    ensures ok { IfOk result (IsExplainedWaitOf pattern.now beyond.now) }
    ensures err { IfErr result (λ e. IsJudgeFault pattern.now e) }
{
    match find_first_wait(alloc, pattern)? {
        Some(found) => Ok(Some(found)),
        None => {
            let found = find_later_wait(alloc, pattern, beyond)?;
            Ok(found)
        }
    }
}
