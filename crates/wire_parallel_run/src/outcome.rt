//! The outcome of a settled plan.

ghost use Rattle.std.specs.Prelude.{◌≡◌, ◌≢◌, ◌↔◌, None, IfOk, IfSome, IsOkUnless};
ghost use Rattle.wire_types.specs.declared.Fault.TheVariants.{Memory};
ghost use Rattle.wire_types.specs.Outcome.{ends_of};
ghost use Rattle.wire_scripts.specs.Planned.{plan_of};
ghost use Rattle.wire_board.specs.Cuts.{IsReachedCut};
ghost use Rattle.wire_board.specs.Lanes.{AreTrails};
ghost use Rattle.wire_core.specs.EndsAfter.{plain_ends};
ghost use Rattle.wire_parallel_run.specs.Trails.{AreAtRest};

use crate::rest::all_at_rest;
use crate::rows::outcome_of_trails;
use std::alloc::Global;
use wire_fates::{Fate, Settled};
use wire_types::{Fault, Outcome};

/// What became of every call of a settled plan, told by the trails of its lanes and the words of its board:
/// what the plain run gives, in which at each step the lowest ready process takes it. `None` where a trail
/// isn't as long as its process's word, or where a process can still take an event. The caller ensures that
/// the trails have fates of this plan, and that the words are the cut of a state that a run can come to. The
/// one fault is `Fault::Memory`.
pub fn outcome_of(
    alloc: Global,
    settled: &Settled,
    trails: &[Vec<Fate>],
    words: &[u64],
) -> Result<Option<Outcome>, Fault>
    requires trails { AreTrails (plan_of settled.now) trails.now }
    requires words { IsReachedCut (plan_of settled.now) words.now }
    ensures some { IfOk result (λ o. (o ≢ None) ↔ AreAtRest settled.now words.now trails.now) }
    ensures ok { IfOk result (λ o. IfSome o (λ outcome. ends_of outcome ≡ plain_ends settled.now)) }
    ensures memory { IsOkUnless result Memory }
{
    if !all_at_rest(settled, trails, words) {
        return Ok(None);
    }
    let outcome = outcome_of_trails(alloc, settled.plan(), trails)?;
    Ok(Some(outcome))
}
