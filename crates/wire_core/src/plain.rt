//! The plain run of a plan.

ghost use Rattle.std.specs.Prelude.{◌≡◌, IfOk, IsOkUnless};
ghost use Rattle.wire_types.specs.declared.Fault.TheVariants.{Memory};
ghost use Rattle.wire_types.specs.Outcome.{ends_of};
ghost use Rattle.wire_core.specs.EndsAfter.{plain_ends};

use crate::running::Core;
use std::alloc::Global;
use wire_plan::Plan;
use wire_types::{Fault, Outcome};

/// What became of every call in the plain run of a plan, in which at each step the lowest ready process takes it. The
/// one fault is `Fault::Memory`.
pub fn plain_outcome(alloc: Global, plan: &Plan) -> Result<Outcome, Fault>
    ensures ok { IfOk result (λ outcome. ends_of outcome ≡ plain_ends plan.now) }
    ensures memory { IsOkUnless result Memory }
{
    let mut core = Core::new(alloc, plan)?;
    core.run_lowest();
    let outcome = core.outcome(alloc);
    drop(core);
    outcome
}
