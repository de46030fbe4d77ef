//! Keys that are put again.

ghost use Rattle.std.specs.Prelude.{◌≡◌, false, Some};
ghost use Rattle.wire_types.specs.declared.Scope.{Scope};
ghost use Rattle.wire_runs.specs.Plan.{Put, event_of, kind};
ghost use Rattle.wire_scripts.specs.Planned.{plan_of};
ghost use Rattle.wire_portable.specs.Judging.{IsNoRewrite};

use wire_plan::Plan;
use wire_types::Event;

/// Whether the process of a put has put its key before.
pub(crate) fn is_put_again(plan: &Plan, put: Event, key: u32) -> bool
    requires { (scope : Scope) × (kind (plan_of plan.now) (event_of put) ≡ Some (Put key scope)) }
    ensures { result ≡ false → IsNoRewrite (plan_of plan.now) (event_of put) }
{
    match plan.first_put(put.proc, key) {
        Some(first) => first.at < put.at,
        None => false,
    }
}
