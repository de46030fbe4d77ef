//! Whether a race of two calls is among findings.

ghost use Rattle.std.specs.Prelude.{◌≡◌, ◌↔◌, IsTrue};
ghost use Rattle.wire_races.specs.Reported as spec;
ghost use Rattle.wire_races.specs.Reported.{IsOfCalls, IsReported};

use wire_findings::{Finding, FindingList};
use wire_types::CallAt;

/// The calls of a race, the lower first; nothing of a rewrite.
pub fn race_calls(finding: Finding) -> Option<(CallAt, CallAt)>
    ensures { result ≡ spec.race_calls finding }
{
    match finding {
        Finding::Rewrite(_, _) => None,
        Finding::KeyRace(lower, higher, _, _) => Some((lower, higher)),
        Finding::NameRace(lower, higher, _) => Some((lower, higher)),
    }
}

/// Whether a finding is a race of these calls, in either order.
fn is_of_calls(finding: Finding, x: CallAt, y: CallAt) -> bool
    ensures { IsTrue result ↔ IsOfCalls finding x y }
{
    let calls = race_calls(finding);
    calls == Some((x, y)) || calls == Some((y, x))
}

/// Whether a race of these calls is among the findings.
pub(crate) fn is_reported(list: &FindingList, x: CallAt, y: CallAt) -> bool
    ensures { IsTrue result ↔ IsReported list.now x y }
{
    for number in 0..list.len() {
        let Some(finding) = list.get(number) else {
            unreachable!();
        };
        if is_of_calls(finding, x, y) {
            return true;
        }
    }
    false
}
