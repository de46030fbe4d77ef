//! The races among the findings of a plan.

ghost use Rattle.std.specs.Prelude.{◌≡◌, take, length, IfOk};
ghost use Rattle.wire_witness.specs.Races as spec;

use std::alloc::{AllocError, Global};
use wire_findings::{Finding, FindingList};
use wire_races::race_calls;

/// Whether a finding is a race.
fn is_race(finding: Finding) -> bool
    ensures { result ≡ spec.is_race finding }
{
    race_calls(finding).is_some()
}

/// How many races there are among the findings.
pub(crate) fn count_races(list: &FindingList) -> usize
    ensures { result ≡ length (spec.races_of list.now) }
{
    let mut count = 0;
    for number in 0..list.len() {
        let Some(finding) = list.get(number) else {
            unreachable!();
        };
        if is_race(finding) {
            count += 1;
        }
    }
    count
}

/// The first races among the findings, so many at most.
pub(crate) fn take_races(
    alloc: Global,
    list: &FindingList,
    most: usize,
) -> Result<Vec<Finding>, AllocError>
    ensures { IfOk result (λ races. races.items ≡ take most (spec.races_of list.now)) }
{
    let mut races = Vec::new(alloc);
    for number in 0..list.len() {
        let Some(finding) = list.get(number) else {
            unreachable!();
        };
        if is_race(finding) && races.len() < most {
            races.push(finding)?;
        }
    }
    Ok(races)
}
