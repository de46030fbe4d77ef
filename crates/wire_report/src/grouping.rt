//! The groups of findings.

ghost use Rattle.std.specs.Prelude.{◌≡◌, map, IfOk};
ghost use Rattle.wire_report.specs.Label.{label_of as the_label};
ghost use Rattle.wire_report.specs.Grouped.{AreGroupsOf};

use crate::label::{Label, label_of};
use crate::tally::{Group, groups_of};
use std::alloc::{AllocError, Global};
use wire_findings::FindingList;
use wire_scripts::Scripts;

/// The labels of findings, in their order.
fn labels_of(
    alloc: Global,
    scripts: &Scripts,
    findings: &FindingList,
) -> Result<Vec<Label>, AllocError>
    ensures { IfOk result (λ labels. labels.items ≡ map (the_label scripts.now) findings.now) }
{
    let mut labels = Vec::with_capacity(alloc, findings.len())?;
    for number in 0..findings.len() {
        let Some(finding) = findings.get(number) else {
            unreachable!();
        };
        labels.push(label_of(scripts, finding))?;
    }
    Ok(labels)
}

/// The groups of findings, one for each label that a finding has: its first finding, and how many have it. The
/// larger groups stand first, and of two that are as large that which begins first. The one error is that
/// memory ran out.
pub fn group_findings(
    alloc: Global,
    scripts: &Scripts,
    findings: &FindingList,
) -> Result<Vec<Group>, AllocError>
    ensures { IfOk result (λ groups. AreGroupsOf scripts.now findings.now groups.items) }
{
    let labels = labels_of(alloc, scripts, findings)?;
    groups_of(alloc, labels.as_slice())
}
