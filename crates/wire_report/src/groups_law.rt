//! What holds of the groups of a list of labels.

ghost use Rattle.wire_report.specs.GroupLaws.{GroupsPart, OneListOfGroups};

use std::hash::Hash;

/// For each place of a list of labels there is exactly one group whose first place has the same label. No place before
/// that first place has the label, and the group's count is how many places have it. And each group has a place.
#[tactic(auto, using(crate::proofs::GroupLaws::groups_part))]
pub fn groups_part<K: Copy + Eq + Hash>()
    ensures { GroupsPart K.eq }
{}

/// Labels have one list of groups only.
pub fn one_list_of_groups<K: Copy + Eq + Hash>()
    ensures { OneListOfGroups K.eq }
{}
