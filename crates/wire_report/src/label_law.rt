//! What holds of the labels of findings, and of findings in groups.

ghost use Rattle.wire_report.specs.LabelLaws.{LabelsTell, OneGrouping};

/// Two findings have the same label exactly if they are of the same kind, on the same key or name, and their calls have
/// the same two verbs, whichever of the two calls stands first.
#[tactic(auto, using(crate::proofs::LabelLaws::labels_tell))]
pub fn labels_tell()
    ensures { LabelsTell }
{}

/// Findings have one list of groups only: the lines tell of the same groups as the JSON form.
pub fn one_grouping()
    ensures { OneGrouping }
{}
