//! The laws of answers. Each is the contract of a function that does nothing.

ghost use Rattle.wire_pattern_answers.specs.FewPlacings.{FewPlacingsTell, ThreeStatuses};

/// With whatever status a get-now of a plan that is settled on all nodes is answered on some of them, it is answered
/// with each process on a node of its own, or with all on one node. Or it is success: then with all on one node it
/// exists outside its scope, and it is found with one process on a node of its own and all others on another.
pub fn few_placings_tell()
    ensures { FewPlacingsTell }
{}

/// A get-now of a plan that is settled on all nodes is answered with one of three statuses.
pub fn three_statuses()
    ensures { ThreeStatuses }
{}
