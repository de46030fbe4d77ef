//! The laws of waiting at every size. Each is the contract of a function that does nothing.

ghost use Rattle.wire_reply_laws.specs.Promised.{AllAnswered, TextsAnswered};

/// Where nothing is found and no call waits in the instances that are judged, and these keep stages: no call waits for
/// ever in any instance, with any number of processes of each role, on any nodes.
pub fn all_answered()
    ensures { AllAnswered }
{}

/// So it is in the plan that the text of an instance reads as, if it reads as one.
pub fn texts_answered()
    ensures { TextsAnswered }
{}
