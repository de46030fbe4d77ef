//! The laws of what is judged. Each is the contract of a function that does nothing.

ghost use Rattle.wire_cutoff.specs.Ordered.{FirstHasFewest, SelectionsAreAll};
ghost use Rattle.wire_cutoff.specs.Texts.{TextsSettled};

/// Where nothing is found for any number of processes, nothing is found in the text of an instance, whatever its size,
/// if it reads as a plan.
pub fn texts_settled()
    ensures { TextsSettled }
{}

/// With few processes of each role each choice of turns is judged, and nothing else is.
pub fn selections_are_all()
    ensures { SelectionsAreAll }
{}

/// Nothing is found with fewer processes than the first instance has in which something is.
pub fn first_has_fewest()
    ensures { FirstHasFewest }
{}
