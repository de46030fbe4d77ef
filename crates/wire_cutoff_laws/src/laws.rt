//! The law of a sweep. It is the contract of a function that does nothing.

ghost use Rattle.wire_cutoff_laws.specs.Promised.{CutoffSuffices};

/// Where nothing is found in the instances with few processes of each role, nothing is found in any.
pub fn cutoff_suffices()
    ensures { CutoffSuffices }
{}
