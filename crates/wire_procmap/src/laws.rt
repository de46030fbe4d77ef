//! What holds of every process map.

ghost use Rattle.wire_procmap.specs.Places.{OneProcess};

/// A job and a rank name at most one process.
#[tactic(auto, using(crate::proofs::Places::one_process))]
pub fn one_process()
    ensures { OneProcess }
{}
