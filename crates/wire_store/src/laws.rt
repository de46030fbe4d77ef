//! What a store tells of puts, against the puts and commits that it was told of.

ghost use Rattle.wire_store.specs.Told.{StoreTells};

/// A store that is told of the puts and commits among a process's first events shows the process its
/// last put of a key, and shows others its last put of the key that a commit follows.
#[tactic(auto, using(crate::proofs::Told::store_tells))]
pub fn tells_puts()
    ensures { StoreTells }
{}
