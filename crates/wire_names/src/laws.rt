//! What holds of every table of names.

ghost use Rattle.wire_names.specs.Changes.{NamesFollow};

/// The tables that publishes and unpublishes leave follow, name by name, what such an event does to what
/// stands under a name.
#[tactic(auto, using(crate::proofs::Changes::names_follow))]
pub fn names_follow()
    ensures { NamesFollow }
{}
