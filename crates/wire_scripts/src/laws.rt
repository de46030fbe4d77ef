//! The laws of scripts. Each is the contract of a function that does nothing.

ghost use Rattle.wire_scripts.specs.Placed.{MovedIsPlacing};

/// The same jobs and calls on whatever nodes have a plan that is a placing of theirs.
pub fn moved_is_placing()
    ensures { MovedIsPlacing }
{}
