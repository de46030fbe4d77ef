//! The laws of the words and of trails. Each is the contract of a function that does nothing.

ghost use Rattle.wire_board.specs.Cuts.{CutsAreSound};
ghost use Rattle.wire_board.specs.PlainTrails.{TrailsArePlain};
ghost use Rattle.wire_board.specs.Steps.{StoresAreSteps};

/// The words of a board of a settled plan are a sound cut: with each event that is done its sources are
/// done, and no event that is done has the fate to wait.
#[tactic(auto, using(crate::proofs::Cuts::cuts_are_sound))]
pub fn cuts_are_sound()
    ensures { CutsAreSound }
{}

/// In a settled plan, where a run can come to the words before and after a store that raises the word of a
/// rank by one, the store is a step: the rank is enabled in the state of the words before it, and its step
/// leads to the state of the words after it.
pub fn stores_are_steps()
    ensures { StoresAreSteps }
{}

/// In a settled plan, each entry of a trail is what the plain run replies to its event, where the trail has
/// no more entries than its rank's word says, and the words are the cut of a state that a run can come to.
pub fn trails_are_plain()
    ensures { TrailsArePlain }
{}
