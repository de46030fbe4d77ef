//! What holds of every deal, and of every pass.

ghost use Rattle.wire_rounds.specs.Shares.{DealRises};
ghost use Rattle.wire_rounds.specs.Taken.{TakesAreBounded};

/// The pieces of a round rise by process. So no piece is dealt twice.
#[tactic(auto, using(crate::proofs::Rising::deal_rises))]
pub fn deal_rises()
    ensures { DealRises }
{}

/// No pass of a round has taken more pieces than the round has. Each take adds one piece to what its pass took, so a
/// pass takes at most so often.
#[tactic(auto, using(crate::proofs::Bounds::takes_are_bounded))]
pub fn takes_are_bounded()
    ensures { TakesAreBounded }
{}
