//! A law of the chain that is shown. It is the contract of a function that does nothing.

ghost use Rattle.wire_happens_before.specs.Chain.{OneShown};

/// Between two events, the first of them before the second, one chain is shown.
#[tactic(auto, using(crate::proofs::OneChain::one_shown))]
pub fn one_shown()
    ensures { OneShown }
{}
