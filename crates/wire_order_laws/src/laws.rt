//! The laws of a plan with fewer calls. Each is the contract of a function that does nothing.

ghost use Rattle.wire_order_laws.specs.Leaner.{LeanerTells};
ghost use Rattle.wire_order_laws.specs.LessOrder.{LessOrderFinds};
ghost use Rattle.wire_order_laws.specs.OrderThere.{OrderThereFinds};
ghost use Rattle.wire_order_laws.specs.Unread.{BareFinds, NothingRaces};
ghost use Rattle.wire_order_laws.specs.WholeFences.{FewerFencesFind};

/// Where a plan that lacks waits of another has no finding, the other has none.
pub fn less_order_finds()
    ensures { LessOrderFinds }
{}

/// Where a plan without some of its whole fences has no finding, the full plan has none.
pub fn fewer_fences_find()
    ensures { FewerFencesFind }
{}

/// A plan with names of its own that order nothing has a finding exactly where it has one without
/// them.
pub fn order_there_finds()
    ensures { OrderThereFinds }
{}

/// Where a plan has no finding without what nobody gets, the full plan has none.
pub fn bare_finds()
    ensures { BareFinds }
{}

/// Where a leaner plan has no finding, the plan has none.
pub fn leaner_tells()
    ensures { LeanerTells }
{}

/// A plan without a call that can race has no finding.
pub fn nothing_races()
    ensures { NothingRaces }
{}
