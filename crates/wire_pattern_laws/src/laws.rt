//! What the small instances of a pattern tell of all its instances. Each law is the contract of a function that does
//! nothing.

ghost use Rattle.wire_pattern_laws.specs.Finds.{FindsAreSaid};
ghost use Rattle.wire_pattern_laws.specs.Fuller.{ReadsWhole, SameInstance};
ghost use Rattle.wire_pattern_laws.specs.Ordered.{OrderedSuffice, OrderIsBlocks};
ghost use Rattle.wire_pattern_laws.specs.Renumberings.{RenumberingTurns, RenumberedBoth, RenumberedKinds};
ghost use Rattle.wire_pattern_laws.specs.Renumberings.{RenumberedIs, SettledByPlacing};
ghost use Rattle.wire_pattern_laws.specs.SmallReplies.{StatusesOfSmall, ReadsFind};
ghost use Rattle.wire_pattern_laws.specs.StatusesTold.{StatusesTold, RenumberedFinds};

/// Where each instance with at most three ranks of each role is settled, whose ranks are in the order of their
/// roles, each instance in that order is, with any number of ranks.
pub fn ordered_suffice()
    ensures { OrderedSuffice }
{}

/// The processes of an instance are in the order of their roles exactly where they stand in blocks.
pub fn order_is_blocks()
    ensures { OrderIsBlocks }
{}

/// Other numbers for a plan's keys and names lead back.
pub fn renumbering_turns()
    ensures { RenumberingTurns }
{}

/// A plan is settled exactly where it is under other numbers for its keys and names.
pub fn renumbered_both()
    ensures { RenumberedBoth }
{}

/// The events of calls under other numbers are the events of the calls, under these numbers.
pub fn renumbered_kinds()
    ensures { RenumberedKinds }
{}

/// The plan under other numbers is that plan under these numbers, if they keep keys and names apart.
pub fn renumbered_is()
    ensures { RenumberedIs }
{}

/// Where a plan is settled on all nodes, so is a plan that has its calls under other numbers.
pub fn settled_by_placing()
    ensures { SettledByPlacing }
{}

/// Where an instance is settled in which optional loops that only read take more turns, the instance is.
pub fn reads_whole()
    ensures { ReadsWhole }
{}

/// Instances with the same roles and nodes and the same turns of optional loops are one plan.
pub fn same_instance()
    ensures { SameInstance }
{}

/// In a settled plan a get-now is answered with what it finds by the order of calls.
pub fn finds_are_said()
    ensures { FindsAreSaid }
{}

/// Where the small instances are settled: whatever status a get-now is answered with in an instance of any size, a
/// get-now of the same line finds in a small one.
pub fn statuses_of_small()
    ensures { StatusesOfSmall }
{}

/// What a get-now finds, one of its line finds, and nothing else, where loops that only read take more turns.
pub fn reads_find()
    ensures { ReadsFind }
{}

/// The statuses that a get-now finds on some nodes are told by the order of the plan's calls.
pub fn statuses_told()
    ensures { StatusesTold }
{}

/// Numbers of keys and names say nothing of what a get-now finds.
pub fn renumbered_finds()
    ensures { RenumberedFinds }
{}
