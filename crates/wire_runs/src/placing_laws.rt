//! The laws of placings, a plan with its processes on other nodes. Each is the contract of a function that does
//! nothing.

ghost use Rattle.wire_runs.specs.PlacingLaws.{PlacingsAre, PlacingKeeps, OneArrivalIsAll, LateByLeave};
ghost use Rattle.wire_runs.specs.PlacingLaws.{OneMemberTells, ReaderTakesNoPart, OneANodeHasNone};
ghost use Rattle.wire_runs.specs.PlacingLaws.{NearAnywhere, FarAnywhere, SettledAnywhere, PlacingTells};
ghost use Rattle.wire_runs.specs.PlacingLaws.{FamilyTells, PlacedIsFound, FindingsAnywhere, OnePair};
ghost use Rattle.wire_runs.specs.PlacingLaws.{OneListAnywhere, HaveLeastFar, PlacingsRunAlike, SameProgressOnPlacements, RepliesAnywhere};

/// A plan can be placed on any nodes, and being a placing of it goes both ways and on.
pub fn placings_are()
    ensures { PlacingsAre }
{}

/// A placing of a plan has the plan's counts, puts, fences, edges, live events and chains, its rewrites and
/// its races on names, and the same deliveries, near races and far races.
pub fn placing_keeps()
    ensures { PlacingKeeps }
{}

/// What one arrival at a fence is before, each arrival at it is before.
pub fn one_arrival_is_all()
    ensures { OneArrivalIsAll }
{}

/// What is before some arrival at a full fence, all its arrivals live, and isn't one of them, is what is
/// before a leave of it.
pub fn late_by_leave()
    ensures { LateByLeave }
{}

/// Of a fence one member's arrival and leave tell whether its arrivals are live, are before a get-now, and
/// whether the get-now is before one of them.
pub fn one_member_tells()
    ensures { OneMemberTells }
{}

/// A delivery to a get-now's own process is sure, or the get is before one of its events.
pub fn reader_takes_no_part()
    ensures { ReaderTakesNoPart }
{}

/// Where no two processes are on one node, no race is on a key.
pub fn one_a_node_has_none()
    ensures { OneANodeHasNone }
{}

/// Some placing has the race of a get-now and a commit exactly where it is near, and then the placing has it
/// that gives their two processes a node of their own.
pub fn near_anywhere()
    ensures { NearAnywhere }
{}

/// Some placing has the race of a get-now and a delivery exactly where it is far with some process, and then
/// the placing has it that gives that process and the get-now's a node of their own.
pub fn far_anywhere()
    ensures { FarAnywhere }
{}

/// A plan is settled anywhere exactly where each placing of it is settled, and exactly where each placing is
/// that gives two processes a node of their own.
pub fn settled_anywhere()
    ensures { SettledAnywhere }
{}

/// The races of one placing, by what the plan says of any.
pub fn placing_tells()
    ensures { PlacingTells }
{}

/// Of a family of placings which, with two processes on one node, also has them there alone: all are settled
/// exactly where the plan has no race between processes that share a node in one of them.
pub fn family_tells()
    ensures { FamilyTells }
{}

/// What is listed as found on all placings is found on each, and what is listed with a pair is found where
/// these two processes have a node of their own.
pub fn placed_is_found()
    ensures { PlacedIsFound }
{}

/// The list of what is found on some placing has exactly the findings of all placings, and it is empty
/// exactly where the plan is settled anywhere.
pub fn findings_anywhere()
    ensures { FindingsAnywhere }
{}

/// A finding is listed with one pair.
pub fn one_pair()
    ensures { OnePair }
{}

/// For each order of the names there is at most one list of what is found on some placing.
pub fn one_list_anywhere()
    ensures { OneListAnywhere }
{}

/// Given marks, it is told whether a process surely has a key, and of a far race the lowest process with
/// which it is far.
pub fn have_least()
    ensures { HaveLeastFar }
{}

/// A placing of a plan has the plan's runs: after the same steps as much is done, the same stands under each
/// name, and each reply is the same that can't tell where processes are.
pub fn placings_run_alike()
    ensures { PlacingsRunAlike }
{}

/// Where the plain run can't go on each call has come as far on every placing: the same have a reply, and the same wait.
pub fn placings_end_alike()
    ensures { SameProgressOnPlacements }
{}

/// Of a plan that is settled anywhere, which calls reply the same on every placing.
pub fn replies_anywhere()
    ensures { RepliesAnywhere }
{}
