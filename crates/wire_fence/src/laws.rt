//! What holds of the counts of members that are missing at fences.

ghost use Rattle.wire_fence.specs.Missing.{OtherEventsKeep, ArrivalCounts, SomebodyIsMissing, ArrivingIsMissing};
ghost use Rattle.wire_fence.specs.Missing.{CallsAreArrivals};

/// An event that is no arrival leaves the counts as they are.
pub fn other_events_keep()
    ensures { OtherEventsKeep }
{}

/// An arrival at a fence leaves one member fewer missing there, and all other fences as they are.
pub fn arrival_counts()
    ensures { ArrivalCounts }
{}

/// Where a member hasn't arrived at a fence, somebody is missing there.
pub fn somebody_is_missing()
    ensures { SomebodyIsMissing }
{}

/// Where a process is about to arrive at a fence, somebody is missing there.
pub fn arriving_is_missing()
    ensures { ArrivingIsMissing }
{}

/// A process arrives at fences over a set as often as it calls them.
pub fn calls_are_arrivals()
    ensures { CallsAreArrivals }
{}
