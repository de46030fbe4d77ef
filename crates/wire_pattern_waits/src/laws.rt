//! Laws about the lines that calls come from, and about where they wait. Each is the contract of a function that does
//! nothing.

ghost use Rattle.wire_pattern_waits.specs.AllNodes.{StopsOnAllNodes, WaitsOnAllNodes};
ghost use Rattle.wire_pattern_waits.specs.Places.{PlacesLead};

/// The line of a script that a call is said to come from is the one that `wire_pattern` says it comes from, by the
/// number of the line in the file.
#[tactic(auto, using(crate::proofs::Leads::places_lead))]
pub fn places_lead()
    ensures { PlacesLead }
{}

/// On whatever nodes the processes of scripts are, they wait at the same call lines.
#[tactic(auto, using(crate::proofs::AllNodes::stops_on_all_nodes))]
pub fn stops_on_all_nodes()
    ensures { StopsOnAllNodes }
{}

/// At the call lines that `Waits` tells something waits on all nodes, and at no others does anything on any.
pub fn waits_on_all_nodes()
    ensures { WaitsOnAllNodes }
{}
