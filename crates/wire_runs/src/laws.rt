//! The laws of runs of a plan. Each is the contract of a function that does nothing.

ghost use Rattle.wire_runs.specs.Plan.{Plan};
ghost use Rattle.wire_runs.specs.Laws.{PlainRuns, RacesAreUnordered, RowsAreWhole, RunsEnd, EnabledIsDue};
ghost use Rattle.wire_runs.specs.Laws.{EnabledCommute, OneEnd, FatesTell, OneFate};
ghost use Rattle.wire_runs.specs.Laws.{RunsAreSound, NoFindings, OneList, HaveFates, SoundIsReached};
ghost use Rattle.wire_runs.specs.Laws.{StepsMoveCuts, CutsTellSteps, OneState, OneEventBetween, RepliesArePlain};
ghost use Rattle.wire_runs.specs.Laws.{WithoutKeep, CollectsByAll, DeliveredByLast};

/// No run is longer than the number of events.
pub fn runs_end()
    ensures { RunsEnd }
{}

/// In a state that a run can reach, each call of a process has an end.
#[tactic(auto, using(crate::proofs::Ends::rows_are_whole))]
pub fn rows_are_whole()
    ensures { RowsAreWhole }
{}

/// In a state that a run can reach: where a process is enabled, its next event is live, and its sources
/// and all that is before it are done.
pub fn enabled_is_due()
    ensures { EnabledIsDue }
{}

/// In a settled plan, in a state that a run can reach, two processes that are both enabled don't disturb
/// each other: each stays enabled after the other's step, and both orders lead to one state.
pub fn enabled_commute()
    ensures { EnabledCommute }
{}

/// Every two interleavings of a settled plan that can't go on end in the same state.
#[tactic(auto, using(crate::proofs::OneEnd::settled_one_end))]
pub fn one_end()
    ensures { OneEnd }
{}

/// In a settled plan, in a state that a run can reach, replies are fates, and a process is enabled exactly
/// where the sources of its next event are done and the fate of that event isn't to wait.
#[tactic(auto, using(crate::proofs::Fates::fates_tell))]
pub fn fates_tell()
    ensures { FatesTell }
{}

/// The plain run is an interleaving that can't go on, and in a settled plan every such interleaving ends
/// in its state.
pub fn plain_runs()
    ensures { (plan : Plan) → PlainRuns plan }
{}

/// Where a plan doesn't keep what gets bring, a get-now from another node sees what fences have brought, and
/// fences alone deliver keys.
#[tactic(auto, using(crate::proofs::WithoutKeep::without_keep))]
pub fn without_keep()
    ensures { WithoutKeep }
{}

/// In a settled plan an event has one fate.
#[tactic(auto, using(crate::proofs::Fates::one_fate))]
pub fn one_fate()
    ensures { OneFate }
{}

/// The cut of a state that a run of a settled plan can reach is sound.
#[tactic(auto, using(crate::proofs::Fates::runs_are_sound))]
pub fn runs_are_sound()
    ensures { RunsAreSound }
{}

/// The list of findings is empty exactly where the plan is settled.
pub fn no_findings()
    ensures { NoFindings }
{}

/// The two calls of each race that is found are live, and neither is before the other.
#[tactic(auto, using(crate::proofs::Findings::races_are_unordered))]
pub fn races_are_unordered()
    ensures { RacesAreUnordered }
{}

/// For each order of the names there is at most one list of findings.
pub fn one_list()
    ensures { OneList }
{}

/// Each event of a settled plan has a fate, given marks that tell which events are live, and which are
/// before which.
pub fn have_fates()
    ensures { HaveFates }
{}

/// A run of a settled plan can reach each sound cut, given such marks.
pub fn sound_is_reached()
    ensures { SoundIsReached }
{}

/// Where a process is enabled, a run can reach the state after its step, and the cut of that state has one
/// event of that process more.
pub fn steps_move_cuts()
    ensures { StepsMoveCuts }
{}

/// In a settled plan, where all sources of a process's next event are done by the cut of a state, and the
/// fate of that event isn't to wait, the process is enabled, and its step leads to the cut with that event.
pub fn cuts_tell_steps()
    ensures { CutsTellSteps }
{}

/// In a settled plan a cut that a run can reach has one state: it tells the names and the replies.
pub fn one_state()
    ensures { OneState }
{}

/// Of two cuts that a run of a settled plan can reach, the second with one event of a process more: that
/// process is enabled at the first, and its step leads to the state of the second.
pub fn one_event_between()
    ensures { OneEventBetween }
{}

/// In a settled plan, in a state that a run can reach, what is done is done in the plain run, and each reply
/// is the one that its event gets there.
#[tactic(auto, using(crate::proofs::SoFar::replies_are_plain))]
pub fn replies_are_plain()
    ensures { RepliesArePlain }
{}

/// A fence collects exactly where each of its calls says collect.
pub fn collects_by_all()
    ensures { CollectsByAll }
{}

/// What fences have brought of a process's key to a node is what the process had stored under it at its last
/// arrival that has brought its data there, and nothing where there is no such arrival.
pub fn delivered_by_last()
    ensures { DeliveredByLast }
{}
