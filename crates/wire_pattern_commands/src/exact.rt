//! Whether the statuses of get-nows in the instances that are judged are those of every number of ranks.

ghost use Rattle.std.specs.Prelude.{◌≡◌, ◌↔◌, ◌⊎◌, ◌||◌, ◌<◌, ◌^◌, [], true};
ghost use Rattle.wire_cutoff.specs.Selections.{most_sizes};
ghost use Rattle.wire_cutoff_laws.specs.Promised.{IsSettledForAll};
ghost use Rattle.wire_cutoff_laws.specs.Sizes.{total_of};
ghost use Rattle.wire_pattern_waits.specs.Waits.{AllReadAsPlans, AllReplied};
ghost use Rattle.wire_pattern_stages.specs.Lookups.{AllWaitForOne};
ghost use Rattle.wire_answer_laws.specs.AnySize.{AnswersSuffice};

use crate::reading::note_sound;
use wire_answer_laws::laws::{answers_of_small, replied_stand_for_one};
use wire_pattern::Pattern;
use wire_pattern_answers::LineAnswers;
use wire_pattern_stages::Waiting;

/// With which statuses each get-now line is answered in the instances that are judged, and whether it is known to be
/// answered with no other in any instance.
#[derive(Clone, Copy)]
pub(crate) struct Statuses<'a> {
    pub(crate) lines: &'a [LineAnswers],
    pub(crate) exact: bool,
}

/// Whether one of two things is so.
fn either(one: bool, other: bool) -> bool
    ensures { result ≡ one || other }
{
    one || other
}

/// Whether no get-now is answered with a status in an instance of any size that it isn't answered with in one that is
/// judged: no call waits in these, or each lookup-wait is of a name that is published once and never taken away. It
/// says so wherever one of these is so.
pub(crate) fn are_exact(pattern: &Pattern, waiting: &Waiting) -> bool
    requires settled { IsSettledForAll pattern.now }
    requires few { total_of (most_sizes pattern.now.roles) < 2 ^ 31 }
    requires read { AllReadAsPlans pattern.now }
    requires replied { waiting.now.lines.items ≡ [] → AllReplied pattern.now }
    requires for_one { (waiting.now.for_one ≡ true) ↔ AllWaitForOne pattern.now }
    ensures suffices { result ≡ true → AnswersSuffice pattern.now }
    ensures known { (waiting.now.lines.items ≡ []) ⊎ AllWaitForOne pattern.now → result ≡ true }
{
    note_sound(pattern);
    answers_of_small();
    replied_stand_for_one();
    either(waiting.lines.as_slice().is_empty(), waiting.for_one)
}
