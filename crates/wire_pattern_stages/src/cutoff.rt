//! What the instances that are judged show: at which call lines something waits, whether they keep stages, and with which
//! statuses their get-nows are answered.

ghost use Rattle.std.specs.Prelude.{◌≡◌, ◌↔◌, ◌⊎◌, ◌||◌, ◌&&◌, ◌<◌, ◌^◌, [], ℕ, true, not, OnOk, IfOk, IfErr, map};
ghost use Rattle.wire_types.specs.declared.Fault.TheVariants.{Memory};
ghost use Rattle.wire_types.specs.Texts.{lists_of};
ghost use Rattle.wire_scripts.specs.Planned.{plan_of};
ghost use Rattle.wire_core.specs.EndsAfter.{plain_ends};
ghost use Rattle.wire_pattern.specs.Instances.{IsCast, cast_of};
ghost use Rattle.wire_pattern.specs.Planned.{pattern_of};
ghost use Rattle.wire_instances.specs.Views.{cast_by};
ghost use Rattle.wire_cutoff.specs.Judged.{IsFewCast, IsJudgeFault};
ghost use Rattle.wire_cutoff.specs.Selections.{Selection as SelectionSpec, selections, most_sizes};
ghost use Rattle.wire_cutoff.specs.Views.{selection_by};
ghost use Rattle.wire_cutoff_laws.specs.Promised.{IsSettledForAll};
ghost use Rattle.wire_cutoff_laws.specs.Sizes as counted;
ghost use Rattle.wire_cutoff_laws.specs.Sizes.{AreFewSizes};
ghost use Rattle.wire_pattern_waits.specs.LineSets.{has_line};
ghost use Rattle.wire_pattern_waits.specs.Stops.{StuckAt};
ghost use Rattle.wire_pattern_waits.specs.Waits.{AllReadAsPlans, AllReplied, AreWaiting, ReadsAsPlan, StopsIn, Waits, alone};
ghost use Rattle.wire_pattern_answers.specs.Answers.{AnswersIn, Answers, AreAnswers, IsAnsweredAtLine};
ghost use Rattle.wire_pattern_answers.specs.Notes.{AreTold, AreToldToo, IsAnsweredThere, NotesAre};
ghost use Rattle.wire_size_laws.specs.Stages.{Stages as StagesSpec};
ghost use Rattle.wire_reply_laws.specs.Kept.{KeepsStages};
ghost use Rattle.wire_reply_laws.specs.Promised.{AllStaged};
ghost use Rattle.wire_pattern_stages.specs.Views.{stages_by};
ghost use Rattle.wire_size_laws.specs.Answered.{WaitsForOne};
ghost use Rattle.wire_pattern_stages.specs.Lookups.{AllWaitForOne, SelectionWaitsForOne};
ghost use Rattle.wire_pattern_stages.specs.Staged.{SelectionKeeps};
ghost use Rattle.wire_pattern_stages.specs.Succeeding.{FailsIn, PutsRemoteIn, SomeFailsApart, SomePutsRemote, all_succeed, some_puts_remote};

use crate::instance::{View, is_plan_right};
use crate::labels::all_labels;
use crate::last::last_stages;
use crate::lookups::is_plan_for_one;
use crate::stage::Stages;
use crate::succeeding::{rows_succeed, some_puts_remote};
use std::alloc::{AllocError, Global};
use wire_core::plain_outcome;
use wire_cutoff::{Selection, all_selections, cast_for, instance_scripts};
use wire_instance_laws::laws::instances_read;
use wire_instances::Cast;
use wire_pattern::Pattern;
use wire_pattern_answers::{
    LineAnswers, Note, StatusesByLine, asked_lines, notes_after, tell_answers, told_answers,
};
use wire_pattern_waits::{CallLine, LineSet, note_waits, noted_lines, process_roles};
use wire_plan::Plan;
use wire_reader::reads_once;
use wire_scripts::Scripts;
use wire_types::{CallEnd, Fault};

/// At which call lines something waits in the instances that are judged, each process on a node of its own, whether all
/// of them are known to keep the same stages, whether they have no lookup-wait but of a name that is published once and
/// never taken away, whether a call of one doesn't succeed, and whether one puts a key for other nodes alone. If that is asked
/// for, also with which statuses the get-now lines are answered in them.
#[derive(Drop)]
pub struct Waiting {
    pub lines: Vec<CallLine>,
    pub answers: Vec<LineAnswers>,
    pub staged: bool,
    pub for_one: bool,
    pub failing: bool,
    pub remote: bool,
}

/// What is asked of an instance of a pattern: whether it keeps these stages, unless that isn't asked any more; and with
/// which statuses its get-nows are answered, or not that.
#[derive(Clone, Copy)]
struct Question<'a> {
    pattern: &'a Pattern,
    stages: &'a Stages,
    asked: bool,
    answers: bool,
}

/// What is seen of instances: the call lines at which something waits, whether all keep the stages, whether each
/// lookup-wait is of a name that is published once and never taken away, whether a call of one doesn't succeed, and
/// whether one puts a key for other nodes alone; and with which statuses get-nows are answered.
#[derive(Drop)]
struct Seen {
    noted: LineSet,
    told: StatusesByLine,
    kept: bool,
    for_one: bool,
    failing: bool,
    remote: bool,
}

/// What one instance shows: whether it keeps the stages, whether each lookup-wait is of a name that is published once and
/// never taken away, whether a call doesn't succeed, and whether one puts a key for other nodes alone; and with which
/// statuses get-nows are answered in it, if that is asked.
#[derive(Drop)]
struct Shown {
    notes: Vec<Note>,
    kept: bool,
    for_one: bool,
    failing: bool,
    remote: bool,
}

/// Whether the plan of an instance keeps stages.
fn plan_keeps(
    alloc: Global,
    pattern: &Pattern,
    cast: &Cast,
    stages: &Stages,
    plan: &Plan,
) -> Result<bool, AllocError>
    requires { IsCast pattern.now (cast_by cast.now) }
    ensures { IfOk result (λ kept. kept ≡ true
        → KeepsStages (stages_by stages.now) (pattern_of pattern.now) (cast_of (cast_by cast.now)) (plan_of plan.now)) }
{
    let roles = process_roles(alloc, pattern, cast)?;
    let labels = all_labels(alloc, pattern, cast, roles.as_slice())?;
    let view = View {
        plan,
        roles: roles.as_slice(),
        labels: labels.as_slice(),
        stages,
    };
    Ok(is_plan_right(&view))
}

/// Whether it does, if that is asked.
fn keeps_asked(
    alloc: Global,
    question: &Question,
    cast: &Cast,
    plan: &Plan,
) -> Result<bool, AllocError>
    requires { IsCast question.now.pattern.now (cast_by cast.now) }
    ensures { IfOk result (λ kept. kept ≡ true → (question.now.asked ≡ true) × KeepsStages (stages_by question.now.stages.now)
        (pattern_of question.now.pattern.now) (cast_of (cast_by cast.now)) (plan_of plan.now)) }
{
    if !question.asked {
        return Ok(false);
    }
    let kept = plan_keeps(alloc, question.pattern, cast, question.stages, plan)?;
    Ok(kept)
}

/// With which statuses the get-nows of an instance of these scripts are answered, by what became of its calls, if that
/// is asked.
fn notes_asked(
    alloc: Global,
    question: &Question,
    cast: &Cast,
    scripts: &Scripts,
    rows: &[Vec<CallEnd>],
) -> Result<Vec<Note>, AllocError>
    requires { IsCast question.now.pattern.now (cast_by cast.now) }
    ensures { IfOk result (λ v. question.now.answers ≡ true → lists_of rows.now ≡ (plain_ends scripts.now).rows
        → NotesAre v.items (IsAnsweredAtLine question.now.pattern.now (cast_by cast.now) scripts.now)) }
{
    if !question.answers {
        return Ok(Vec::new(alloc));
    }
    let notes = notes_after(alloc, question.pattern, cast, scripts, rows)?;
    Ok(notes)
}

/// Tells the answers of an instance on all nodes, if that is asked, by the notes of it with each process on a node of its
/// own.
fn tell_asked(
    told: &mut StatusesByLine,
    alloc: Global,
    question: &Question,
    cast: &Cast,
    notes: &[Note],
) -> Result<(), Fault>
    requires { IsFewCast question.now.pattern.now (cast_by cast.now) }
    ensures ok { OnOk result (question.now.answers ≡ true → (selection : SelectionSpec) → cast_by cast.now ≡ alone question.now.pattern.now selection
        → IsSettledForAll question.now.pattern.now → NotesAre notes.now (IsAnsweredThere question.now.pattern.now (cast_by cast.now))
        → AreToldToo told.old told.new (AnswersIn question.now.pattern.now selection)) }
    ensures err { IfErr result (λ e. IsJudgeFault question.now.pattern.now e) }
{
    if !question.answers {
        return Ok(());
    }
    tell_answers(told, alloc, question.pattern, cast, notes)?;
    Ok(())
}

/// Notes the call lines at which processes wait in the instance that is this plan. Answers what it shows.
fn see_plan(
    noted: &mut LineSet,
    alloc: Global,
    question: &Question,
    cast: &Cast,
    plan: &Plan,
) -> Result<Shown, Fault>
    requires { IsCast question.now.pattern.now (cast_by cast.now) }
    ensures waits { OnOk result ((role line : ℕ) → (has_line noted.new role line ≡ true)
        ↔ ((has_line noted.old role line ≡ true) ⊎ StuckAt question.now.pattern.now (cast_by cast.now) plan.now role line)) }
    ensures kept { IfOk result (λ it. it.kept ≡ true → (question.now.asked ≡ true) × KeepsStages (stages_by question.now.stages.now)
        (pattern_of question.now.pattern.now) (cast_of (cast_by cast.now)) (plan_of plan.now)) }
    ensures for_one { IfOk result (λ it. (it.for_one ≡ true) ↔ WaitsForOne (plan_of plan.now)) }
    ensures failing { IfOk result (λ it. it.failing ≡ not (all_succeed plan.now)) }
    ensures remote { IfOk result (λ it. it.remote ≡ some_puts_remote plan.now) }
    ensures notes { IfOk result (λ it. question.now.answers ≡ true
        → NotesAre it.notes.items (IsAnsweredAtLine question.now.pattern.now (cast_by cast.now) plan.now)) }
    ensures err { IfErr result (λ e. e ≡ Memory) }
{
    let outcome = plain_outcome(alloc, plan)?;
    let rows = outcome.rows.as_slice();
    note_waits(noted, alloc, question.pattern, cast, rows)?;
    let kept = keeps_asked(alloc, question, cast, plan)?;
    let notes = notes_asked(alloc, question, cast, plan.scripts(), rows)?;
    Ok(Shown {
        notes,
        kept,
        for_one: is_plan_for_one(plan),
        failing: !rows_succeed(rows),
        remote: some_puts_remote(plan.scripts().processes()),
    })
}

/// The same of an instance that reads as these scripts.
fn see_scripts(
    noted: &mut LineSet,
    alloc: Global,
    question: &Question,
    cast: &Cast,
    scripts: Scripts,
) -> Result<Shown, Fault>
    requires { IsCast question.now.pattern.now (cast_by cast.now) }
    ensures waits { OnOk result ((role line : ℕ) → (has_line noted.new role line ≡ true)
        ↔ ((has_line noted.old role line ≡ true) ⊎ StuckAt question.now.pattern.now (cast_by cast.now) scripts role line)) }
    ensures kept { IfOk result (λ it. it.kept ≡ true → (question.now.asked ≡ true) × KeepsStages (stages_by question.now.stages.now)
        (pattern_of question.now.pattern.now) (cast_of (cast_by cast.now)) (plan_of scripts)) }
    ensures for_one { IfOk result (λ it. (it.for_one ≡ true) ↔ WaitsForOne (plan_of scripts)) }
    ensures failing { IfOk result (λ it. it.failing ≡ not (all_succeed scripts)) }
    ensures remote { IfOk result (λ it. it.remote ≡ some_puts_remote scripts) }
    ensures notes { IfOk result (λ it. question.now.answers ≡ true
        → NotesAre it.notes.items (IsAnsweredAtLine question.now.pattern.now (cast_by cast.now) scripts)) }
    ensures err { IfErr result (λ e. e ≡ Memory) }
{
    let plan = Plan::build(alloc, scripts)?;
    let shown = see_plan(noted, alloc, question, cast, &plan);
    drop(plan);
    shown
}

/// The same of the instance of a selection. Tells its answers, if that is asked.
fn see_selection(
    noted: &mut LineSet,
    told: &mut StatusesByLine,
    alloc: Global,
    question: &Question,
    selection: &Selection,
) -> Result<Shown, Fault>
    requires sizes { AreFewSizes question.now.pattern.now.roles selection.now.sizes.items }
    requires few { counted.total_of selection.now.sizes.items < 2 ^ 31 }
    ensures waits { OnOk result ((role line : ℕ) → (has_line noted.new role line ≡ true)
        ↔ ((has_line noted.old role line ≡ true) ⊎ StopsIn question.now.pattern.now (selection_by selection.now) role line)) }
    ensures read { OnOk result (ReadsAsPlan question.now.pattern.now (selection_by selection.now)) }
    ensures kept { IfOk result (λ it. it.kept ≡ true → (question.now.asked ≡ true)
        × SelectionKeeps question.now.pattern.now (stages_by question.now.stages.now) (selection_by selection.now)) }
    ensures for_one { IfOk result (λ it. (it.for_one ≡ true) ↔ SelectionWaitsForOne question.now.pattern.now (selection_by selection.now)) }
    ensures failing { IfOk result (λ it. (it.failing ≡ true) ↔ FailsIn question.now.pattern.now (selection_by selection.now)) }
    ensures remote { IfOk result (λ it. (it.remote ≡ true) ↔ PutsRemoteIn question.now.pattern.now (selection_by selection.now)) }
    ensures answers { OnOk result (question.now.answers ≡ true → IsSettledForAll question.now.pattern.now
        → AreToldToo told.old told.new (AnswersIn question.now.pattern.now (selection_by selection.now))) }
    ensures err { IfErr result (λ e. IsJudgeFault question.now.pattern.now e) }
{
    reads_once();
    let cast = cast_for(alloc, question.pattern, selection)?;
    let (text, scripts) = instance_scripts(alloc, question.pattern, &cast)?;
    drop(text);
    let shown = see_scripts(noted, alloc, question, &cast, scripts)?;
    tell_asked(told, alloc, question, &cast, shown.notes.as_slice())?;
    Ok(shown)
}

/// Whether one of two things is so.
fn either(one: bool, other: bool) -> bool
    ensures { result ≡ one || other }
{
    one || other
}

/// Whether both are.
fn both(one: bool, other: bool) -> bool
    ensures { result ≡ one && other }
{
    one && other
}

/// What is seen of the instances of all selections.
fn see_all(alloc: Global, question: &Question, all: &[Selection]) -> Result<Seen, Fault>
    requires all { map selection_by all.now ≡ selections question.now.pattern.now }
    requires few { counted.total_of (most_sizes question.now.pattern.now.roles) < 2 ^ 31 }
    ensures waits { IfOk result (λ s. (role line : ℕ) → (has_line s.noted role line ≡ true) ↔ Waits question.now.pattern.now role line) }
    ensures read { IfOk result (λ s. AllReadAsPlans question.now.pattern.now) }
    ensures kept { IfOk result (λ s. s.kept ≡ true → AllStaged question.now.pattern.now (stages_by question.now.stages.now)) }
    ensures for_one { IfOk result (λ s. (s.for_one ≡ true) ↔ AllWaitForOne question.now.pattern.now) }
    ensures failing { IfOk result (λ s. (s.failing ≡ true) ↔ SomeFailsApart question.now.pattern.now) }
    ensures remote { IfOk result (λ s. (s.remote ≡ true) ↔ SomePutsRemote question.now.pattern.now) }
    ensures answers { IfOk result (λ s. question.now.answers ≡ true → IsSettledForAll question.now.pattern.now
        → AreTold s.told (Answers question.now.pattern.now)) }
    ensures err { IfErr result (λ e. IsJudgeFault question.now.pattern.now e) }
{
    let mut noted = LineSet::new(alloc);
    let mut told = StatusesByLine::new(alloc);
    let mut kept = question.asked;
    let mut for_one = true;
    let mut failing = false;
    let mut remote = false;
    for selection in all {
        let now = Question {
            pattern: question.pattern,
            stages: question.stages,
            asked: kept,
            answers: question.answers,
        };
        let shown = see_selection(&mut noted, &mut told, alloc, &now, selection)?;
        kept = shown.kept;
        for_one = both(for_one, shown.for_one);
        failing = either(failing, shown.failing);
        remote = either(remote, shown.remote);
    }
    Ok(Seen {
        noted,
        told,
        kept,
        for_one,
        failing,
        remote,
    })
}

/// The same, with stages that were found, if any were, and with answers, if these are asked for.
fn see_with(
    alloc: Global,
    pattern: &Pattern,
    found: Option<Stages>,
    answers: bool,
    all: &[Selection],
) -> Result<Seen, Fault>
    requires all { map selection_by all.now ≡ selections pattern.now }
    requires few { counted.total_of (most_sizes pattern.now.roles) < 2 ^ 31 }
    ensures waits { IfOk result (λ s. (role line : ℕ) → (has_line s.noted role line ≡ true) ↔ Waits pattern.now role line) }
    ensures read { IfOk result (λ s. AllReadAsPlans pattern.now) }
    ensures kept { IfOk result (λ s. s.kept ≡ true → (stages : StagesSpec) × AllStaged pattern.now stages) }
    ensures for_one { IfOk result (λ s. (s.for_one ≡ true) ↔ AllWaitForOne pattern.now) }
    ensures failing { IfOk result (λ s. (s.failing ≡ true) ↔ SomeFailsApart pattern.now) }
    ensures remote { IfOk result (λ s. (s.remote ≡ true) ↔ SomePutsRemote pattern.now) }
    ensures answers { IfOk result (λ s. answers ≡ true → IsSettledForAll pattern.now → AreTold s.told (Answers pattern.now)) }
    ensures err { IfErr result (λ e. IsJudgeFault pattern.now e) }
{
    let asked = found.is_some();
    let stages = Stages::or_none(alloc, found);
    let question = Question {
        pattern,
        stages: &stages,
        asked,
        answers,
    };
    let seen = see_all(alloc, &question, all)?;
    Ok(seen)
}

/// The call lines of a pattern at which something waits, in the order of roles and lines: in the instance of some
/// selection a process stands there where the plain run can't go on. The text of each of these instances reads as a
/// plan; and if there is no such line, every call of them has its reply. Whether stages were found that all of them keep:
/// then, if nothing is found and no call waits in them, no call waits for ever in any instance, with any number of
/// processes (`all_answered` in `wire_reply_laws`). Whether each of their lookup-waits is of a name that is published
/// once and never taken away. Whether a call of one of these instances isn't answered
/// `PMIX_SUCCESS`, and whether one puts a key for other nodes alone. If answers are asked for and nothing is found in the
/// pattern, its get-now lines, each with the statuses with which it is answered in these instances, on any nodes: these,
/// and no others.
pub fn find_waiting(alloc: Global, pattern: &Pattern, answers: bool) -> Result<Waiting, Fault>
    requires { counted.total_of (most_sizes pattern.now.roles) < 2 ^ 31 }
    ensures waits { IfOk result (λ w. AreWaiting pattern.now w.lines.items) }
    ensures read { IfOk result (λ w. AllReadAsPlans pattern.now) }
    ensures replied { IfOk result (λ w. w.lines.items ≡ [] → AllReplied pattern.now) }
    ensures staged { IfOk result (λ w. w.staged ≡ true → (stages : StagesSpec) × AllStaged pattern.now stages) }
    ensures for_one { IfOk result (λ w. (w.for_one ≡ true) ↔ AllWaitForOne pattern.now) }
    ensures failing { IfOk result (λ w. (w.failing ≡ true) ↔ SomeFailsApart pattern.now) }
    ensures remote { IfOk result (λ w. (w.remote ≡ true) ↔ SomePutsRemote pattern.now) }
    ensures answers { IfOk result (λ w. answers ≡ true → IsSettledForAll pattern.now → AreAnswers pattern.now w.answers.items) }
    ensures err { IfErr result (λ e. IsJudgeFault pattern.now e) }
{
    // The roles are sound, and the text of an instance has as many calls as its script says.
    let _roles = pattern.roles();
    instances_read();
    let all = all_selections(alloc, pattern)?;
    let found = last_stages(alloc, pattern, all.as_slice())?;
    let get_nows = asked_lines(alloc, pattern, answers)?;
    let seen = see_with(alloc, pattern, found, !get_nows.is_empty(), all.as_slice())?;
    let lines = noted_lines(alloc, pattern, &seen.noted)?;
    let answers = told_answers(alloc, pattern, &seen.told, get_nows.as_slice())?;
    Ok(Waiting {
        lines,
        answers,
        staged: seen.kept,
        for_one: seen.for_one,
        failing: seen.failing,
        remote: seen.remote,
    })
}
