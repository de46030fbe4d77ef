//! What is told of the get-now lines of a pattern.

ghost use Rattle.std.specs.Prelude.{◌≡◌, ◌≢◌, ◌<◌, ◌^◌, [], IfOk, map, if◌then◌else◌};
ghost use Rattle.wire_pattern_answers.specs.Answers.{Answers, AreAnswers};
ghost use Rattle.wire_pattern_answers.specs.Lines.{get_now_lines};
ghost use Rattle.wire_pattern_answers.specs.Notes as spec;
ghost use Rattle.wire_pattern_answers.specs.Notes.{AreTold};
ghost use Rattle.wire_cutoff.specs.Selections.{most_sizes};
ghost use Rattle.wire_cutoff_laws.specs.Promised.{IsSettledForAll};
ghost use Rattle.wire_cutoff_laws.specs.Sizes.{total_of};

use crate::answers::LineAnswers;
use crate::laws::three_statuses;
use crate::lines::lines_of;
use crate::told::StatusesByLine;
use std::alloc::{AllocError, Global};
use wire_instance_laws::laws::instances_read;
use wire_pattern::Pattern;
use wire_pattern_waits::CallLine;

/// The get-now lines of a pattern, in the order of roles and lines, if they are asked for.
pub fn asked_lines(
    alloc: Global,
    pattern: &Pattern,
    asked: bool,
) -> Result<Vec<CallLine>, AllocError>
    ensures { IfOk result (λ v. v.items ≡ (if asked then get_now_lines pattern.now else [])) }
{
    if !asked {
        return Ok(Vec::new(alloc));
    }
    let lines = lines_of(alloc, pattern)?;
    Ok(lines)
}

/// What is told of these lines.
fn answers_by(
    alloc: Global,
    told: &StatusesByLine,
    lines: &[CallLine],
) -> Result<Vec<LineAnswers>, AllocError>
    ensures { IfOk result (λ v. v.items ≡ map (spec.told_of told.now) lines.now) }
{
    let mut answers = Vec::with_capacity(alloc, lines.len())?;
    for line in lines {
        answers.push(told.of_line(*line))?;
    }
    Ok(answers)
}

/// What is told of the get-now lines of a pattern in which nothing is found: if that is with which statuses they are
/// answered in the instances that are judged, on any nodes, then each line with these statuses, and no others. Of no
/// line nothing has to be told.
pub fn told_answers(
    alloc: Global,
    pattern: &Pattern,
    told: &StatusesByLine,
    lines: &[CallLine],
) -> Result<Vec<LineAnswers>, AllocError>
    requires { total_of (most_sizes pattern.now.roles) < 2 ^ 31 }
    ensures { IfOk result (λ v. lines.now ≡ get_now_lines pattern.now → IsSettledForAll pattern.now
        → (lines.now ≢ [] → AreTold told.now (Answers pattern.now)) → AreAnswers pattern.now v.items) }
{
    // The pattern is sound.
    let _roles = pattern.roles();
    instances_read();
    three_statuses();
    let answers = answers_by(alloc, told, lines)?;
    Ok(answers)
}
