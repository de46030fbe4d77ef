//! Stages, as a table of the lines of a pattern.

ghost use Rattle.std.specs.Prelude.{◌≡◌};
ghost use Rattle.wire_pattern_stages.specs.Views as spec;
ghost use Rattle.std.specs.Prelude.{slice_get};

use std::alloc::Global;

/// By which process the turns of a stage come in order: by none, the caller, the one that the turn is for, or the lower
/// or the higher of these two.
#[derive(Clone, Copy)]
pub(crate) enum By {
    Nothing,
    Caller,
    Other,
    Lower,
    Higher,
}

/// The stage of a line; by which processes the turns of this stage come in order; and the position of the line in a
/// turn.
#[derive(Clone, Copy)]
pub(crate) struct Stage {
    pub(crate) stage: u32,
    pub(crate) first: By,
    pub(crate) second: By,
    pub(crate) position: u32,
}

/// The stage of a line, and that of leaving its fence.
#[derive(Clone, Copy)]
pub(crate) struct LineStages {
    pub(crate) enter: Stage,
    pub(crate) leave: Stage,
}

/// Of each role, step and line its stages.
#[derive(Drop)]
pub(crate) struct Stages {
    pub(crate) rows: Vec<Vec<Vec<LineStages>>>,
}

impl Stages {
    /// These stages, or where there are none those of no line.
    pub(crate) fn or_none(alloc: Global, found: Option<Stages>) -> Stages {
        match found {
            Some(stages) => stages,
            None => Stages {
                rows: Vec::new(alloc),
            },
        }
    }
}

/// The stages of a line that isn't there.
const NONE: Stage = Stage {
    stage: 0,
    first: By::Nothing,
    second: By::Nothing,
    position: 0,
};

/// The stages of a line of a step.
fn at_line(lines: &[LineStages], line: usize) -> LineStages
    ensures { result ≡ spec.of_line (slice_get lines.now line) }
{
    match lines.get(line) {
        Some(stages) => *stages,
        None => LineStages {
            enter: NONE,
            leave: NONE,
        },
    }
}

/// The stages of a line of a script.
fn at_step(steps: &[Vec<LineStages>], step: usize, line: usize) -> LineStages
    ensures { result ≡ spec.of_step line (slice_get steps.now step) }
{
    match steps.get(step) {
        Some(lines) => at_line(lines.as_slice(), line),
        None => at_line(&[], line),
    }
}

/// The stages of a line of a role.
pub(crate) fn at_role(
    rows: &[Vec<Vec<LineStages>>],
    role: u32,
    step: usize,
    line: usize,
) -> LineStages
    ensures { result ≡ spec.of_role step line (slice_get rows.now role) }
{
    match rows.get(role as usize) {
        Some(steps) => at_step(steps.as_slice(), step, line),
        None => at_line(&[], line),
    }
}
