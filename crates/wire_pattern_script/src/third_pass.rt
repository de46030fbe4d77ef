//! The third pass: loops that commit.

ghost use Rattle.std.specs.Prelude.{◌≡◌, map, false};
ghost use Rattle.wire_pattern.specs.Lawful as pattern;
ghost use Rattle.wire_pattern.specs.Views.{view_call, line_by, step_by, role_by};
ghost use Rattle.wire_pattern_script.specs.Faults as spec;

use wire_pattern::{Call, Line, Role, Step};
use wire_types::Fault;

/// Whether a put waits for a commit after a call, where it does or doesn't before.
fn waits_after(waits: bool, call: &Call) -> bool
    ensures { result ≡ pattern.waits_after waits (view_call call.now) }
{
    match call {
        Call::Put { .. } => true,
        Call::Commit => false,
        _ => waits,
    }
}

/// The same after some lines.
fn waits_after_all(before: bool, lines: &[Line]) -> bool
    ensures { result ≡ pattern.waits_after_all before (map line_by lines.now) }
{
    let mut waits = before;
    for line in lines {
        waits = waits_after(waits, &line.call);
    }
    waits
}

/// The same after a step.
fn waits_after_step(waits: bool, step: &Step) -> bool
    ensures { result ≡ pattern.waits_after_step waits (step_by step.now) }
{
    match step {
        Step::Once(line) => waits_after(waits, &line.call),
        Step::Loop { lines, .. } => waits || waits_after_all(waits, lines),
    }
}

/// Whether a call is a commit.
fn is_commit(call: &Call) -> bool
    ensures { result ≡ pattern.is_commit (view_call call.now) }
{
    matches!(call, Call::Commit)
}

/// Whether the call of a line is a commit.
fn commits(line: &Line) -> bool
    ensures { result ≡ pattern.is_commit (line_by line.now).call }
{
    is_commit(&line.call)
}

/// The number of the first line with a commit.
fn commit_line(lines: &[Line]) -> Option<u64>
    ensures { result ≡ spec.commit_line (map line_by lines.now) }
{
    for line in lines {
        if commits(line) {
            return Some(line.number);
        }
    }
    None
}

/// The fault of a loop that commits where a put waits, when it begins or when a turn ends.
fn commit_fault(waits: bool, step: &Step) -> Option<Fault>
    ensures { result ≡ spec.commit_fault waits (step_by step.now) }
{
    match step {
        Step::Once(_) => None,
        Step::Loop { lines, .. } => match commit_line(lines) {
            Some(number) if waits || waits_after_all(false, lines) => Some(Fault::BadLine(number)),
            _ => None,
        },
    }
}

/// The first fault of a script's loops.
fn commits_fault(steps: &[Step]) -> Option<Fault>
    ensures { result ≡ spec.commits_fault false (map step_by steps.now) }
{
    let mut waits = false;
    for step in steps {
        if let Some(fault) = commit_fault(waits, step) {
            return Some(fault);
        }
        waits = waits_after_step(waits, step);
    }
    None
}

/// The first fault of the loops of these roles' scripts.
pub fn third_fault(roles: &[Role]) -> Option<Fault>
    ensures { result ≡ spec.third_fault (map role_by roles.now) }
{
    for role in roles {
        if let Some(fault) = commits_fault(&role.steps) {
            return Some(fault);
        }
    }
    None
}
