//! How many processes of each group are looked at where nothing waits with few of them.

ghost use Rattle.std.specs.Prelude.{◌≡◌, ◌+◌, ◌==◌, ℕ, suc, max, count_by, flat_map, map, OnOk, IfOk};
ghost use Rattle.std.specs.List.{list_any};
ghost use Rattle.wire_pattern.specs.Views.{view_call, line_by, step_by, role_by};
ghost use Rattle.wire_pattern_later.specs.Through as spec;

use std::alloc::AllocError;
use wire_pattern::{Call, Line, Pattern, Role, Step};

/// Whether others wait for what a call does.
fn is_awaited(call: &Call) -> bool
    ensures { result ≡ spec.is_awaited (view_call call.now) }
{
    match call {
        Call::Commit | Call::Publish { .. } | Call::Fence { .. } => true,
        _ => false,
    }
}

/// Whether a call can wait.
fn may_wait(call: &Call) -> bool
    ensures { result ≡ spec.may_wait (view_call call.now) }
{
    match call {
        Call::Get { .. } | Call::LookupWait { .. } | Call::Fence { .. } => true,
        _ => false,
    }
}

/// Whether the call of one of these lines can wait.
fn any_waits(lines: &[Line]) -> bool
    ensures { result ≡ list_any (λ l. spec.may_wait l.call) (map line_by lines.now) }
{
    for line in lines {
        if may_wait(&line.call) {
            return true;
        }
    }
    false
}

/// Whether a line at or behind the first that others wait for can wait.
fn waits_behind(lines: &[Line]) -> bool
    ensures { result ≡ spec.waits_behind (map line_by lines.now) }
{
    for (number, line) in lines.iter().enumerate() {
        if is_awaited(&line.call) {
            return any_waits(&lines[number..]);
        }
    }
    false
}

/// Whether a step is a through loop over this role.
fn is_through(role: u32, step: &Step) -> bool
    ensures { result ≡ spec.is_through role (step_by step.now) }
{
    match step {
        Step::Once(_) => false,
        Step::Loop {
            number: _,
            group,
            turns: _,
            lines,
        } => *group == role && waits_behind(lines.as_slice()),
    }
}

/// How many of these steps are.
fn count_in(steps: &[Step], role: u32) -> usize
    ensures { result ≡ count_by (spec.is_through role) (map step_by steps.now) }
{
    let mut count: usize = 0;
    for step in steps {
        if is_through(role, step) {
            count += 1;
        }
    }
    count
}

/// How many through loops the scripts of roles have over one of them. It fails only where there are more loops than any
/// memory holds.
fn through_count(roles: &[Role], role: u32) -> Result<usize, AllocError>
    ensures { IfOk result (λ n. n ≡ spec.through_count (map role_by roles.now) role) }
{
    let mut count: usize = 0;
    for other in roles {
        match count.checked_add(count_in(other.steps.as_slice(), role)) {
            Some(more) => count = more,
            None => return Err(AllocError),
        }
    }
    Ok(count)
}

/// How many they have over this role, of this number, if it is a group; none over a single role.
fn group_count(roles: &[Role], number: u32, role: &Role) -> Result<usize, AllocError>
    ensures { IfOk result (λ n. n ≡ spec.group_count (map role_by roles.now) number (role_by role.now)) }
{
    if role.single {
        return Ok(0);
    }
    let count = through_count(roles, number)?;
    Ok(count)
}

/// The most that those of a pattern have over one group.
fn most_through(pattern: &Pattern) -> Result<usize, AllocError>
    ensures { IfOk result (λ n. n ≡ spec.most_through pattern.now.roles 0 pattern.now.roles) }
{
    let roles = pattern.roles();
    let mut most: usize = 0;
    for (number, role) in roles.iter().enumerate() {
        most = most.max(group_count(roles, number as u32, role)?);
    }
    Ok(most)
}

/// The least number that all groups may have, 3 at least.
pub(crate) fn first_size(roles: &[Role]) -> u32
    ensures { result ≡ spec.first_size (map role_by roles.now) }
{
    let mut size: u32 = 3;
    for role in roles {
        size = size.max(role.least);
    }
    size
}

/// The number behind the largest that is looked at. It fails only where there are more loops than any memory holds.
pub(crate) fn end_size(pattern: &Pattern) -> Result<usize, AllocError>
    ensures { IfOk result (λ n. n ≡ suc (spec.last_size pattern.now.roles)) }
{
    let first = first_size(pattern.roles()) as usize + 1;
    match most_through(pattern)?.checked_add(2) {
        Some(end) => Ok(end.max(first)),
        None => Err(AllocError),
    }
}
