//! What is said of instances that are larger than those that are judged.

ghost use Rattle.std.specs.Prelude.{◌≡◌, ◌++◌, ◌==◌, ◌&&◌, [], true, min, map, codes, decimal, OnOk, IfOk, IfErr, if◌then◌else◌};
ghost use Rattle.std.specs.List.{list_all, list_any};
ghost use Rattle.wire_pattern.specs.Views.{role_by};
ghost use Rattle.wire_size_laws.specs.Stages.{Stages};
ghost use Rattle.wire_reply_laws.specs.Promised.{AllStaged};
ghost use Rattle.wire_cutoff.specs.Judged.{IsJudgeFault};
ghost use Rattle.wire_cutoff_laws.specs.Sizes as sizes;
ghost use Rattle.wire_pattern_commands.specs.Beyond as spec;
ghost use Rattle.wire_pattern_commands.specs.Found.{IsFoundBeyond};

use std::alloc::{AllocError, Global};
use wire_cutoff::most_of;
use wire_pattern::{Pattern, Role};
use wire_pattern_later::{Later, later_lines, write_later};
use wire_pattern_stages::Waiting;
use wire_types::Fault;
use wire_words::push_number;

/// What is known of calls that wait in larger instances.
#[derive(Drop)]
pub(crate) enum Beyond {
    /// Something waits in those that are judged: no more is said.
    Unsaid,
    /// No call waits in any instance.
    Never,
    /// With so many ranks of each group something waits first.
    First(Later),
    /// Nothing waits as far as it looks.
    Unknown,
}

impl Beyond {
    /// Whether it is known that every call is answered with each number of ranks that there can be.
    pub(crate) fn is_known_answered(&self) -> bool
        ensures { result ≡ spec.is_known_answered self.now }
    {
        match self {
            Beyond::Never => true,
            Beyond::Unsaid | Beyond::First(_) | Beyond::Unknown => false,
        }
    }
}

/// Where something waits first, as far as it looks.
fn find_first(alloc: Global, pattern: &Pattern) -> Result<Beyond, Fault>
    ensures ok { IfOk result (λ beyond. IsFoundBeyond pattern.now [] beyond) }
    ensures err { IfErr result (λ e. IsJudgeFault pattern.now e) }
{
    match later_lines(alloc, pattern)? {
        Some(later) => Ok(Beyond::First(later)),
        None => Ok(Beyond::Unknown),
    }
}

/// What is known of larger instances, by what those show that are judged.
pub(crate) fn find_beyond(
    alloc: Global,
    pattern: &Pattern,
    waiting: &Waiting,
) -> Result<Beyond, Fault>
    requires { waiting.now.staged ≡ true → (stages : Stages) × AllStaged pattern.now stages }
    ensures ok { IfOk result (λ beyond. IsFoundBeyond pattern.now waiting.now.lines.items beyond) }
    ensures err { IfErr result (λ e. IsJudgeFault pattern.now e) }
{
    if !waiting.lines.as_slice().is_empty() {
        return Ok(Beyond::Unsaid);
    }
    if waiting.staged {
        return Ok(Beyond::Never);
    }
    let beyond = find_first(alloc, pattern)?;
    Ok(beyond)
}

/// The smaller of this number, unless it is 0, and of how many processes of the role are judged, if it is a group.
fn smaller(size: u32, role: &Role) -> u32
    ensures { result ≡ (if role.now.single then size else if size == 0 then sizes.most_of (role_by role.now)
        else min size (sizes.most_of (role_by role.now))) }
{
    if role.single {
        size
    } else if size == 0 {
        most_of(role)
    } else {
        size.min(most_of(role))
    }
}

/// The smallest of how many processes of each group are judged at most, 0 where there is no group.
fn smallest_size(roles: &[Role]) -> u32
    ensures { result ≡ spec.smallest 0 (map role_by roles.now) }
{
    let mut size: u32 = 0;
    for role in roles {
        size = smaller(size, role);
    }
    size
}

/// Whether a role is a group.
fn is_group(role: &Role) -> bool
    ensures { result ≡ spec.is_group (role_by role.now) }
{
    !role.single
}

/// Whether one of these roles is.
fn any_group(roles: &[Role]) -> bool
    ensures { result ≡ spec.has_groups (map role_by roles.now) }
{
    for role in roles {
        if is_group(role) {
            return true;
        }
    }
    false
}

/// Whether a pattern has a group.
fn has_groups(pattern: &Pattern) -> bool
    ensures { result ≡ spec.has_groups pattern.now.roles }
{
    any_group(pattern.roles())
}

/// Whether a role is single, or so many of its processes are judged at most.
fn has_most(size: u32, role: &Role) -> bool
    ensures { result ≡ spec.has_most size (role_by role.now) }
{
    role.single || most_of(role) == size
}

/// Whether so many processes of each group are judged at most.
fn have_most(size: u32, roles: &[Role]) -> bool
    ensures { result ≡ list_all (spec.has_most size) (map role_by roles.now) }
{
    for role in roles {
        if !has_most(size, role) {
            return false;
        }
    }
    true
}

/// What stands before the number of a group.
fn most_start(first: bool) -> &'static [u8]
    ensures { result.now ≡ (if first then codes "up to " else codes ", up to ") }
{
    if first {
        b"up to ".as_slice()
    } else {
        b", up to ".as_slice()
    }
}

/// Appends up to how many processes of a group are judged, nothing of a single role.
fn push_most(out: &mut Vec<u8>, first: bool, role: &Role) -> Result<(), AllocError>
    ensures { OnOk result (out.new.items ≡ out.old.items ++ spec.most_words first (role_by role.now)) }
{
    if role.single {
        return Ok(());
    }
    out.extend_from_slice(most_start(first))?;
    push_number(out, u64::from(most_of(role)))?;
    out.extend_from_slice(b" ranks of ")?;
    out.extend_from_slice(role.name.as_slice())
}

/// Whether no group has come yet, with this role behind others.
fn is_first_yet(first: bool, role: &Role) -> bool
    ensures { result ≡ first && (role_by role.now).single }
{
    first && role.single
}

/// Appends how many of each group are.
fn push_each_most(out: &mut Vec<u8>, roles: &[Role]) -> Result<(), AllocError>
    ensures { OnOk result (out.new.items ≡ out.old.items ++ spec.each_most true (map role_by roles.now)) }
{
    let mut first = true;
    for role in roles {
        push_most(out, first, role)?;
        first = is_first_yet(first, role);
    }
    Ok(())
}

/// Appends that so many of each group are.
fn push_same_most(out: &mut Vec<u8>, size: u32) -> Result<(), AllocError>
    ensures { OnOk result (out.new.items ≡ out.old.items ++ (codes "up to " ++ (decimal size ++ codes " ranks of each group"))) }
{
    out.extend_from_slice(b"up to ")?;
    push_number(out, size as u64)?;
    out.extend_from_slice(b" ranks of each group")
}

/// Appends which instances of these roles are judged.
fn push_roles(out: &mut Vec<u8>, roles: &[Role]) -> Result<(), AllocError>
    ensures { OnOk result (out.new.items ≡ out.old.items ++ spec.judged_words (map role_by roles.now)) }
{
    if !any_group(roles) {
        return out.extend_from_slice(b"the instances that are judged");
    }
    let size = smallest_size(roles);
    if have_most(size, roles) {
        push_same_most(out, size)
    } else {
        push_each_most(out, roles)
    }
}

/// Appends of which instances that are judged every call is known to be answered.
fn push_judged(out: &mut Vec<u8>, pattern: &Pattern) -> Result<(), AllocError>
    ensures { OnOk result (out.new.items ≡ out.old.items ++ spec.judged_words pattern.now.roles) }
{
    push_roles(out, pattern.roles())
}

/// Appends of which instances every call is known to be answered, nothing where some waits.
pub(crate) fn push_words(
    out: &mut Vec<u8>,
    pattern: &Pattern,
    beyond: &Beyond,
) -> Result<(), AllocError>
    ensures { OnOk result (out.new.items ≡ out.old.items ++ spec.answered_words pattern.now beyond.now) }
{
    match beyond {
        Beyond::Never => out.extend_from_slice(b"every number of ranks"),
        Beyond::Unknown => push_judged(out, pattern),
        Beyond::Unsaid | Beyond::First(_) => Ok(()),
    }
}

/// How the line ends that says so where it isn't known of other instances, of more ranks if there can be more.
fn unknown_end(more: bool) -> &'static [u8]
    ensures { result.now ≡ (if more then codes ", not known for more\n" else codes ", not known for others\n") }
{
    if more {
        b", not known for more\n".as_slice()
    } else {
        b", not known for others\n".as_slice()
    }
}

/// How it ends.
fn line_end(pattern: &Pattern, beyond: &Beyond) -> &'static [u8]
    ensures { result.now ≡ spec.line_end pattern.now beyond.now }
{
    match beyond {
        Beyond::Unknown => unknown_end(has_groups(pattern)),
        _ => b"\n".as_slice(),
    }
}

/// Appends the line that says so.
fn push_line(out: &mut Vec<u8>, pattern: &Pattern, beyond: &Beyond) -> Result<(), AllocError>
    ensures { OnOk result (out.new.items ≡ out.old.items ++ spec.said_line pattern.now beyond.now) }
{
    out.extend_from_slice(b"every call is answered for ")?;
    push_words(out, pattern, beyond)?;
    out.extend_from_slice(line_end(pattern, beyond))
}

/// Appends the lines that tell where something waits first.
pub(crate) fn push_first(
    out: &mut Vec<u8>,
    pattern: &Pattern,
    beyond: &Beyond,
) -> Result<(), AllocError>
    ensures { OnOk result (out.new.items ≡ out.old.items ++ spec.first_text pattern.now beyond.now) }
{
    match beyond {
        Beyond::First(later) => write_later(out, pattern, later.ranks, later.lines.as_slice()),
        Beyond::Unsaid | Beyond::Never | Beyond::Unknown => Ok(()),
    }
}

/// Appends all that is said of larger instances.
pub(crate) fn push_beyond(
    out: &mut Vec<u8>,
    pattern: &Pattern,
    beyond: &Beyond,
) -> Result<(), AllocError>
    ensures { OnOk result (out.new.items ≡ out.old.items ++ spec.beyond_text pattern.now beyond.now) }
{
    match beyond {
        Beyond::Unsaid => Ok(()),
        Beyond::First(_) => push_first(out, pattern, beyond),
        Beyond::Never | Beyond::Unknown => push_line(out, pattern, beyond),
    }
}
