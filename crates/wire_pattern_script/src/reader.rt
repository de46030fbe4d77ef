//! From bytes to a pattern.

ghost use Rattle.std.specs.Prelude.{◌≡◌, ◌≤◌, ◌<◌, ◌^◌, ◌⊎◌, Ok, Err, length, map, IfOk, IfErr};
ghost use Rattle.wire_pattern.specs.Views.{job_by, role_by};
ghost use Rattle.wire_pattern_script.specs.Reads.{ReadsPattern, ReadsShort, PatternReadsOnce, judged_pattern};
ghost use Rattle.wire_pattern_script.specs.Reads.{most_bytes};
ghost use Rattle.wire_pattern_script.specs.Numbers.{pattern_of as numbered_pattern};
ghost use Rattle.wire_pattern_script.specs.Faults.{roles_fault};
ghost use Rattle.wire_pattern_script.specs.Fit.{IsFit};
ghost use Rattle.wire_pattern_script.specs.Drafted.{declared_of};

use crate::draft::Draft;
use crate::first_pass::first_pass;
use crate::numbers::{numbered_roles, owned_jobs};
use crate::second_pass::second_fault;
use crate::third_pass::third_fault;
use std::alloc::{AllocError, Global};
use wire_lines::line_past;
use wire_pattern::{Job, Pattern, Role};
use wire_reader::Size;
use wire_types::Fault;

/// What a pattern's file says: its jobs, and its roles with their scripts. Of the faults of a file the first is given,
/// with its line: `TooLong`, `BadHeader`, `BadLine`, `Twice` or `TooMany` of the first pass over all lines, else
/// `UnknownName`, `BadLine` or `NotMember` of the second, else `BadLine` of the third, over loops that commit.
pub fn read_pattern(alloc: Global, bytes: &[u8]) -> Result<Pattern, Fault>
    ensures ok { IfOk result (λ p. ReadsPattern bytes.now (Ok p)) }
    ensures err { IfErr result (λ e. (e ≡ Fault.Memory) ⊎ ReadsPattern bytes.now (Err e)) }
{
    let most = Size::OfVersion.file_bytes();
    if bytes.len() > most {
        return Err(Fault::TooLong(line_past(bytes, most)));
    }
    read_short(alloc, bytes)
}

/// The pattern of a text within the limit of a file.
fn read_short(alloc: Global, bytes: &[u8]) -> Result<Pattern, Fault>
    requires { length bytes.now ≤ most_bytes }
    ensures ok { IfOk result (λ p. ReadsShort bytes.now (Ok p)) }
    ensures err { IfErr result (λ e. (e ≡ Fault.Memory) ⊎ ReadsShort bytes.now (Err e)) }
{
    let draft = first_pass(alloc, bytes)?;
    pattern_of(alloc, draft)
}

/// The first fault of the second pass, else of the third.
fn fault_of(jobs: &[Job], roles: &[Role]) -> Option<Fault>
    requires { length roles.now < 2 ^ 32 }
    ensures { result ≡ roles_fault (length jobs.now) (map role_by roles.now) }
{
    match second_fault(jobs.len(), roles) {
        Some(fault) => Some(fault),
        None => third_fault(roles),
    }
}

/// The jobs and the roles of a draft, with numbers for names.
fn numbered(alloc: Global, draft: &Draft) -> Result<(Vec<Job>, Vec<Role>), AllocError>
    ensures jobs { IfOk result (λ n. map job_by n.0.items ≡ (numbered_pattern (declared_of draft.now)).jobs) }
    ensures roles { IfOk result (λ n. map role_by n.1.items ≡ (numbered_pattern (declared_of draft.now)).roles) }
{
    let jobs = owned_jobs(alloc, &draft.jobs)?;
    let roles = numbered_roles(alloc, draft, &draft.roles)?;
    Ok((jobs, roles))
}

/// The pattern of a draft, unless it has a fault.
fn pattern_of(alloc: Global, draft: Draft) -> Result<Pattern, Fault>
    requires { IsFit (declared_of draft) }
    ensures ok { IfOk result (λ p. judged_pattern (numbered_pattern (declared_of draft.entry)) ≡ Ok p) }
    ensures err { IfErr result (λ e. (e ≡ Fault.Memory) ⊎ (judged_pattern (numbered_pattern (declared_of draft.entry)) ≡ Err e)) }
{
    let keeps = draft.keeps;
    let parts = numbered(alloc, &draft);
    drop(draft);
    let (jobs, roles) = parts?;
    match fault_of(&jobs, &roles) {
        Some(fault) => {
            drop(jobs);
            drop(roles);
            Err(fault)
        }
        None => Ok(Pattern::new(keeps, jobs, roles)),
    }
}

/// A law: a text reads as at most one value.
pub fn pattern_reads_once()
    ensures { PatternReadsOnce }
{}
