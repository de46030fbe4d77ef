//! The word of a fence's set in the canonical text.

ghost use Rattle.std.specs.Prelude.{◌≡◌, ℕ, ◌<◌, ◌==◌, ◌++◌, not, length, slice_index_or, vec_len, false};
ghost use Rattle.std.specs.Prelude.{OnOk, IfOk};
ghost use Rattle.std.specs.List.{list_any};
ghost use Rattle.std.specs.Str.{bytes_eq as same_members};
ghost use Rattle.wire_runs.specs.Fences.{is_member};
ghost use Rattle.wire_types.specs.Said as said;
ghost use Rattle.wire_types.specs.Said.{spelled_set};
ghost use Rattle.wire_scripts.specs.Scripts.{numbers_of, set_at};
ghost use Rattle.wire_scripts.specs.Canonical.{process_at, rank_at, job_members, is_whole};
ghost use Rattle.wire_scripts.specs.Canonical.{process_items, set_items, set_said, items_text};

use crate::scripts::Scripts;
use std::alloc::{AllocError, Global};
use wire_types::{Proc, write_proc};

/// The numbers of a process's job and its rank there, 0 and 0 where there is no such process.
pub fn job_and_rank(scripts: &Scripts, proc: Proc) -> (u32, u32)
    ensures job { result.0 ≡ (process_at scripts.now proc.number).job }
    ensures rank { result.1 ≡ rank_at scripts.now proc.number }
{
    match scripts.processes().get(proc.index()) {
        Some(process) => (process.job(), process.rank()),
        None => (0, 0),
    }
}

/// Whether each process, by its number, is in a set.
pub(crate) fn presence(alloc: Global, set: &[Proc], count: usize) -> Result<Vec<bool>, AllocError>
    ensures len { IfOk result (λ v. vec_len v ≡ count) }
    ensures present { IfOk result (λ v. (p : ℕ) → p < count
        → slice_index_or v.items p false ≡ is_member (numbers_of set.now) p) }
{
    let mut present = vec![in alloc; false; count]?;
    for member in set {
        if let Some(slot) = present.get_mut(member.index()) {
            *slot = true;
        }
    }
    Ok(present)
}

/// The jobs of which a process isn't in a set, each once.
fn broken_jobs(alloc: Global, scripts: &Scripts, set: &[Proc]) -> Result<Vec<u32>, AllocError>
    ensures { IfOk result (λ v. (job : ℕ) →
        list_any (λ j. j == job) v.items ≡ not (is_whole scripts.now.processes (numbers_of set.now) job)) }
{
    let present = presence(alloc, set, scripts.processes().len())?;
    let mut broken = Vec::new(alloc);
    for (number, process) in scripts.processes().iter().enumerate() {
        if !present[number] && !broken.contains(&process.job()) {
            broken.push(process.job())?;
        }
    }
    Ok(broken)
}

/// Whether a set is just the processes of a job.
fn is_job(scripts: &Scripts, set: &[Proc], job: u32) -> bool
    ensures { result ≡ same_members (numbers_of set.now) (job_members scripts.now.processes job) }
{
    let mut rest = set;
    for (number, process) in scripts.processes().iter().enumerate() {
        if process.job() == job {
            match rest.split_first() {
                Some((member, others)) if member.index() == number => rest = others,
                _ => return false,
            }
        }
    }
    rest.is_empty()
}

/// Writes a process, or all of its job where the process is the job's first, with a comma after it.
fn write_item(
    out: &mut Vec<u8>,
    scripts: &Scripts,
    member: Proc,
    whole: bool,
) -> Result<(), AllocError>
    ensures { OnOk result (out.new.items ≡ out.old.items
        ++ items_text (process_items scripts.now whole member.number)) }
{
    let (job, rank) = job_and_rank(scripts, member);
    if !whole {
        write_proc(out, scripts.jobs().text(job), rank)?;
        out.push(b',')?;
    } else if rank == 0 {
        out.extend_from_slice(scripts.jobs().text(job))?;
        out.extend_from_slice(b":*,".as_slice())?;
    }
    Ok(())
}

/// The items of a set in process order, with commas between them.
fn listed_word(alloc: Global, scripts: &Scripts, set: &[Proc]) -> Result<Vec<u8>, AllocError>
    ensures { IfOk result (λ w.
        w.items ≡ spelled_set (said.Listed (set_items scripts.now (numbers_of set.now)))) }
{
    let broken = broken_jobs(alloc, scripts, set)?;
    let mut word = Vec::new(alloc);
    for member in set {
        let (job, _) = job_and_rank(scripts, *member);
        write_item(&mut word, scripts, *member, !broken.contains(&job))?;
    }
    word.pop();
    Ok(word)
}

/// The word of a set in a fence of a process of this job.
pub fn set_word(alloc: Global, scripts: &Scripts, job: u32, set: u32) -> Result<Vec<u8>, AllocError>
    ensures { IfOk result (λ w.
        w.items ≡ spelled_set (set_said scripts.now job (set_at scripts.now.sets set))) }
{
    let members = scripts.sets().members(set);
    if is_job(scripts, members, job) {
        Vec::from_slice(alloc, b"all".as_slice())
    } else {
        listed_word(alloc, scripts, members)
    }
}
