//! The processes that a call names.

ghost use Rattle.std.specs.Prelude.{◌≡◌, ◌↔◌, ◌+◌, ◌≤◌, ◌<◌, ◌==◌, ℕ, Some, true, false, map, length, slice_get};
ghost use Rattle.std.specs.Prelude.{IfOk, OnOk, IfSome, IfNone};
ghost use Rattle.wire_lines.specs.Views.{view_item};
ghost use Rattle.wire_scripts.specs.Scripts.{numbers_of};
ghost use Rattle.wire_reader.specs.Reads as spec;
ghost use Rattle.wire_reader.specs.FirstPass as pass;
ghost use Rattle.wire_reader.specs.Targets.{is_target, is_any_target, is_declared_target, named_in, target_by};
ghost use Rattle.wire_reader.specs.Targets.{IsRangeOf, AddsRange, AreTargetNumbers};
ghost use Rattle.wire_reader.specs.Within.{IsWithinLimits, IsDeclared};
ghost use Rattle.wire_reader.specs.Drafted.{declared_of, started_of};
ghost use Rattle.std.specs.List.{position_or_len, list_all};

use crate::draft::{Draft, Started};
use indexmap::IndexSet;
use std::alloc::{AllocError, Global};
use wire_lines::{Item, ProcName};
use wire_types::Proc;

/// What an item of a set names, with the number of the job.
#[derive(Clone, Copy, PartialEq, Eq, Hash)]
pub enum Target {
    One { job: u32, rank: u32 },
    Every { job: u32 },
}

/// Whether a process is that of this job and rank.
fn is_proc(job: u32, rank: u32, process: &Started) -> bool
    ensures { result ≡ spec.is_proc job rank (started_of process.now) }
{
    process.job == job && process.rank == rank
}

/// How many processes stand before those of a job: none before those of the first, the only job of most plans.
fn count_before(draft: &Draft, job: u32) -> usize
    requires declared { IsDeclared (declared_of draft.now) }
    ensures within { result ≤ length draft.now.processes.items }
    ensures place { (k : ℕ) (p : pass.Started) → slice_get (map started_of draft.now.processes.items) k ≡ Some p
        → p.job ≡ job → result + p.rank ≡ k }
    ensures those { (k : ℕ) (p : pass.Started) → slice_get (map started_of draft.now.processes.items) k ≡ Some p
        → (k < result) ↔ (p.job < job) }
{
    if job == 0 {
        return 0;
    }
    draft.processes.partition_point(|process| process.job < job)
}

/// The number of the process of a job and a rank, or that of all where there is none. The ranks of a job
/// count its processes, which stand together.
fn place_of(draft: &Draft, job: u32, rank: u32) -> usize
    requires within { IsWithinLimits (declared_of draft.now) }
    requires declared { IsDeclared (declared_of draft.now) }
    ensures place { result ≡ position_or_len (spec.is_proc job rank) (map started_of draft.now.processes.items) }
    ensures within { result ≤ length draft.now.processes.items }
{
    let place = count_before(draft, job) + rank as usize;
    let Some(process) = draft.processes.get(place) else {
        return draft.processes.len();
    };
    if is_proc(job, rank, process) {
        place
    } else {
        draft.processes.len()
    }
}

/// The process that a name names.
#[tactic(auto, unfolding(crate::specs::Reads::has_proc))]
pub fn proc_of(draft: &Draft, name: ProcName) -> Option<Proc>
    requires within { IsWithinLimits (declared_of draft.now) }
    requires declared { IsDeclared (declared_of draft.now) }
    ensures declared { IfSome result
        (λ p. spec.has_proc (declared_of draft.now) name.entry.job.now name.entry.rank ≡ true) }
    ensures number { IfSome result
        (λ p. p.number ≡ spec.proc_number (declared_of draft.now) name.entry.job.now name.entry.rank) }
    ensures none { IfNone result (spec.has_proc (declared_of draft.now) name.entry.job.now name.entry.rank ≡ false) }
{
    let job = draft.jobs.number_or_count(name.job);
    let place = place_of(draft, job, name.rank);
    if place < draft.processes.len() {
        Some(Proc::new(place as u32))
    } else {
        None
    }
}

/// What an item names, declared or not.
fn target_of(draft: &Draft, item: &Item) -> Target
    ensures { result ≡ target_by (declared_of draft.now) (view_item item.now) }
{
    match item {
        Item::One(name) => Target::One {
            job: draft.jobs.number_or_count(name.job),
            rank: name.rank,
        },
        Item::Every(name) => Target::Every {
            job: draft.jobs.number_or_count(name),
        },
    }
}

/// What items name, declared or not.
pub fn find_targets(alloc: Global, draft: &Draft, items: &[Item]) -> Result<Vec<Target>, AllocError>
    ensures { IfOk result (λ v. v.items ≡ map (target_by (declared_of draft.now)) (map view_item items.now)) }
{
    let mut targets = Vec::with_capacity(alloc, items.len())?;
    for item in items {
        targets.push(target_of(draft, item))?;
    }
    Ok(targets)
}

/// Whether what an item of a set names is declared.
fn is_declared(draft: &Draft, target: Target) -> bool
    requires within { IsWithinLimits (declared_of draft.now) }
    requires declared { IsDeclared (declared_of draft.now) }
    ensures { result ≡ is_declared_target (declared_of draft.now) target }
{
    match target {
        Target::One { job, rank } => place_of(draft, job, rank) < draft.processes.len(),
        Target::Every { job } => job < draft.jobs.len(),
    }
}

/// Whether all that is named is declared.
pub fn are_declared(draft: &Draft, targets: &[Target]) -> bool
    requires within { IsWithinLimits (declared_of draft.now) }
    requires declared { IsDeclared (declared_of draft.now) }
    ensures { result ≡ list_all (is_declared_target (declared_of draft.now)) targets.now }
{
    for target in targets {
        if !is_declared(draft, *target) {
            return false;
        }
    }
    true
}

/// Whether a process is what an item of a set names.
fn is_target_of(target: Target, process: &Started) -> bool
    ensures { result ≡ is_target target (started_of process.now) }
{
    match target {
        Target::One { job, rank } => is_proc(job, rank, process),
        Target::Every { job } => process.job == job,
    }
}

/// Whether a process is one of those that are named.
pub fn is_named(targets: &[Target], process: &Started) -> bool
    ensures { result ≡ is_any_target targets.now (started_of process.now) }
{
    targets.iter().any(|target| is_target_of(*target, process))
}

/// What is named, each once, which keeps long sets cheap.
fn gather_distinct(alloc: Global, targets: &[Target]) -> Result<IndexSet<Target>, AllocError>
    ensures { IfOk result (λ s. (p : pass.Started) → is_any_target s.keys p ≡ is_any_target targets.now p) }
{
    let mut kept = IndexSet::new(alloc);
    for target in targets {
        kept.insert_full(*target)?;
    }
    Ok(kept)
}

/// How many processes stand before those of the next job.
fn count_through(draft: &Draft, job: u32) -> usize
    requires declared { IsDeclared (declared_of draft.now) }
    ensures within { result ≤ length draft.now.processes.items }
    ensures those { (k : ℕ) (p : pass.Started) → slice_get (map started_of draft.now.processes.items) k ≡ Some p
        → (k < result) ↔ (p.job ≤ job) }
{
    draft
        .processes
        .partition_point(|process| process.job <= job)
}

/// The processes that a target names, from the first number to below the second: they stand together.
fn range_of(draft: &Draft, target: Target) -> (u32, u32)
    requires within { IsWithinLimits (declared_of draft.now) }
    requires declared { IsDeclared (declared_of draft.now) }
    ensures { IsRangeOf (declared_of draft.now) target result.0 result.1 }
{
    match target {
        Target::One { job, rank } => {
            let place = place_of(draft, job, rank);
            (place as u32, draft.processes.len().min(place + 1) as u32)
        }
        Target::Every { job } => {
            let first = count_before(draft, job);
            (first as u32, count_through(draft, job) as u32)
        }
    }
}

/// Adds the numbers from one to below another.
fn add_range(numbers: &mut Vec<u32>, first: u32, past: u32) -> Result<(), AllocError>
    ensures { OnOk result (AddsRange first past numbers.old.items numbers.new.items) }
{
    for number in first..past {
        numbers.push(number)?;
    }
    Ok(())
}

/// The numbers of the processes that are named, as they come.
fn gather_numbers(alloc: Global, draft: &Draft, targets: &[Target]) -> Result<Vec<u32>, AllocError>
    requires within { IsWithinLimits (declared_of draft.now) }
    requires declared { IsDeclared (declared_of draft.now) }
    ensures { IfOk result (λ v. AreTargetNumbers (declared_of draft.now) targets.now v.items) }
{
    let mut numbers = Vec::with_capacity(alloc, targets.len())?;
    for target in targets {
        let (first, past) = range_of(draft, *target);
        add_range(&mut numbers, first, past)?;
    }
    Ok(numbers)
}

/// The numbers of the processes that are named, each once, in process order.
fn sort_numbers(alloc: Global, draft: &Draft, targets: &[Target]) -> Result<Vec<u32>, AllocError>
    requires within { IsWithinLimits (declared_of draft.now) }
    requires declared { IsDeclared (declared_of draft.now) }
    ensures { IfOk result (λ v. v.items ≡ named_in (declared_of draft.now) targets.now) }
{
    let mut numbers = gather_numbers(alloc, draft, targets)?;
    numbers.sort_unstable();
    numbers.dedup();
    Ok(numbers)
}

/// The processes of these numbers.
fn procs_of(alloc: Global, numbers: &[u32]) -> Result<Vec<Proc>, AllocError>
    ensures { IfOk result (λ v. numbers_of v.items ≡ numbers.now) }
{
    let mut procs = Vec::with_capacity(alloc, numbers.len())?;
    for number in numbers {
        procs.push(Proc::new(*number))?;
    }
    Ok(procs)
}

/// The members of the set of what is named.
pub fn named_members(
    alloc: Global,
    draft: &Draft,
    targets: &[Target],
) -> Result<Vec<Proc>, AllocError>
    requires within { IsWithinLimits (declared_of draft.now) }
    requires declared { IsDeclared (declared_of draft.now) }
    ensures { IfOk result (λ v. numbers_of v.items ≡ named_in (declared_of draft.now) targets.now) }
{
    let kept = gather_distinct(alloc, targets)?;
    let numbers = sort_numbers(alloc, draft, kept.as_slice())?;
    procs_of(alloc, &numbers)
}
