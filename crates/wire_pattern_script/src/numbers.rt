//! Numbers for the names of jobs and roles.

ghost use Rattle.std.specs.Prelude.{◌≡◌, ◌++◌, map, flat_map, position, slice_get, IfOk, OnOk};
ghost use Rattle.std.specs.Str.{bytes_eq};
ghost use Rattle.wire_types.specs.Texts.{texts_of};
ghost use Rattle.wire_reader.specs.FirstPass.{number_or_count};
ghost use Rattle.wire_pattern.specs.Views as shown;
ghost use Rattle.wire_pattern.specs.Views.{who_by, indexed_by, line_by, step_by, role_by, job_by};
ghost use Rattle.wire_pattern_lines.specs.Views.{view_call, view_item, set_by, key_by, proc_by};
ghost use Rattle.wire_pattern_script.specs.FirstPass.{job_names};
ghost use Rattle.wire_pattern_script.specs.Numbers as spec;
ghost use Rattle.wire_pattern_script.specs.Drafted.{declared_of, role_of, step_of, loop_of, placed_of, job_of};

use crate::draft::{Draft, JobDraft, LocatedCall, LoopDraft, RoleDraft, StepDraft};
use crate::first_pass::{is_job_named, is_role_named};
use std::alloc::{AllocError, Global};
use wire_pattern::{Call, Indexed, Item, Job, Line, Role, Step, Who};
use wire_pattern_lines::{CallLine, Item as ItemLine, Key, Proc, Set};

/// The place of the role of this name.
fn place_of_role(roles: &[RoleDraft], name: &[u8]) -> Option<usize>
    ensures { result ≡ position (λ r. bytes_eq name.now r.name.now) roles.now }
{
    roles.iter().position(|role| is_role_named(role, name))
}

/// The place of the job of this name.
fn place_of_job(jobs: &[JobDraft], name: &[u8]) -> Option<usize>
    ensures { result ≡ position (λ j. bytes_eq name.now j.name.now) jobs.now }
{
    jobs.iter().position(|job| is_job_named(job, name))
}

/// The number of a role, or that of all where there is none of this name.
fn role_number(draft: &Draft, name: &[u8]) -> u32
    ensures { result ≡ spec.role_number (declared_of draft.now) name.now }
{
    match place_of_role(&draft.roles, name) {
        Some(number) => number as u32,
        None => draft.roles.len() as u32,
    }
}

/// The number of a job, or that of all where there is none of this name.
fn job_number(draft: &Draft, name: &[u8]) -> u32
    ensures { result ≡ number_or_count (job_names (declared_of draft.now)) name.now }
{
    match place_of_job(&draft.jobs, name) {
        Some(number) => number as u32,
        None => draft.jobs.len() as u32,
    }
}

/// A process with the number of its role.
fn who_of(draft: &Draft, proc: &Proc) -> Who
    ensures { who_by result ≡ spec.who_of (declared_of draft.now) (proc_by proc.now) }
{
    match proc {
        Proc::Caller => Who::Caller,
        Proc::Each => Who::Each,
        Proc::Named(role) => Who::Only(role_number(draft, role)),
    }
}

/// Processes with the numbers of their roles.
fn whos_of(alloc: Global, draft: &Draft, procs: &[Proc]) -> Result<Vec<Who>, AllocError>
    ensures { IfOk result (λ v. map who_by v.items ≡ map (spec.who_of (declared_of draft.now)) (map proc_by procs.now)) }
{
    let mut whos = Vec::with_capacity(alloc, procs.len())?;
    for proc in procs {
        let made = who_of(draft, proc);
        whos.push(made)?;
    }
    Ok(whos)
}

/// A key or a name with the numbers of its roles.
fn indexed_of(alloc: Global, draft: &Draft, key: &Key) -> Result<Indexed, AllocError>
    ensures { IfOk result (λ w. indexed_by w ≡ spec.indexed_of (declared_of draft.now) (key_by key.now)) }
{
    let base = Vec::from_slice(alloc, key.base)?;
    let indices = whos_of(alloc, draft, &key.indices)?;
    Ok(Indexed { base, indices })
}

/// Whether the role of this number is of one process.
fn is_single(draft: &Draft, role: u32) -> bool
    ensures { result ≡ spec.is_single_lines (slice_get (declared_of draft.now).roles role) }
{
    match draft.roles.get(role as usize) {
        Some(role) => role.single,
        None => false,
    }
}

/// A role in a set: its one process, or all of a group.
fn role_item(draft: &Draft, role: u32) -> Item
    ensures { shown.view_item result ≡ spec.role_item (declared_of draft.now) role }
{
    if is_single(draft, role) {
        Item::One(Who::Only(role))
    } else {
        Item::Group(role)
    }
}

/// An item of a set with numbers for its names.
fn item_of(draft: &Draft, item: &ItemLine) -> Item
    ensures { shown.view_item result ≡ spec.item_of (declared_of draft.now) (view_item item.now) }
{
    match item {
        ItemLine::One(Proc::Caller) => Item::One(Who::Caller),
        ItemLine::One(Proc::Each) => Item::One(Who::Each),
        ItemLine::One(Proc::Named(role)) => role_item(draft, role_number(draft, role)),
        ItemLine::Every(job) => Item::Job(job_number(draft, job)),
    }
}

/// The items of a list with numbers for their names.
fn listed_items(alloc: Global, draft: &Draft, items: &[ItemLine]) -> Result<Vec<Item>, AllocError>
    ensures { IfOk result (λ v. map shown.view_item v.items ≡ map (spec.item_of (declared_of draft.now)) (map view_item items.now)) }
{
    let mut numbered = Vec::with_capacity(alloc, items.len())?;
    for item in items {
        let made = item_of(draft, item);
        numbered.push(made)?;
    }
    Ok(numbered)
}

/// The items of a set that a process of this job names.
fn items_of(alloc: Global, draft: &Draft, job: u32, set: &Set) -> Result<Vec<Item>, AllocError>
    ensures { IfOk result (λ v. map shown.view_item v.items ≡ spec.items_of (declared_of draft.now) job (set_by set.now)) }
{
    match set {
        Set::Own => Vec::from_slice(alloc, &[Item::Job(job)]),
        Set::Listed(items) => listed_items(alloc, draft, items),
    }
}

/// A get of either kind with numbers for its names.
fn get_of(
    alloc: Global,
    draft: &Draft,
    is_now: bool,
    owner: &Proc,
    key: &Key,
) -> Result<Call, AllocError>
    ensures { IfOk result (λ c. shown.view_call c ≡ spec.get_of (declared_of draft.now) is_now (proc_by owner.now) (key_by key.now)) }
{
    let key = indexed_of(alloc, draft, key)?;
    let owner = who_of(draft, owner);
    if is_now {
        Ok(Call::GetNow { owner, key })
    } else {
        Ok(Call::Get { owner, key })
    }
}

/// A call of a process of this job with numbers for its names.
fn call_of(alloc: Global, draft: &Draft, job: u32, call: &CallLine) -> Result<Call, AllocError>
    ensures { IfOk result (λ c. shown.view_call c ≡ spec.call_of (declared_of draft.now) job (view_call call.now)) }
{
    match call {
        CallLine::Put { scope, key, value } => {
            let value = Vec::from_slice(alloc, value)?;
            let key = indexed_of(alloc, draft, key)?;
            let scope = *scope;
            Ok(Call::Put { scope, key, value })
        }
        CallLine::Commit => Ok(Call::Commit),
        CallLine::Fence { set, collect } => {
            let items = items_of(alloc, draft, job, set)?;
            let collect = *collect;
            Ok(Call::Fence { items, collect })
        }
        CallLine::Get { owner, key } => get_of(alloc, draft, false, owner, key),
        CallLine::GetNow { owner, key } => get_of(alloc, draft, true, owner, key),
        CallLine::Publish { name, value } => {
            let value = Vec::from_slice(alloc, value)?;
            let name = indexed_of(alloc, draft, name)?;
            Ok(Call::Publish { name, value })
        }
        CallLine::Lookup { name } => Ok(Call::Lookup {
            name: indexed_of(alloc, draft, name)?,
        }),
        CallLine::LookupWait { name } => Ok(Call::LookupWait {
            name: indexed_of(alloc, draft, name)?,
        }),
        CallLine::Unpublish { name } => Ok(Call::Unpublish {
            name: indexed_of(alloc, draft, name)?,
        }),
        CallLine::UnpublishAll => Ok(Call::UnpublishAll),
    }
}

/// A line of a process of this job with numbers for its names.
fn line_of(alloc: Global, draft: &Draft, job: u32, line: &LocatedCall) -> Result<Line, AllocError>
    ensures { IfOk result (λ l. line_by l ≡ spec.line_of (declared_of draft.now) job (placed_of line.now)) }
{
    let call = call_of(alloc, draft, job, &line.call)?;
    Ok(Line {
        number: line.number,
        call,
    })
}

/// Lines of a process of this job with numbers for their names.
fn numbered_lines(
    alloc: Global,
    draft: &Draft,
    job: u32,
    lines: &[LocatedCall],
) -> Result<Vec<Line>, AllocError>
    ensures { IfOk result (λ v. map line_by v.items ≡ map (spec.line_of (declared_of draft.now) job) (map placed_of lines.now)) }
{
    let mut numbered = Vec::with_capacity(alloc, lines.len())?;
    for line in lines {
        let made = line_of(alloc, draft, job, line)?;
        numbered.push(made)?;
    }
    Ok(numbered)
}

/// The loop of a process of this job over one of its roles, with numbers for its names.
fn loop_over(
    alloc: Global,
    draft: &Draft,
    job: u32,
    begun: &LoopDraft,
    role: &[u8],
) -> Result<Step, AllocError>
    ensures { IfOk result (λ s. step_by s ≡ spec.loop_of (declared_of draft.now) job (loop_of begun.now) role.now) }
{
    let lines = numbered_lines(alloc, draft, job, &begun.lines)?;
    Ok(Step::Loop {
        number: begun.number,
        group: role_number(draft, role),
        turns: begun.turns,
        lines,
    })
}

/// Gives these steps a loop over each role of a loop, with numbers for its names.
fn add_loops(
    alloc: Global,
    draft: &Draft,
    job: u32,
    begun: &LoopDraft,
    numbered: &mut Vec<Step>,
) -> Result<(), AllocError>
    ensures { OnOk result (map step_by numbered.new.items
        ≡ map step_by numbered.old.items ++ map (spec.loop_of (declared_of draft.now) job (loop_of begun.now)) (texts_of begun.now.roles.items)) }
{
    let roles = begun.roles.as_slice();
    for role in roles {
        let made = loop_over(alloc, draft, job, begun, role)?;
        numbered.push(made)?;
    }
    Ok(())
}

/// Gives these steps those of a step of a process of this job, with numbers for its names.
fn add_steps(
    alloc: Global,
    draft: &Draft,
    job: u32,
    step: &StepDraft,
    numbered: &mut Vec<Step>,
) -> Result<(), AllocError>
    ensures { OnOk result (map step_by numbered.new.items
        ≡ map step_by numbered.old.items ++ spec.steps_of (declared_of draft.now) job (step_of step.now)) }
{
    match step {
        StepDraft::Once(line) => {
            let made = line_of(alloc, draft, job, line)?;
            numbered.push(Step::Once(made))?;
            Ok(())
        }
        StepDraft::Loop(begun) => add_loops(alloc, draft, job, begun, numbered),
    }
}

/// The steps of a process of this job with numbers for their names.
fn numbered_steps(
    alloc: Global,
    draft: &Draft,
    job: u32,
    steps: &[StepDraft],
) -> Result<Vec<Step>, AllocError>
    ensures { IfOk result (λ v. map step_by v.items ≡ flat_map (spec.steps_of (declared_of draft.now) job) (map step_of steps.now)) }
{
    let mut numbered = Vec::with_capacity(alloc, steps.len())?;
    for step in steps {
        add_steps(alloc, draft, job, step, &mut numbered)?;
    }
    Ok(numbered)
}

/// A role with numbers for the names in its script.
fn numbered_role(alloc: Global, draft: &Draft, role: &RoleDraft) -> Result<Role, AllocError>
    ensures { IfOk result (λ r. role_by r ≡ spec.role_of (declared_of draft.now) (role_of role.now)) }
{
    let name = Vec::from_slice(alloc, role.name)?;
    let steps = numbered_steps(alloc, draft, role.job, &role.steps)?;
    Ok(Role {
        job: role.job,
        name,
        single: role.single,
        least: role.least,
        number: role.number,
        steps,
    })
}

/// These roles with numbers for the names in their scripts.
pub fn numbered_roles(
    alloc: Global,
    draft: &Draft,
    roles: &[RoleDraft],
) -> Result<Vec<Role>, AllocError>
    ensures { IfOk result (λ v. map role_by v.items ≡ map (spec.role_of (declared_of draft.now)) (map role_of roles.now)) }
{
    let mut numbered = Vec::with_capacity(alloc, roles.len())?;
    for role in roles {
        let made = numbered_role(alloc, draft, role)?;
        numbered.push(made)?;
    }
    Ok(numbered)
}

/// A job that owns its name.
fn owned_job(alloc: Global, job: &JobDraft) -> Result<Job, AllocError>
    ensures { IfOk result (λ j. job_by j ≡ job_of job.now) }
{
    let name = Vec::from_slice(alloc, job.name)?;
    Ok(Job {
        name,
        number: job.number,
    })
}

/// The jobs.
pub fn owned_jobs(alloc: Global, jobs: &[JobDraft]) -> Result<Vec<Job>, AllocError>
    ensures { IfOk result (λ v. map job_by v.items ≡ map job_of jobs.now) }
{
    let mut owned = Vec::with_capacity(alloc, jobs.len())?;
    for job in jobs {
        let made = owned_job(alloc, job)?;
        owned.push(made)?;
    }
    Ok(owned)
}
