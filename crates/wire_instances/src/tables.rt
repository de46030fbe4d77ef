//! Tables of an instance: the first process of each role, and of each process its job and its rank there.

ghost use Rattle.std.specs.Prelude.{◌≡◌, ◌≤◌, ◌<◌, ◌^◌, ◌+◌, ◌++◌, ◌==◌, ℕ, IfOk, OnOk, sum_by, take, length, map};
ghost use Rattle.std.specs.Prelude.{replicate};
ghost use Rattle.std.specs.Prelude.{slice_get, slice_index_or};
ghost use Rattle.wire_pattern.specs.Instances.{roles_from, job_in};
ghost use Rattle.wire_pattern.specs.Views.{role_by};
ghost use Rattle.wire_instances.specs.Tables.{first_of, jobs_by, rank_in};

use std::alloc::{AllocError, Global};
use wire_pattern::Role;

/// The first process of each role, and last how many processes there are.
pub(crate) fn firsts_of(alloc: Global, sizes: &[u32]) -> Result<Vec<u32>, AllocError>
    requires { sum_by (λ (size : ℕ). size) sizes.now < 2 ^ 31 }
    ensures count { IfOk result (λ v. length v.items ≡ length sizes.now + 1) }
    ensures firsts { IfOk result (λ v. (role : ℕ) → role ≤ length sizes.now
        → slice_index_or v.items role 0 ≡ first_of sizes.now role) }
{
    let mut firsts = Vec::new(alloc);
    let mut first: u32 = 0;
    firsts.push(first)?;
    for size in sizes {
        first += *size;
        firsts.push(first)?;
    }
    Ok(firsts)
}

/// Appends a number so many times.
fn push_copies(out: &mut Vec<u32>, value: u32, count: u32) -> Result<(), AllocError>
    ensures { OnOk result (out.new.items ≡ out.old.items ++ replicate count value) }
{
    for _copy in 0..count {
        out.push(value)?;
    }
    Ok(())
}

/// The role of each process, where the roles have these sizes.
pub fn roles_by(alloc: Global, sizes: &[u32]) -> Result<Vec<u32>, AllocError>
    requires { length sizes.now < 2 ^ 31 }
    ensures { IfOk result (λ v. v.items ≡ roles_from 0 sizes.now) }
{
    let mut roles = Vec::new(alloc);
    for number in 0..sizes.len() as u32 {
        push_copies(&mut roles, number, sizes[number as usize])?;
    }
    Ok(roles)
}

/// The job of a role; 0 where there is no such role.
pub(crate) fn job_of(roles: &[Role], role: u32) -> u32
    ensures { result ≡ job_in (slice_get (map role_by roles.now) role) }
{
    match roles.get(role as usize) {
        Some(role) => role.job,
        None => 0,
    }
}

/// The rank of each process in its job, where these are the roles of the processes, in so many jobs.
pub(crate) fn ranks_of(
    alloc: Global,
    roles: &[Role],
    numbers: &[u32],
    jobs: usize,
) -> Result<Vec<u32>, AllocError>
    requires few { length numbers.now < 2 ^ 31 }
    requires there { (v : ℕ) → v < length numbers.now → job_in (slice_get (map role_by roles.now) (slice_index_or numbers.now v 0)) < jobs }
    ensures count { IfOk result (λ ranks. length ranks.items ≡ length numbers.now) }
    ensures ranks { IfOk result (λ ranks. (v : ℕ) → v < length numbers.now
        → slice_index_or ranks.items v 0 ≡ rank_in (jobs_by (map role_by roles.now) numbers.now) v) }
{
    let mut counts = vec![in alloc; 0u32; jobs]?;
    let mut ranks = Vec::with_capacity(alloc, numbers.len())?;
    for number in numbers {
        let job = job_of(roles, *number) as usize;
        let rank = counts[job];
        ranks.push(rank)?;
        counts[job] = rank + 1;
    }
    Ok(ranks)
}
