//! The scripts of a file, with the lines on which their calls stand.

ghost use Rattle.std.specs.Prelude.{◌≡◌, ◌⊎◌, Ok, Err, IfOk, IfErr};
ghost use Rattle.wire_types.specs.Texts.{lists_of};
ghost use Rattle.wire_reader.specs.Drafted.{declared_of, started_of};
ghost use Rattle.wire_reader.specs.Located.{AreCallLines, lines_in, lines_of_calls};
ghost use Rattle.wire_reader.specs.Reads.{Reads, second_pass};
ghost use Rattle.wire_reader.specs.Within.{IsWithinLimits, IsDeclared};

use crate::draft::{Draft, Started};
use crate::first_pass::first_pass;
use crate::limits::Size;
use crate::reader::refuse_long;
use crate::second_pass::scripts_of;
use crate::shared_pass::first_pass_by_size;
use std::alloc::{AllocError, Global};
use std::thread::Threads;
use wire_scripts::Scripts;
use wire_types::Fault;

/// The lines of the calls of a process.
fn call_lines(alloc: Global, process: &Started) -> Result<Vec<u64>, AllocError>
    ensures { IfOk result (λ lines. lines.items ≡ lines_of_calls (started_of process.now)) }
{
    let mut lines = Vec::with_capacity(alloc, process.calls.len())?;
    for placed in &process.calls {
        lines.push(placed.line)?;
    }
    Ok(lines)
}

/// The lines of the calls of all processes.
fn all_lines(alloc: Global, draft: &Draft) -> Result<Vec<Vec<u64>>, AllocError>
    ensures { IfOk result (λ rows. lists_of rows.items ≡ lines_in (declared_of draft.now)) }
{
    let mut rows = Vec::with_capacity(alloc, draft.processes.len())?;
    for process in &draft.processes {
        rows.push(call_lines(alloc, process)?)?;
    }
    Ok(rows)
}

/// The scripts of what a file within its limit declares, and the lines of their calls.
fn scripts_with_lines(alloc: Global, draft: Draft) -> Result<(Scripts, Vec<Vec<u64>>), Fault>
    requires within { IsWithinLimits (declared_of draft) }
    requires declared { IsDeclared (declared_of draft) }
    ensures ok { IfOk result (λ r. second_pass (declared_of draft.entry) ≡ Ok r.0) }
    ensures lines { IfOk result (λ r. lists_of r.1.items ≡ lines_in (declared_of draft.entry)) }
    ensures err { IfErr result (λ e. (e ≡ Fault.Memory) ⊎ (second_pass (declared_of draft.entry) ≡ Err e)) }
{
    match all_lines(alloc, &draft) {
        Ok(lines) => match scripts_of(alloc, draft) {
            Ok(scripts) => Ok((scripts, lines)),
            Err(fault) => Err(fault),
        },
        Err(_) => {
            drop(draft);
            Err(Fault::Memory)
        }
    }
}

/// What a file says, as `read_sized` does, and the number of the line of each call: a row for each process, in
/// the order of the processes and of their calls.
pub fn read_located(
    alloc: Global,
    size: Size,
    bytes: &[u8],
) -> Result<(Scripts, Vec<Vec<u64>>), Fault>
    ensures ok { IfOk result (λ r. Reads size bytes.now (Ok r.0)) }
    ensures lines { IfOk result (λ r. AreCallLines size bytes.now (lists_of r.1.items)) }
    ensures err { IfErr result (λ e. (e ≡ Fault.Memory) ⊎ Reads size bytes.now (Err e)) }
{
    refuse_long(size, bytes)?;
    let draft = first_pass(alloc, size, bytes)?;
    scripts_with_lines(alloc, draft)
}

/// What `read_located` answers. Several threads read the lines, as in `read_shared`.
pub fn read_located_shared(
    rt: &(impl Threads + Sync),
    alloc: Global,
    size: Size,
    bytes: &[u8],
) -> Result<(Scripts, Vec<Vec<u64>>), Fault>
    ensures ok { IfOk result (λ r. Reads size bytes.now (Ok r.0)) }
    ensures lines { IfOk result (λ r. AreCallLines size bytes.now (lists_of r.1.items)) }
    ensures err { IfErr result (λ e. (e ≡ Fault.Memory) ⊎ Reads size bytes.now (Err e)) }
{
    refuse_long(size, bytes)?;
    let draft = first_pass_by_size(rt, alloc, size, bytes)?;
    scripts_with_lines(alloc, draft)
}
