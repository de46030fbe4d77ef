//! From bytes to scripts.

ghost use Rattle.std.specs.Prelude.{◌≡◌, ◌+◌, ◌<◌, ◌≤◌, ◌==◌, ◌⊎◌, length, take, count_by, Ok, Err, OnOk, IfOk, IfErr};
ghost use Rattle.wire_reader.specs.Limits as limit;
ghost use Rattle.wire_reader.specs.Back.{ReadsBack, MigratedReadsBack, OneCanonical};
ghost use Rattle.wire_reader.specs.Reads.{Reads, ReadsOnce};

use crate::first_pass::first_pass;
use crate::limits::Size;
use crate::second_pass::scripts_of;
use crate::shared_pass::first_pass_by_size;
use std::alloc::Global;
use std::thread::Threads;
use wire_lines::line_past;
use wire_scripts::Scripts;
use wire_types::Fault;

/// What a file says: its nodes and jobs, and the scripts of its processes. Of the faults of a file the
/// first is given, with its line: `TooLong`, `BadHeader`, `BadLine`, `UnknownName`, `Twice` or `TooMany`
/// of the first pass over all lines, else `UnknownName` or `NotMember` of the second over the calls. Only tests and
/// `make bench` call this.
pub fn read(alloc: Global, bytes: &[u8]) -> Result<Scripts, Fault>
    ensures ok { IfOk result (λ s. Reads Size.OfVersion bytes.now (Ok s)) }
    ensures err { IfErr result (λ e. (e ≡ Fault.Memory) ⊎ Reads Size.OfVersion bytes.now (Err e)) }
{
    read_sized(alloc, Size::OfVersion, bytes)
}

/// Refuses a file that is longer than this size allows.
pub fn refuse_long(size: Size, bytes: &[u8]) -> Result<(), Fault>
    ensures ok { OnOk result (length bytes.now ≤ limit.file_bytes size) }
    ensures err { IfErr result (λ e. (limit.file_bytes size < length bytes.now)
        × (e ≡ Fault.TooLong (count_by (λ b. b == 10) (take (limit.file_bytes size) bytes.now) + 1))) }
{
    let most = size.file_bytes();
    if bytes.len() > most {
        Err(Fault::TooLong(line_past(bytes, most)))
    } else {
        Ok(())
    }
}

/// What a file says, as `read` does, within the limits of this size.
pub fn read_sized(alloc: Global, size: Size, bytes: &[u8]) -> Result<Scripts, Fault>
    ensures ok { IfOk result (λ s. Reads size bytes.now (Ok s)) }
    ensures err { IfErr result (λ e. (e ≡ Fault.Memory) ⊎ Reads size bytes.now (Err e)) }
{
    refuse_long(size, bytes)?;
    let draft = first_pass(alloc, size, bytes)?;
    scripts_of(alloc, draft)
}

/// What a file says, as `read_sized` answers it. The lines of a file of a MiB or more are read by several
/// threads.
pub fn read_shared(
    rt: &(impl Threads + Sync),
    alloc: Global,
    size: Size,
    bytes: &[u8],
) -> Result<Scripts, Fault>
    ensures ok { IfOk result (λ s. Reads size bytes.now (Ok s)) }
    ensures err { IfErr result (λ e. (e ≡ Fault.Memory) ⊎ Reads size bytes.now (Err e)) }
{
    refuse_long(size, bytes)?;
    let draft = first_pass_by_size(rt, alloc, size, bytes)?;
    scripts_of(alloc, draft)
}

/// A law: a text reads as at most one value.
pub fn reads_once()
    ensures { ReadsOnce }
{}

/// A law: scripts that were read and have the same canonical text are the same, also where that text is
/// past the limit of a file.
pub fn one_canonical()
    ensures { OneCanonical }
{}

/// A law: the canonical text of scripts that were read reads as these scripts, where it is within the
/// limit of a file.
pub fn reads_back()
    ensures { ReadsBack }
{}

/// A law: the canonical text of scripts that were read, under version 2, reads as the same scripts under
/// version 2, where it is within the limit of a file.
pub fn migrated_reads_back()
    ensures { MigratedReadsBack }
{}
