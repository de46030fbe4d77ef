//! What the command reads of a plan: its scripts, the lines of their calls, and how its fences spell their sets.

ghost use Rattle.std.specs.Prelude.{◌≡◌, ◌≢◌, ◌⊎◌, Ok, Err, OnOk, IfOk, IfErr};
ghost use Rattle.wire_types.specs.Counting.{one_more};
ghost use Rattle.wire_types.specs.Forms.{has_places};
ghost use Rattle.wire_types.specs.declared.Fault.TheVariants.{Memory, Read};
ghost use Rattle.wire_types.specs.Texts.{lists_of};
ghost use Rattle.wire_reader.specs.Reads.{Reads};
ghost use Rattle.wire_command.specs.Answer.{ReadIn};
ghost use Rattle.wire_command.specs.Read.{Refuses};
ghost use Rattle.wire_portable_commands.specs.CheckPortable.{IsSpelled};
ghost use Rattle.wire_portable_commands.specs.Read.{AreLinesIn};

use std::alloc::Global;
use std::thread::Threads;
use wire_command::{CommandOptions, read_up_to};
use wire_reader::{Size, read_located_shared, read_shared};
use wire_scripts::Scripts;
use wire_spelling::{Spelling, read_spelling};
use wire_types::{Fault, OutputFormat, Source};

/// The scripts in the bytes of a file, and what an answer in this form tells of the lines of their calls: none in a form
/// without places.
fn read_lines(
    rt: &(impl Threads + Sync),
    alloc: Global,
    size: Size,
    form: OutputFormat,
    bytes: &[u8],
) -> Result<(Scripts, Vec<Vec<u64>>), Fault>
    ensures ok { IfOk result (λ r. Reads size bytes.now (Ok r.0)) }
    ensures lines { IfOk result (λ r. AreLinesIn (has_places form) size bytes.now (lists_of r.1.items)) }
    ensures err { IfErr result (λ e. (e ≡ Memory) ⊎ Reads size bytes.now (Err e)) }
{
    if form.has_places() {
        return read_located_shared(rt, alloc, size, bytes);
    }
    let scripts = read_shared(rt, alloc, size, bytes)?;
    Ok((scripts, Vec::new(alloc)))
}

/// The scripts of a file that is read to its end, or to one byte more than it may have, with what the answer tells of the
/// lines of their calls; and how its fences spell their sets.
pub(crate) fn read_spelled<R: Source>(
    rt: &(impl Threads + Sync),
    alloc: Global,
    manner: CommandOptions<'_>,
    reader: &mut R,
) -> Result<((Scripts, Vec<Vec<u64>>), Spelling), Fault>
    ensures ok { IfOk result (λ r. ReadIn manner.entry.size manner.entry.form (R.coming reader.old) r.0.0 (lists_of r.0.1.items)) }
    ensures spelled { IfOk result (λ r. IsSpelled manner.entry.size (R.coming reader.old) r.0.0 r.1) }
    ensures quiet { OnOk result (R.failures reader.new ≡ R.failures reader.old) }
    ensures err { IfErr result (λ e. (e ≡ Memory) ⊎ (e ≡ Read) ⊎ Refuses manner.entry.size (R.coming reader.old) e) }
    ensures read { result ≡ Err Read → R.failures reader.new ≡ one_more (R.failures reader.old) }
    ensures unfailed { IfErr result (λ e. e ≢ Memory → e ≢ Read → R.failures reader.new ≡ R.failures reader.old) }
{
    let bytes = read_up_to(alloc, reader, manner.size.file_bytes() + 1)?;
    let spelling = read_spelling(alloc, bytes.as_slice())?;
    match read_lines(rt, alloc, manner.size, manner.form, bytes.as_slice()) {
        Ok(read) => Ok((read, spelling)),
        Err(fault) => Err(fault),
    }
}
