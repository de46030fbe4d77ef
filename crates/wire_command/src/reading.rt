//! What a command reads: the bytes of a reader up to a limit, the scripts of a plan, and the lines of their calls.

ghost use Rattle.std.specs.Thread.{IsSync};
ghost use Rattle.std.specs.Prelude.{◌≡◌, ◌≢◌, ◌≤◌, ◌⊎◌, Ok, Err, OnOk, IfOk, IfErr, IfSome, take, vec_len};
ghost use Rattle.wire_types.specs.Counting.{one_more};
ghost use Rattle.wire_types.specs.declared.Fault.TheVariants.{Memory, Read};
ghost use Rattle.wire_types.specs.Texts.{lists_of};
ghost use Rattle.wire_reader.specs.Reads.{Reads};
ghost use Rattle.wire_reader.specs.Located.{AreCallLines};
ghost use Rattle.wire_command.specs.Read.{ReadAs, Refuses};
ghost use Rattle.wire_command.specs.Answer.{ReadIn, ReadPlaced};

use std::alloc::Global;
use std::thread::Threads;
use wire_reader::{Size, read_located, read_located_shared, read_shared, read_sized};
use wire_scripts::Scripts;
use wire_types::{Fault, OutputFormat, Source};

/// The bytes of a reader, which is asked until it ends or so many have come. Fails where memory runs
/// out or a call of the reader fails.
pub fn read_up_to<R: Source>(alloc: Global, reader: &mut R, limit: usize) -> Result<Vec<u8>, Fault>
    ensures front { IfOk result (λ v. IfSome (R.coming reader.old) (λ bytes. v.items ≡ take limit bytes)) }
    ensures bound { IfOk result (λ v. vec_len v ≤ limit) }
    ensures quiet { OnOk result (R.failures reader.new ≡ R.failures reader.old) }

    // A failed read is the one fault beside memory, and comes only where a call failed.
    ensures faults { IfErr result (λ e. (e ≡ Memory) ⊎ (e ≡ Read)) }
    ensures failed { result ≡ Err Read → R.failures reader.new ≡ one_more (R.failures reader.old) }
{
    let mut bytes = Vec::new(alloc);
    let mut chunk = [0u8; 16_384];
    'asking: while bytes.len() < limit {
        let room = chunk.len().min(limit - bytes.len());
        match reader.read(&mut chunk[..room]) {
            Ok(0) => return Ok(bytes),
            Ok(n) => bytes.extend_from_slice(&chunk[..n])?,
            Err(_) => return Err(Fault::Read),
        }
    }
    Ok(bytes)
}

/// Who reads the lines of a plan.
pub trait ReadsPlan {
    /// What is needed.
    ghost needs: { Self → Type 0 };

    /// The scripts of a file.
    fn parse(&self, alloc: Global, size: Size, bytes: &[u8]) -> Result<Scripts, Fault>
        requires { needs self.now }
        ensures ok { IfOk result (λ s. Reads size bytes.now (Ok s)) }
        ensures err { IfErr result (λ e. (e ≡ Memory) ⊎ Reads size bytes.now (Err e)) };

    /// The scripts of a file, and the number of the line of each call, a row for each process.
    fn parse_located(
        &self,
        alloc: Global,
        size: Size,
        bytes: &[u8],
    ) -> Result<(Scripts, Vec<Vec<u64>>), Fault>
        requires { needs self.now }
        ensures ok { IfOk result (λ r. Reads size bytes.now (Ok r.0)) }
        ensures lines { IfOk result (λ r. AreCallLines size bytes.now (lists_of r.1.items)) }
        ensures err { IfErr result (λ e. (e ≡ Memory) ⊎ Reads size bytes.now (Err e)) };
}

/// One thread reads them all.
#[derive(Clone, Copy, Drop)]
pub struct Alone;

impl ReadsPlan for Alone {
    ghost needs = { λ _. Unit {0} };

    fn parse(&self, alloc: Global, size: Size, bytes: &[u8]) -> Result<Scripts, Fault> {
        read_sized(alloc, size, bytes)
    }

    fn parse_located(
        &self,
        alloc: Global,
        size: Size,
        bytes: &[u8],
    ) -> Result<(Scripts, Vec<Vec<u64>>), Fault> {
        read_located(alloc, size, bytes)
    }
}

/// Several threads read those of a large file.
#[derive(Drop)]
pub struct Shared<'r, R> {
    pub rt: &'r R,
}

impl<'r, R: Threads + Sync> ReadsPlan for Shared<'r, R> {
    ghost needs = { λ _. IsSync R.row };

    fn parse(&self, alloc: Global, size: Size, bytes: &[u8]) -> Result<Scripts, Fault> {
        read_shared(self.rt, alloc, size, bytes)
    }

    fn parse_located(
        &self,
        alloc: Global,
        size: Size,
        bytes: &[u8],
    ) -> Result<(Scripts, Vec<Vec<u64>>), Fault> {
        read_located_shared(self.rt, alloc, size, bytes)
    }
}

/// The scripts of a file that is read to its end, or to one byte more than it may have, by which it is seen
/// to be too long.
pub fn read_scripts<L: ReadsPlan, R: Source>(
    lines: &L,
    alloc: Global,
    size: Size,
    reader: &mut R,
) -> Result<Scripts, Fault>
    requires { L.needs lines.now }
    ensures ok { IfOk result (λ scripts. ReadAs size (R.coming reader.old) scripts) }
    ensures quiet { OnOk result (R.failures reader.new ≡ R.failures reader.old) }
    ensures err { IfErr result (λ e. (e ≡ Memory) ⊎ (e ≡ Read) ⊎ Refuses size (R.coming reader.old) e) }
    ensures read { result ≡ Err Read → R.failures reader.new ≡ one_more (R.failures reader.old) }
    ensures unfailed { IfErr result (λ e. e ≢ Memory → e ≢ Read → R.failures reader.new ≡ R.failures reader.old) }
{
    let bytes = read_up_to(alloc, reader, size.file_bytes() + 1)?;
    lines.parse(alloc, size, bytes.as_slice())
}

/// The scripts of a file, as `read_scripts` reads them, and the number of the line of each call, a row for each
/// process.
fn read_placed<L: ReadsPlan, R: Source>(
    lines: &L,
    alloc: Global,
    size: Size,
    reader: &mut R,
) -> Result<(Scripts, Vec<Vec<u64>>), Fault>
    requires { L.needs lines.now }
    ensures ok { IfOk result (λ r. ReadPlaced size (R.coming reader.old) r.0 (lists_of r.1.items)) }
    ensures quiet { OnOk result (R.failures reader.new ≡ R.failures reader.old) }
    ensures err { IfErr result (λ e. (e ≡ Memory) ⊎ (e ≡ Read) ⊎ Refuses size (R.coming reader.old) e) }
    ensures read { result ≡ Err Read → R.failures reader.new ≡ one_more (R.failures reader.old) }
    ensures unfailed { IfErr result (λ e. e ≢ Memory → e ≢ Read → R.failures reader.new ≡ R.failures reader.old) }
{
    let bytes = read_up_to(alloc, reader, size.file_bytes() + 1)?;
    lines.parse_located(alloc, size, bytes.as_slice())
}

/// The scripts of a file, and what an answer in this form tells of the lines of their calls: none in a form without
/// places.
pub(crate) fn read_in<L: ReadsPlan, R: Source>(
    lines: &L,
    alloc: Global,
    size: Size,
    form: OutputFormat,
    reader: &mut R,
) -> Result<(Scripts, Vec<Vec<u64>>), Fault>
    requires { L.needs lines.now }
    ensures ok { IfOk result (λ r. ReadIn size form (R.coming reader.old) r.0 (lists_of r.1.items)) }
    ensures quiet { OnOk result (R.failures reader.new ≡ R.failures reader.old) }
    ensures err { IfErr result (λ e. (e ≡ Memory) ⊎ (e ≡ Read) ⊎ Refuses size (R.coming reader.old) e) }
    ensures read { result ≡ Err Read → R.failures reader.new ≡ one_more (R.failures reader.old) }
    ensures unfailed { IfErr result (λ e. e ≢ Memory → e ≢ Read → R.failures reader.new ≡ R.failures reader.old) }
{
    if form.has_places() {
        return read_placed(lines, alloc, size, reader);
    }
    let scripts = read_scripts(lines, alloc, size, reader)?;
    Ok((scripts, Vec::new(alloc)))
}
