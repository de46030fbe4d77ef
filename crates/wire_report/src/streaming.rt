//! The text of what the checker finds, to a sink.

ghost use Rattle.std.specs.Prelude.{◌≡◌, ◌≢◌, ◌⊎◌, ℕ, ◌+◌, ◌*◌, ◌<◌, ◌≤◌, ◌^◌, ◌++◌, [], true, None, Err, length};
ghost use Rattle.std.specs.Prelude.{vec_capacity, IfSome, OnOk, OnErr, IfErr};
ghost use Rattle.std.specs.Io.KnownBytes.{Appends};
ghost use Rattle.std.specs.List.{flat_map};
ghost use Rattle.wire_types.specs.declared.Fault.TheVariants.{Memory};
ghost use Rattle.wire_types.specs.Counting.{one_more};
ghost use Rattle.wire_types.specs.Front.{BreaksAfter, WritesFront};
ghost use Rattle.wire_words.specs.Chunks.{IsOnItsWay};
ghost use Rattle.wire_words.specs.Words.{name_of};
ghost use Rattle.wire_report.specs.Findings as spec;
ghost use Rattle.wire_report.specs.FindingLines.{NoneIsLonger, HoldsAnyLine, AreWordsOf};

use crate::findings::{findings_text, push_count, push_line_after};
use crate::lower_call::LowerCall;
use crate::writing::write_text;
use std::alloc::Global;
use wire_findings::{Finding, FindingList};
use wire_scripts::{Scripts, Texts};
use wire_types::{Fault, Sink};
use wire_words::Chunk;

/// The room of a chunk, unless a line may need more.
const CHUNK: usize = 65_536;

/// What lines tell: findings of scripts, and how much room there is for each line.
#[derive(Clone, Copy)]
struct FindingLines<'a> {
    scripts: &'a Scripts,
    findings: &'a FindingList,
    room: usize,
}

/// Writes the text of findings to the sink: lines in chunks, so that the whole text is never in memory, JSON
/// once all of it is made. All memory is taken before the first byte is written: where it runs out,
/// nothing is written. A text of lines that might have 2^64 bytes and more counts as memory that ran out.
/// The faults are `Fault::Memory`, and `Fault::Write` with the number of bytes that went out.
pub fn write_findings<S: Sink>(
    alloc: Global,
    scripts: &Scripts,
    findings: &FindingList,
    json: bool,
    sink: &mut S,
) -> Result<(), Fault>
    ensures ok { OnOk result (Appends (S.written sink.old) (S.written sink.new) (spec.findings_form json scripts.now findings.now)) }
    ensures quiet { OnOk result (S.failures sink.new ≡ S.failures sink.old) }
    ensures memory { result ≡ Err Memory → sink.new ≡ sink.old }
    ensures err { IfErr result (λ e. (e ≡ Memory)
        ⊎ WritesFront (S.written sink.old) (S.written sink.new) (spec.findings_form json scripts.now findings.now) e) }
    ensures failed { IfErr result (λ e. e ≢ Memory → S.failures sink.new ≡ one_more (S.failures sink.old)) }
{
    if json {
        return write_json(alloc, scripts, findings, sink);
    }
    let Some(room) = room_for_lines(scripts, findings.len()) else {
        return Err(Fault::Memory);
    };
    let mut chunk = Chunk::new(alloc, room.max(CHUNK))?;
    let mut told = LowerCall::new(alloc, room)?;
    let lines = FindingLines {
        scripts,
        findings,
        room,
    };
    write_chunks(&mut chunk, &mut told, lines, sink).map_err(Fault::Write)
}

/// Writes findings as JSON, once the whole text is made: where memory runs out, nothing is written.
fn write_json<S: Sink>(
    alloc: Global,
    scripts: &Scripts,
    findings: &FindingList,
    sink: &mut S,
) -> Result<(), Fault>
    ensures ok { OnOk result (Appends (S.written sink.old) (S.written sink.new) (spec.findings_form true scripts.now findings.now)) }
    ensures quiet { OnOk result (S.failures sink.new ≡ S.failures sink.old) }
    ensures memory { result ≡ Err Memory → sink.new ≡ sink.old }
    ensures err { IfErr result (λ e. (e ≡ Memory)
        ⊎ WritesFront (S.written sink.old) (S.written sink.new) (spec.findings_form true scripts.now findings.now) e) }
    ensures failed { IfErr result (λ e. e ≢ Memory → S.failures sink.new ≡ one_more (S.failures sink.old)) }
{
    let findings = findings.to_vec(alloc)?;
    let text = findings_text(alloc, scripts, findings.as_slice(), true)?;
    write_text(sink, text.as_slice())
}

/// Writes the lines of findings and their number. An error says how many bytes went out.
fn write_chunks<S: Sink>(
    chunk: &mut Chunk,
    told: &mut LowerCall,
    lines: FindingLines<'_>,
    sink: &mut S,
) -> Result<(), u64>
    requires nothing { (chunk.old.waiting.items ≡ []) × (chunk.old.gone ≡ 0) }
    requires room { lines.room ≤ vec_capacity chunk.old.waiting }
    requires told { (told.old.call ≡ None) × (lines.room ≤ vec_capacity told.old.words) }
    requires lines { HoldsAnyLine lines.scripts.now lines.room }
    requires counted { lines.room * (length lines.findings.now + 1) < 2 ^ 64 }
    ensures ok { OnOk result (Appends (S.written sink.old) (S.written sink.new) (spec.findings_report lines.entry.scripts.now lines.entry.findings.now)) }
    ensures quiet { OnOk result (S.failures sink.new ≡ S.failures sink.old) }
    ensures err { IfErr result (λ n. BreaksAfter (S.written sink.old) (S.written sink.new)
        (spec.findings_report lines.entry.scripts.now lines.entry.findings.now) n) }
    ensures failed { OnErr result (S.failures sink.new ≡ one_more (S.failures sink.old)) }
{
    if let Err(n) = write_lines(chunk, told, lines, sink) {
        return Err(n);
    }
    if let Err(n) = chunk.make_room(lines.room, sink) {
        return Err(n);
    }
    push_count(&mut chunk.waiting, lines.findings.len()).unwrap();
    chunk.flush(sink)
}

/// Writes the lines of findings, of which the last may wait in the chunk. An error says how many bytes went
/// out.
fn write_lines<S: Sink>(
    chunk: &mut Chunk,
    told: &mut LowerCall,
    lines: FindingLines<'_>,
    sink: &mut S,
) -> Result<(), u64>
    requires nothing { (chunk.old.waiting.items ≡ []) × (chunk.old.gone ≡ 0) }
    requires room { lines.room ≤ vec_capacity chunk.old.waiting }
    requires told { (told.old.call ≡ None) × (lines.room ≤ vec_capacity told.old.words) }
    requires lines { HoldsAnyLine lines.scripts.now lines.room }
    requires counted { lines.room * (length lines.findings.now + 1) < 2 ^ 64 }
    ensures ok { OnOk result (IsOnItsWay (S.written sink.old) (S.written sink.new) chunk.new
        (flat_map (spec.finding_line lines.entry.scripts.now) lines.entry.findings.now)) }
    ensures short { OnOk result (length (flat_map (spec.finding_line lines.entry.scripts.now) lines.entry.findings.now) ≤ lines.entry.room * length
        lines.entry.findings.now) }
    ensures room { lines.entry.room ≤ vec_capacity chunk.new.waiting }
    ensures quiet { OnOk result (S.failures sink.new ≡ S.failures sink.old) }
    ensures err { IfErr result (λ n. BreaksAfter (S.written sink.old) (S.written sink.new)
        (flat_map (spec.finding_line lines.entry.scripts.now) lines.entry.findings.now) n) }
    ensures failed { OnErr result (S.failures sink.new ≡ one_more (S.failures sink.old)) }
{
    for number in 0..lines.findings.len() {
        let Some(finding) = lines.findings.get(number) else {
            unreachable!();
        };
        if let Err(n) = chunk.make_room(lines.room, sink) {
            return Err(n);
        }
        write_line(&mut chunk.waiting, told, lines, finding);
    }
    Ok(())
}

/// Appends the line of a finding, where there is room for any.
fn write_line(out: &mut Vec<u8>, told: &mut LowerCall, lines: FindingLines<'_>, finding: Finding)
    requires room { length out.old.items + lines.room ≤ vec_capacity out.old }
    requires told { AreWordsOf lines.scripts.now told.old.call told.old.words.items × (lines.room ≤ vec_capacity told.old.words) }
    requires lines { HoldsAnyLine lines.scripts.now lines.room }
    ensures appended { out.new.items ≡ out.old.items ++ spec.finding_line lines.entry.scripts.now finding }
    ensures capacity { vec_capacity out.old ≤ vec_capacity out.new }
    ensures told { AreWordsOf lines.entry.scripts.now told.new.call told.new.words.items × (lines.entry.room ≤ vec_capacity told.new.words) }
    ensures short { length (spec.finding_line lines.entry.scripts.now finding) ≤ lines.entry.room }
{
    push_line_after(out, told, lines.scripts, finding).unwrap();
}

/// Room for any line of findings of these scripts, or nothing where the lines of so many, and the last one,
/// may have 2^64 bytes and more.
fn room_for_lines(scripts: &Scripts, findings: usize) -> Option<usize>
    ensures holds { IfSome result (λ room. HoldsAnyLine scripts.now room) }
    ensures counted { IfSome result (λ room. room * (findings + 1) < 2 ^ 64) }
{
    let subject = longest_text(scripts.keys()).max(longest_text(scripts.names()));
    let longest = longest_process(scripts).max(subject);
    let Some(words) = longest.checked_mul(4) else {
        return None;
    };
    let Some(room) = words.checked_add(128) else {
        return None;
    };
    let Some(lines) = findings.checked_add(1) else {
        return None;
    };
    match room.checked_mul(lines) {
        Some(_) => Some(room),
        None => None,
    }
}

/// A length that no text of the table exceeds.
fn longest_text(texts: &Texts) -> usize
    ensures { NoneIsLonger texts.now result }
{
    let mut longest = 0;
    for number in 0..texts.len() {
        longest = longest.max(texts.text(number).len());
    }
    longest
}

/// A length that the words of no process exceed.
fn longest_process(scripts: &Scripts) -> usize
    ensures { (p : ℕ) → length (name_of scripts.now p) ≤ result }
{
    let mut longest = 0;
    for process in scripts.processes() {
        longest = longest.max(scripts.jobs().text(process.job()).len() + 11);
    }
    longest
}
