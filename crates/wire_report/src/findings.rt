//! The text of what the checker finds.

ghost use Rattle.std.specs.Prelude.{◌≡◌, ◌⊎◌, ◌+◌, ◌<◌, ◌≤◌, ◌++◌, codes, decimal, length, map, vec_capacity, OnOk};
ghost use Rattle.std.specs.Prelude.{OnErr, IfOk, IfErr};
ghost use Rattle.std.specs.List.{flat_map};
ghost use Rattle.wire_types.specs.declared.Fault.TheVariants.{Memory};
ghost use Rattle.wire_types.specs.Texts.{lists_of};
ghost use Rattle.wire_scripts.specs.Scripts.{call_at};
ghost use Rattle.wire_words.specs.Words.{call_text};
ghost use Rattle.wire_report.specs.Findings as spec;
ghost use Rattle.wire_report.specs.FindingLines.{AreNumbered, IsNumbered, AreWordsOf, race_start, key_race_rest};
ghost use Rattle.wire_report.specs.FindingLines.{name_race_rest};

use crate::line_pieces::push_spaced;
use crate::lower_call::LowerCall;
use std::alloc::{AllocError, Global};
use wire_findings::Finding;
use wire_json::findings_json;
use wire_scripts::Scripts;
use wire_types::{Call, CallAt, Fault, Proc};
use wire_words::{find_call, push_call, push_number, push_proc};

/// The text of findings: a line for each, and last how many they are, or the lines as JSON. A rewrite
/// names the first put of the key, the later put by its number and the key; a race its two calls, and the
/// key with its owner, or the name. The one fault is `Fault::Memory`.
pub fn findings_text(
    alloc: Global,
    scripts: &Scripts,
    findings: &[Finding],
    json: bool,
) -> Result<Vec<u8>, Fault>
    ensures ok { IfOk result (λ text. text.items ≡ spec.findings_form json scripts.now findings.now) }
    ensures err { IfErr result (λ e. e ≡ Memory) }
{
    if json {
        let lines = finding_lines(alloc, scripts, findings)?;
        return Ok(findings_json(alloc, lines.as_slice())?);
    }
    let mut text = Vec::new(alloc);
    push_findings(&mut text, scripts, findings)?;
    push_count(&mut text, findings.len())?;
    Ok(text)
}

/// The words of each of these findings.
fn finding_lines(
    alloc: Global,
    scripts: &Scripts,
    findings: &[Finding],
) -> Result<Vec<Vec<u8>>, AllocError>
    ensures { IfOk result (λ lines. lists_of lines.items
        ≡ map (spec.finding_words scripts.now) findings.now) }
{
    let mut lines = Vec::new(alloc);
    for finding in findings {
        let mut line = Vec::new(alloc);
        push_finding(&mut line, scripts, *finding)?;
        lines.push(line)?;
    }
    Ok(lines)
}

/// Appends the lines of these findings.
fn push_findings(
    out: &mut Vec<u8>,
    scripts: &Scripts,
    findings: &[Finding],
) -> Result<(), AllocError>
    ensures { OnOk result (out.new.items ≡ out.old.items ++ flat_map (spec.finding_line scripts.now) findings.now) }
{
    for finding in findings {
        push_finding(out, scripts, *finding)?;
        out.extend_from_slice(b"\n")?;
    }
    Ok(())
}

/// Appends the last line, which says how many findings there are. Fails only where there is no room for it.
pub fn push_count(out: &mut Vec<u8>, count: usize) -> Result<(), AllocError>
    ensures ok { OnOk result (out.new.items ≡ out.old.items ++ spec.count_line count) }
    ensures capacity { vec_capacity out.old ≤ vec_capacity out.new }
    ensures full { OnErr result (vec_capacity out.old < length out.old.items + length (spec.count_line count)) }
{
    out.extend_from_slice(b"findings ")?;
    push_number(out, count as u64)?;
    out.extend_from_slice(b"\n")
}

/// Appends the line of a finding, with the words of a race up to its lower call from those that were told before,
/// where it is the same call. Fails only where there is no room for the line, or for those words where they are kept.
pub(crate) fn push_line_after(
    out: &mut Vec<u8>,
    told: &mut LowerCall,
    scripts: &Scripts,
    finding: Finding,
) -> Result<(), AllocError>
    requires { AreWordsOf scripts.now told.old.call told.old.words.items }
    ensures ok { OnOk result (out.new.items ≡ out.old.items ++ spec.finding_line scripts.now finding) }
    ensures told { AreWordsOf scripts.now told.new.call told.new.words.items }
    ensures capacity { vec_capacity out.old ≤ vec_capacity out.new }
    ensures words { vec_capacity told.old.words ≤ vec_capacity told.new.words }
    ensures full { OnErr result ((vec_capacity out.old < length out.old.items + length (spec.finding_line scripts.now finding))
        ⊎ (vec_capacity told.old.words < length (spec.finding_line scripts.now finding))) }
    ensures numbered { IsNumbered finding }
{
    push_finding_after(out, told, scripts, finding)?;
    out.extend_from_slice(b"\n")
}

/// The words of such a line.
fn push_finding_after(
    out: &mut Vec<u8>,
    told: &mut LowerCall,
    scripts: &Scripts,
    finding: Finding,
) -> Result<(), AllocError>
    requires { AreWordsOf scripts.now told.old.call told.old.words.items }
    ensures ok { OnOk result (out.new.items ≡ out.old.items ++ spec.finding_words scripts.now finding) }
    ensures told { AreWordsOf scripts.now told.new.call told.new.words.items }
    ensures capacity { vec_capacity out.old ≤ vec_capacity out.new }
    ensures words { vec_capacity told.old.words ≤ vec_capacity told.new.words }
    ensures full { OnErr result ((vec_capacity out.old < length out.old.items + length (spec.finding_words scripts.now finding))
        ⊎ (vec_capacity told.old.words < length (spec.finding_words scripts.now finding))) }
    ensures numbered { IsNumbered finding }
{
    match finding {
        Finding::Rewrite(first, later) => push_rewrite(out, scripts, first, later),
        Finding::KeyRace(lower, higher, owner, key) => {
            told.push(out, scripts, lower)?;
            push_key_race(out, scripts, higher, owner, key)
        }
        Finding::NameRace(lower, higher, name) => {
            told.push(out, scripts, lower)?;
            push_name_race(out, scripts, higher, name)
        }
    }
}

/// Appends the words of a race on a key that follow its lower call. Fails only where there is no room for them.
fn push_key_race(
    out: &mut Vec<u8>,
    scripts: &Scripts,
    higher: CallAt,
    owner: Proc,
    key: u32,
) -> Result<(), AllocError>
    ensures ok { OnOk result (out.new.items ≡ out.old.items ++ key_race_rest scripts.now higher owner.number key) }
    ensures capacity { vec_capacity out.old ≤ vec_capacity out.new }
    ensures full { OnErr result (vec_capacity out.old < length out.old.items + length (key_race_rest scripts.now higher owner.number key)) }
{
    push_higher(out, scripts, higher)?;
    out.extend_from_slice(b" key ")?;
    push_proc(out, scripts, owner)?;
    push_spaced(out, scripts.keys().text(key))
}

/// Appends the higher call of a race. Fails only where there is no room for it.
fn push_higher(out: &mut Vec<u8>, scripts: &Scripts, higher: CallAt) -> Result<(), AllocError>
    ensures ok { OnOk result (out.new.items ≡ out.old.items ++ (codes " " ++ call_text scripts.now higher)) }
    ensures capacity { vec_capacity out.old ≤ vec_capacity out.new }
    ensures full { OnErr result (vec_capacity out.old < length out.old.items + length (codes " " ++ call_text scripts.now higher)) }
{
    out.extend_from_slice(b" ")?;
    push_call(out, scripts, higher)
}

/// Appends the words of a race on a name that follow its lower call. Fails only where there is no room for them.
fn push_name_race(
    out: &mut Vec<u8>,
    scripts: &Scripts,
    higher: CallAt,
    name: u32,
) -> Result<(), AllocError>
    ensures ok { OnOk result (out.new.items ≡ out.old.items ++ name_race_rest scripts.now higher name) }
    ensures capacity { vec_capacity out.old ≤ vec_capacity out.new }
    ensures full { OnErr result (vec_capacity out.old < length out.old.items + length (name_race_rest scripts.now higher name)) }
{
    push_higher(out, scripts, higher)?;
    out.extend_from_slice(b" name ")?;
    out.extend_from_slice(scripts.names().text(name))
}

/// Appends the words of a finding. Fails only where there is no room for them.
pub fn push_finding(
    out: &mut Vec<u8>,
    scripts: &Scripts,
    finding: Finding,
) -> Result<(), AllocError>
    ensures ok { OnOk result (out.new.items ≡ out.old.items ++ spec.finding_words scripts.now finding) }
    ensures capacity { vec_capacity out.old ≤ vec_capacity out.new }
    ensures full { OnErr result (vec_capacity out.old < length out.old.items + length (spec.finding_words scripts.now finding)) }
    ensures numbered { IsNumbered finding }
{
    match finding {
        Finding::Rewrite(first, later) => push_rewrite(out, scripts, first, later),
        Finding::KeyRace(lower, higher, owner, key) => {
            push_race_start(out, scripts, lower)?;
            push_key_race(out, scripts, higher, owner, key)
        }
        Finding::NameRace(lower, higher, name) => {
            push_race_start(out, scripts, lower)?;
            push_name_race(out, scripts, higher, name)
        }
    }
}

/// Appends the words of a rewrite. Fails only where there is no room for them.
fn push_rewrite(
    out: &mut Vec<u8>,
    scripts: &Scripts,
    first: CallAt,
    later: CallAt,
) -> Result<(), AllocError>
    ensures ok { OnOk result (out.new.items ≡ out.old.items ++ (codes "rewrite " ++ spec.rewrite_text scripts.now first later)) }
    ensures capacity { vec_capacity out.old ≤ vec_capacity out.new }
    ensures full { OnErr result (vec_capacity out.old < length out.old.items + length (codes "rewrite " ++ spec.rewrite_text scripts.now first later)) }
    ensures numbered { AreNumbered first later }
{
    out.extend_from_slice(b"rewrite ")?;
    push_call(out, scripts, first)?;
    push_later(out, scripts, later)
}

/// Appends a later put by its number, and its key. Fails only where there is no room for them.
fn push_later(out: &mut Vec<u8>, scripts: &Scripts, later: CallAt) -> Result<(), AllocError>
    ensures ok { OnOk result (out.new.items ≡ out.old.items ++ (codes " " ++ decimal (later.call + 1) ++ codes " "
        ++ spec.put_key_text scripts.now (call_at scripts.now.processes later.proc.number later.call))) }
    ensures capacity { vec_capacity out.old ≤ vec_capacity out.new }
    ensures full { OnErr result (vec_capacity out.old < length out.old.items + length (codes " " ++ decimal (later.call + 1) ++ codes " "
        ++ spec.put_key_text scripts.now (call_at scripts.now.processes later.proc.number later.call))) }
{
    out.extend_from_slice(b" ")?;
    push_number(out, u64::from(later.call) + 1)?;
    push_spaced(out, put_key(scripts, later))
}

/// Appends the words of a race up to its lower call. Fails only where there is no room for them.
pub(crate) fn push_race_start(
    out: &mut Vec<u8>,
    scripts: &Scripts,
    lower: CallAt,
) -> Result<(), AllocError>
    ensures ok { OnOk result (out.new.items ≡ out.old.items ++ race_start scripts.now lower) }
    ensures capacity { vec_capacity out.old ≤ vec_capacity out.new }
    ensures full { OnErr result (vec_capacity out.old < length out.old.items + length (race_start scripts.now lower)) }
{
    out.extend_from_slice(b"race ")?;
    push_call(out, scripts, lower)
}

/// The key that the call at a place puts, empty where it puts none.
fn put_key(scripts: &Scripts, place: CallAt) -> &[u8]
    ensures { result.now ≡ spec.put_key_text scripts.now (call_at scripts.now.processes place.proc.number place.call) }
{
    match find_call(scripts, place) {
        Some(Call::Put { key, .. }) => scripts.keys().text(*key),
        _ => b"".as_slice(),
    }
}
