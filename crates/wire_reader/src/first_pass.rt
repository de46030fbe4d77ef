//! The first pass: each line by itself and by those before it.

ghost use Rattle.std.specs.Prelude.{◌≡◌, ◌+◌, ◌<◌, ◌≤◌, ◌⊎◌, ℕ, List, Result};
ghost use Rattle.std.specs.Prelude.{true, false, Ok, Err, length, ◌^◌, OnOk, IfOk, IfErr};
ghost use Rattle.std.specs.Prelude.{MatchResult};
ghost use Rattle.std.specs.List.{list_all};
ghost use Rattle.wire_types.specs.Texts.{texts_of};
ghost use Rattle.wire_lines.specs.Text.{lines_of};
ghost use Rattle.wire_lines.specs.Said.{Keep, Rank};
ghost use Rattle.wire_lines.specs.Views.{said_by, view_call, view_item, set_by};
ghost use Rattle.wire_reader.specs.Limits as limit;
ghost use Rattle.wire_reader.specs.Statements.{statements};
ghost use Rattle.wire_reader.specs.Left.{statements_left, end_of};
ghost use Rattle.wire_reader.specs.Pieces.{HasRoom, IsSaid};
ghost use Rattle.wire_reader.specs.FirstPass as spec;
ghost use Rattle.wire_reader.specs.FirstPass.{Declared, judged, after, nothing, Judges, JudgesAll, FirstPass};
ghost use Rattle.wire_reader.specs.Drafted.{declared_of};

use crate::draft::{Draft, LocatedCall, Started};
use crate::limits::{Limits, NAME_BYTES, Size, VALUE_BYTES};
use crate::lines::Cursor;
use crate::numbered_texts::NumberedTexts;
use std::alloc::{AllocError, Global};
use wire_lines::{CallLine, Item, Line, Set, header_version, read_line};
use wire_types::{Fault, Version};

/// Whether a name is within its limit.
fn is_short_name(name: &[u8]) -> bool
    ensures { result ≡ spec.is_short_name name.now }
{
    name.len() <= NAME_BYTES
}

/// Whether a value is within its limit.
fn is_short_value(value: &[u8]) -> bool
    ensures { result ≡ spec.is_short_value value.now }
{
    value.len() <= VALUE_BYTES
}

/// Whether the name in an item of a set is within its limit.
fn is_short_item(item: &Item) -> bool
    ensures { result ≡ spec.is_short_item (view_item item.now) }
{
    match item {
        Item::One(owner) => is_short_name(owner.job),
        Item::Every(job) => is_short_name(job),
    }
}

/// Whether the names in these items are within their limit.
fn are_short_items(items: &[Item]) -> bool
    ensures { result ≡ list_all (λ i. spec.is_short_item (view_item i)) items.now }
{
    items.iter().all(|item| is_short_item(item))
}

/// Whether the names in a set are within their limit.
#[tactic(auto, using(crate::proofs::Lists::all_of))]
fn is_short_set(set: &Set) -> bool
    ensures { result ≡ spec.is_short_set (set_by set.now) }
{
    match set {
        Set::Own => true,
        Set::Listed(items) => are_short_items(items),
    }
}

/// Whether the names, the key and the value of a call are within their limits.
fn is_short_call(call: &CallLine) -> bool
    ensures { result ≡ spec.is_short_call (view_call call.now) }
{
    match call {
        CallLine::Put { key, value, .. } => is_short_name(key) && is_short_value(value),
        CallLine::Commit | CallLine::UnpublishAll => true,
        CallLine::Fence { set, .. } => is_short_set(set),
        CallLine::Get { owner, key } | CallLine::GetNow { owner, key } => is_short_name(owner.job)
            && is_short_name(key),
        CallLine::Publish { name, value } => is_short_name(name) && is_short_value(value),
        CallLine::Lookup { name } | CallLine::LookupWait { name } | CallLine::Unpublish { name } =>
            { is_short_name(name) }
    }
}

/// Whether the names, keys and values of a line are within their limits.
fn is_short(said: &Line) -> bool
    ensures { result ≡ spec.is_short (said_by said.now) }
{
    match said {
        Line::Header(_) | Line::Keep => true,
        Line::Node(name) | Line::Job(name) | Line::Rank(name) => is_short_name(name),
        Line::Calls(call) => is_short_call(call),
    }
}

/// A draft in which nothing is declared.
pub fn new_draft<'a>(alloc: Global, size: Size, version: Version) -> Draft<'a>
    ensures { declared_of result ≡ nothing size version }
{
    Draft {
        version,
        keeps: false,
        limits: Limits::of(size, version),
        nodes: NumberedTexts::new(alloc),
        jobs: NumberedTexts::new(alloc),
        processes: Vec::new(alloc),
        ranks: 0,
        calls: 0,
    }
}

/// Whether the line `keep` may stand here: once, first after the header, where the version has it.
fn may_say_keep(draft: &Draft) -> bool
    ensures { result ≡ spec.is_in_place (declared_of draft.now) Keep }
{
    match draft.version {
        Version::One => false,
        Version::Two => !draft.keeps && draft.nodes.is_empty() && draft.jobs.is_empty(),
    }
}

/// Whether a file of this version may make the call: version 1 doesn't know that of all names.
fn may_call(version: Version, call: &CallLine) -> bool
    ensures { result ≡ spec.has_call version (view_call call.now) }
{
    match version {
        Version::One => !matches!(call, CallLine::UnpublishAll),
        Version::Two => true,
    }
}

/// Whether a line may stand where it stands.
fn is_in_place(draft: &Draft, said: &Line) -> bool
    ensures { result ≡ spec.is_in_place (declared_of draft.now) (said_by said.now) }
{
    match said {
        Line::Header(_) => false,
        Line::Keep => may_say_keep(draft),
        Line::Node(_) => draft.jobs.is_empty(),
        Line::Job(_) => true,
        Line::Rank(_) => 0 < draft.jobs.len(),
        Line::Calls(call) => 0 < draft.ranks && may_call(draft.version, call),
    }
}

/// Whether a line names what is declared.
fn is_known(draft: &Draft, said: &Line) -> bool
    ensures { result ≡ spec.is_known (declared_of draft.now) (said_by said.now) }
{
    match said {
        Line::Rank(node) => draft.nodes.contains(node),
        _ => true,
    }
}

/// Whether a line declares what is declared already.
fn is_again(draft: &Draft, said: &Line) -> bool
    ensures { result ≡ spec.is_again (declared_of draft.now) (said_by said.now) }
{
    match said {
        Line::Node(name) => draft.nodes.contains(name),
        Line::Job(name) => draft.jobs.contains(name),
        _ => false,
    }
}

/// Whether there is room for what a line declares.
fn has_room(draft: &Draft, said: &Line) -> bool
    ensures { result ≡ spec.has_room (declared_of draft.now) (said_by said.now) }
{
    match said {
        Line::Header(_) | Line::Keep => true,
        Line::Node(_) => draft.nodes.len() < draft.limits.nodes,
        Line::Job(_) => draft.jobs.len() < draft.limits.jobs,
        Line::Rank(_) => draft.processes.len() < draft.limits.processes as usize,
        Line::Calls(_) => draft.calls < draft.limits.calls as usize,
    }
}

/// The fault of a line that says this.
fn judge(draft: &Draft, line: u64, said: &Line) -> Result<(), Fault>
    ensures judged { MatchResult result
        (λ _. judged (declared_of draft.now) line (said_by said.now)
        ≡ Ok (after (declared_of draft.now) line (said_by said.now)))
        (λ e. judged (declared_of draft.now) line (said_by said.now) ≡ Err e) }
    ensures place { OnOk result (spec.is_in_place (declared_of draft.now) (said_by said.now) ≡ true) }
    ensures new { OnOk result (spec.is_again (declared_of draft.now) (said_by said.now) ≡ false) }
    ensures room { OnOk result (spec.has_room (declared_of draft.now) (said_by said.now) ≡ true) }
{
    if !is_in_place(draft, said) {
        Err(Fault::BadLine(line))
    } else if !is_short(said) {
        Err(Fault::TooLong(line))
    } else if !is_known(draft, said) {
        Err(Fault::UnknownName(line))
    } else if is_again(draft, said) {
        Err(Fault::Twice(line))
    } else if !has_room(draft, said) {
        Err(Fault::TooMany(line))
    } else {
        Ok(())
    }
}

/// For how many calls a new process gets room: as many as the last process has, within a bound. In many plans each
/// process has as many.
fn room_for_calls(draft: &Draft) -> usize
    ensures { result ≤ 65536 }
{
    match draft.processes.last() {
        Some(process) => process.calls.len().min(65_536),
        None => 0,
    }
}

/// Declares a process of the last job on the node of this name.
fn add_process(draft: &mut Draft, alloc: Global, node: &[u8]) -> Result<(), AllocError>
    requires place { spec.is_in_place (declared_of draft.old) (Rank node.now) ≡ true }
    requires room { spec.has_room (declared_of draft.old) (Rank node.now) ≡ true }
    ensures { (line : ℕ) → OnOk result (declared_of draft.new ≡ after (declared_of draft.old) line (Rank node.now)) }
{
    let job = draft.jobs.len() - 1;
    let rank = draft.ranks;
    let node = draft.nodes.number_or_count(node);
    let calls = Vec::with_capacity(alloc, room_for_calls(draft))?;
    draft.processes.push(Started {
        job,
        rank,
        node,
        calls,
    })?;
    draft.ranks += 1;
    Ok(())
}

/// Declares what a line says.
fn add<'a>(
    draft: &mut Draft<'a>,
    alloc: Global,
    line: u64,
    said: Line<'a>,
) -> Result<(), AllocError>
    requires place { spec.is_in_place (declared_of draft.old) (said_by said) ≡ true }
    requires new { spec.is_again (declared_of draft.old) (said_by said) ≡ false }
    requires room { spec.has_room (declared_of draft.old) (said_by said) ≡ true }
    ensures { OnOk result (declared_of draft.new ≡ after (declared_of draft.old) line (said_by said.entry)) }
{
    match said {
        Line::Header(_) => Ok(()),
        Line::Keep => {
            draft.keeps = true;
            Ok(())
        }
        Line::Node(name) => draft.nodes.add(alloc, name),
        Line::Job(name) => {
            draft.jobs.add(alloc, name)?;
            draft.ranks = 0;
            Ok(())
        }
        Line::Rank(name) => add_process(draft, alloc, name),
        Line::Calls(call) => {
            if let Some(process) = draft.processes.last_mut() {
                process.calls.push(LocatedCall { line, call })?;
                draft.calls += 1;
            }
            Ok(())
        }
    }
}

/// Judges what a line says, and declares it. A line whose words are no line of a plan is refused.
pub fn take_said<'a>(
    draft: &mut Draft<'a>,
    alloc: Global,
    line: u64,
    said: Option<Line<'a>>,
) -> Result<(), Fault>
    ensures ok { OnOk result ((words : List (List ℕ)) → IsSaid words said.entry →
        Judges (declared_of draft.old) (line, words) (Ok (declared_of draft.new))) }
    ensures err { IfErr result (λ e. (e ≡ Fault.Memory) ⊎ ((words : List (List ℕ)) → IsSaid words said.entry →
        Judges (declared_of draft.old) (line, words) (Err e))) }
{
    let Some(said) = said else {
        return Err(Fault::BadLine(line));
    };
    if let Err(fault) = judge(draft, line, &said) {
        return Err(fault);
    }
    add(draft, alloc, line, said)?;
    Ok(())
}

/// Judges a line, and declares what it says.
fn take<'a>(
    draft: &mut Draft<'a>,
    alloc: Global,
    line: u64,
    words: &[&'a [u8]],
) -> Result<(), Fault>
    ensures ok { OnOk result
        (Judges (declared_of draft.old) (line, texts_of words.now) (Ok (declared_of draft.new))) }
    ensures err { IfErr result
        (λ e. (e ≡ Fault.Memory) ⊎ Judges (declared_of draft.old) (line, texts_of words.now) (Err e)) }
{
    let said = read_line(alloc, words)?;
    take_said(draft, alloc, line, said)
}

/// Declares what the lines left say.
fn declare_lines<'a>(
    draft: &mut Draft<'a>,
    alloc: Global,
    cursor: &mut Cursor<'a>,
) -> Result<(), Fault>
    requires { cursor.old.line + length cursor.old.rest.now < 2 ^ 64 }
    ensures ok { OnOk result
        (JudgesAll (declared_of draft.old) (statements_left cursor.old) (Ok (declared_of draft.new))) }
    ensures err { IfErr result
        (λ e. (e ≡ Fault.Memory) ⊎ JudgesAll (declared_of draft.old) (statements_left cursor.old) (Err e)) }
{
    let mut words = Vec::new(alloc);
    'statements: while let Some(line) = cursor.next_words(&mut words)? {
        if let Err(fault) = take(draft, alloc, line, &words) {
            return Err(fault);
        }
    }
    Ok(())
}

/// The lines after the header of this version.
fn declare_all<'a>(
    alloc: Global,
    size: Size,
    version: Version,
    cursor: &mut Cursor<'a>,
) -> Result<Draft<'a>, Fault>
    requires { cursor.old.line + length cursor.old.rest.now < 2 ^ 64 }
    ensures ok { IfOk result (λ d. JudgesAll (nothing size version) (statements_left cursor.old) (Ok (declared_of d))) }
    ensures err { IfErr result (λ e. (e ≡ Fault.Memory) ⊎ JudgesAll (nothing size version) (statements_left cursor.old) (Err e)) }
{
    let mut draft = new_draft(alloc, size, version);
    match declare_lines(&mut draft, alloc, cursor) {
        Ok(()) => Ok(draft),
        Err(fault) => {
            drop(draft);
            Err(fault)
        }
    }
}

/// The version that the header of a file says, which is its first line that isn't skipped.
pub fn read_header(alloc: Global, cursor: &mut Cursor<'_>) -> Result<Version, Fault>
    requires { HasRoom cursor.old }
    ensures ok { IfOk result (λ version. (size : Size) (n : ℕ) (r : Result Declared Fault) →
        JudgesAll (nothing size version) (statements_left cursor.new) r → FirstPass size (statements_left cursor.old) n r) }
    ensures err { IfErr result (λ e. (e ≡ Fault.Memory) ⊎ ((size : Size) (n : ℕ) → n + 1 ≡ end_of cursor.old →
        FirstPass size (statements_left cursor.old) n (Err e))) }
    ensures room { OnOk result (HasRoom cursor.new) }
{
    let Some(first) = cursor.next_line(alloc)? else {
        return Err(Fault::BadHeader(cursor.line));
    };
    match header_version(&first.words) {
        Some(version) => Ok(version),
        None => Err(Fault::BadHeader(first.number)),
    }
}

/// What a file declares.
pub fn first_pass<'a>(alloc: Global, size: Size, bytes: &'a [u8]) -> Result<Draft<'a>, Fault>
    requires { length bytes.now ≤ limit.file_bytes size }
    ensures ok { IfOk result
        (λ d. FirstPass size (statements bytes.now) (length (lines_of bytes.now)) (Ok (declared_of d))) }
    ensures err { IfErr result
        (λ e. (e ≡ Fault.Memory) ⊎ FirstPass size (statements bytes.now) (length (lines_of bytes.now)) (Err e)) }
{
    let mut cursor = Cursor::new(bytes);
    let version = read_header(alloc, &mut cursor)?;
    declare_all(alloc, size, version, &mut cursor)
}
