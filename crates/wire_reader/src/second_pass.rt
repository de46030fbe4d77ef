//! The second pass: each call by all that is declared, with numbers for what it names.

ghost use Rattle.std.specs.Prelude.{◌≡◌, ◌⊎◌, ◌+◌, ◌*◌, ◌≤◌, ◌<◌, ◌^◌, List, ℕ, Some, None, Ok, Err, true, false, map};
ghost use Rattle.std.specs.Prelude.{length, OnOk, IfOk, IfErr};
ghost use Rattle.wire_lines.specs.Views.{view_call, set_by};
ghost use Rattle.wire_reader.specs.FirstPass.{number_or_count};
ghost use Rattle.wire_reader.specs.Reads as spec;
ghost use Rattle.wire_reader.specs.Reads.{Seen, is_declared_set, is_in, set_members, has_proc, proc_number, numbered};
ghost use Rattle.wire_reader.specs.Reads.{process_of, call_fault, fault_in};
ghost use Rattle.wire_reader.specs.Reads.{first_fault, second_pass};
ghost use Rattle.wire_reader.specs.Within.{IsWithinLimits, IsDeclared};
ghost use Rattle.wire_reader.specs.Drafted.{declared_of, started_of, placed_of};
ghost use Rattle.wire_reader.specs.Tabled.{seen_of, seen_with, seen_after, all_seen, nothing_seen, entry_count};
ghost use Rattle.wire_reader.specs.Tabled.{with_text, IsPrefix, GoOn};
ghost use Rattle.wire_reader.specs.Targets.{named_in, AreNotesOf};

use crate::draft::{Draft, LocatedCall, Started};
use crate::members::{Target, are_declared, find_targets, is_named, named_members, proc_of};
use crate::noted::Noted;
use crate::numbered_tables::NumberedTables;
use crate::numbered_texts::NumberedTexts;
use crate::numbers::{number_set, number_text};
use std::alloc::{AllocError, Global};
use wire_lines::{CallLine, ProcName, Set};
use wire_scripts::{Process, Scripts};
use wire_types::{Call, Fault, Proc, Scope};

/// The tables so far, and the sets that were named, with their numbers.
struct Numbering {
    tables: NumberedTables,
    noted: Noted,
}

// By hand and not derived: so dropping one is a call, and the proof of a function that drops one doesn't take it apart.
impl Drop for Numbering {
    fn drop(self) {
        let Numbering {
            tables: _,
            noted: _,
        } = self;
    }
}

impl Numbering {
    /// The tables alone.
    fn into_tables(self) -> NumberedTables
        ensures { result ≡ self.tables }
    {
        let Numbering { tables, noted } = self;
        drop(noted);
        tables
    }
}

/// The process that a get of either kind names, and the number of its key, or the fault of the get.
fn number_get(
    alloc: Global,
    draft: &Draft,
    keys: &mut NumberedTexts,
    owner: ProcName,
    key: &[u8],
    line: u64,
) -> Result<(Proc, u32), Fault>
    requires within { IsWithinLimits (declared_of draft.now) }
    requires declared { IsDeclared (declared_of draft.now) }
    requires room { length keys.old + 1 < 2 ^ 32 }
    ensures keys { OnOk result (keys.new ≡ with_text keys.old key.now) }
    ensures declared { OnOk result
        (has_proc (declared_of draft.now) owner.entry.job.now owner.entry.rank ≡ true) }
    ensures owner { IfOk result
        (λ g. g.0.number ≡ proc_number (declared_of draft.now) owner.entry.job.now owner.entry.rank) }
    ensures key { IfOk result
        (λ g. (later : List (List ℕ)) → IsPrefix keys.new later → g.1 ≡ number_or_count later key.now) }
    ensures err { IfErr result (λ e. (e ≡ Fault.Memory)
        ⊎ ((has_proc (declared_of draft.now) owner.entry.job.now owner.entry.rank ≡ false)
        × (e ≡ Fault.UnknownName line))) }
{
    let Some(owner) = proc_of(draft, owner) else {
        return Err(Fault::UnknownName(line));
    };
    let key = number_text(alloc, keys, key)?;
    Ok((owner, key))
}

/// The number of the set of what is named, which is added where it isn't there.
fn number_targets(
    alloc: Global,
    draft: &Draft,
    numbering: &mut Numbering,
    targets: &[Target],
) -> Result<u32, AllocError>
    requires within { IsWithinLimits (declared_of draft.now) }
    requires declared { IsDeclared (declared_of draft.now) }
    requires room { length numbering.old.tables.sets + 1 < 2 ^ 32 }
    requires noted { AreNotesOf (declared_of draft.now) numbering.old.tables.sets numbering.old.noted }
    ensures number { IfOk result (λ n. (later : List (List ℕ)) → IsPrefix numbering.new.tables.sets later
        → n ≡ number_or_count later (named_in (declared_of draft.now) targets.now)) }
    ensures tables { OnOk result (seen_of numbering.new.tables ≡ record (seen_of numbering.old.tables) {
      sets = with_text numbering.old.tables.sets (named_in (declared_of draft.now) targets.now);
    }) }
    ensures noted { OnOk result (AreNotesOf (declared_of draft.now) numbering.new.tables.sets numbering.new.noted) }
{
    if let Some(number) = numbering.noted.number_of(targets) {
        return Ok(number);
    }
    let members = named_members(alloc, draft, targets)?;
    let number = number_set(&mut numbering.tables.sets, members)?;
    numbering.noted.note(alloc, targets, number)?;
    Ok(number)
}

/// What the set of a fence names, or the fault of the fence.
fn targets_of(
    alloc: Global,
    draft: &Draft,
    caller: &Started,
    line: u64,
    set: &Set,
) -> Result<Vec<Target>, Fault>
    requires within { IsWithinLimits (declared_of draft.now) }
    requires declared { IsDeclared (declared_of draft.now) }
    ensures declared { OnOk result (is_declared_set (declared_of draft.now) (set_by set.now) ≡ true) }
    ensures caller { OnOk result
        (is_in (declared_of draft.now) caller.now.job (set_by set.now) (started_of caller.now) ≡ true) }
    ensures members { IfOk result (λ v. named_in (declared_of draft.now) v.items
        ≡ set_members (declared_of draft.now) caller.now.job (set_by set.now)) }
    ensures err { IfErr result (λ e. (e ≡ Fault.Memory)
        ⊎ ((is_declared_set (declared_of draft.now) (set_by set.now) ≡ false) × (e ≡ Fault.UnknownName line))
        ⊎ ((is_declared_set (declared_of draft.now) (set_by set.now) ≡ true)
        × (is_in (declared_of draft.now) caller.now.job (set_by set.now) (started_of caller.now) ≡ false)
        × (e ≡ Fault.NotMember line))) }
{
    match set {
        Set::Own => {
            let own = Vec::from_slice(alloc, &[Target::Every { job: caller.job }])?;
            Ok(own)
        }
        Set::Listed(items) => {
            let targets = find_targets(alloc, draft, items)?;
            if !are_declared(draft, &targets) {
                return Err(Fault::UnknownName(line));
            }
            if !is_named(&targets, caller) {
                return Err(Fault::NotMember(line));
            }
            Ok(targets)
        }
    }
}

/// The number of the set of a fence, which is added where it isn't there, or the fault of the fence.
fn number_fence(
    alloc: Global,
    draft: &Draft,
    numbering: &mut Numbering,
    caller: &Started,
    line: u64,
    set: &Set,
) -> Result<u32, Fault>
    requires within { IsWithinLimits (declared_of draft.now) }
    requires declared { IsDeclared (declared_of draft.now) }
    requires room { length numbering.old.tables.sets + 1 < 2 ^ 32 }
    requires noted { AreNotesOf (declared_of draft.now) numbering.old.tables.sets numbering.old.noted }
    ensures number { IfOk result (λ n. (later : List (List ℕ)) → IsPrefix numbering.new.tables.sets later
        → n ≡ number_or_count later (set_members (declared_of draft.now) caller.now.job (set_by set.now))) }
    ensures tables { OnOk result (seen_of numbering.new.tables ≡ record (seen_of numbering.old.tables) {
      sets = with_text numbering.old.tables.sets (set_members (declared_of draft.now) caller.now.job (set_by set.now));
    }) }
    ensures noted { OnOk result (AreNotesOf (declared_of draft.now) numbering.new.tables.sets numbering.new.noted) }
    ensures declared { OnOk result (is_declared_set (declared_of draft.now) (set_by set.now) ≡ true) }
    ensures caller { OnOk result
        (is_in (declared_of draft.now) caller.now.job (set_by set.now) (started_of caller.now) ≡ true) }
    ensures err { IfErr result (λ e. (e ≡ Fault.Memory)
        ⊎ ((is_declared_set (declared_of draft.now) (set_by set.now) ≡ false) × (e ≡ Fault.UnknownName line))
        ⊎ ((is_declared_set (declared_of draft.now) (set_by set.now) ≡ true)
        × (is_in (declared_of draft.now) caller.now.job (set_by set.now) (started_of caller.now) ≡ false)
        × (e ≡ Fault.NotMember line))) }
{
    let targets = targets_of(alloc, draft, caller, line, set)?;
    let number = number_targets(alloc, draft, numbering, &targets)?;
    Ok(number)
}

/// A put with numbers for its key and its value.
fn number_put(
    alloc: Global,
    tables: &mut NumberedTables,
    scope: Scope,
    key: &[u8],
    value: &[u8],
) -> Result<Call, Fault>
    requires { entry_count (seen_of tables.old) + 2 < 2 ^ 32 }
    ensures tables { OnOk result (seen_of tables.new ≡ record (seen_of tables.old) {
      keys = with_text tables.old.keys key.now;
      values = with_text tables.old.values value.now;
    }) }
    ensures call { IfOk result (λ c. (later : Seen) → GoOn (seen_of tables.new) later
        → c ≡ Call.Put scope (number_or_count later.keys key.now) (number_or_count later.values value.now)) }
    ensures err { IfErr result (λ e. e ≡ Fault.Memory) }
{
    let key = number_text(alloc, &mut tables.keys, key)?;
    let value = number_text(alloc, &mut tables.values, value)?;
    Ok(Call::Put { scope, key, value })
}

/// A publish with numbers for its name and its value.
fn number_publish(
    alloc: Global,
    tables: &mut NumberedTables,
    name: &[u8],
    value: &[u8],
) -> Result<Call, Fault>
    requires { entry_count (seen_of tables.old) + 2 < 2 ^ 32 }
    ensures tables { OnOk result (seen_of tables.new ≡ record (seen_of tables.old) {
      names = with_text tables.old.names name.now;
      values = with_text tables.old.values value.now;
    }) }
    ensures call { IfOk result (λ c. (later : Seen) → GoOn (seen_of tables.new) later
        → c ≡ Call.Publish (number_or_count later.names name.now) (number_or_count later.values value.now)) }
    ensures err { IfErr result (λ e. e ≡ Fault.Memory) }
{
    let name = number_text(alloc, &mut tables.names, name)?;
    let value = number_text(alloc, &mut tables.values, value)?;
    Ok(Call::Publish { name, value })
}

/// A call with numbers for what it names, or its fault.
fn number_call(
    alloc: Global,
    draft: &Draft,
    numbering: &mut Numbering,
    caller: &Started,
    placed: &LocatedCall,
) -> Result<Call, Fault>
    requires within { IsWithinLimits (declared_of draft.now) }
    requires declared { IsDeclared (declared_of draft.now) }
    requires room { entry_count (seen_of numbering.old.tables) + 2 < 2 ^ 32 }
    requires noted { AreNotesOf (declared_of draft.now) numbering.old.tables.sets numbering.old.noted }
    ensures tables { OnOk result (seen_of numbering.new.tables
        ≡ seen_with (declared_of draft.now) (seen_of numbering.old.tables) caller.now.job (view_call placed.now.call)) }
    ensures call { IfOk result (λ c. (later : Seen) → GoOn (seen_of numbering.new.tables) later
        → c ≡ numbered (declared_of draft.now) later caller.now.job (view_call placed.now.call)) }
    ensures noted { OnOk result (AreNotesOf (declared_of draft.now) numbering.new.tables.sets numbering.new.noted) }
    ensures ok { OnOk result
        (call_fault (declared_of draft.now) (started_of caller.now) placed.now.line (view_call placed.now.call) ≡ None) }
    ensures err { IfErr result (λ e. (e ≡ Fault.Memory)
        ⊎ (call_fault (declared_of draft.now) (started_of caller.now) placed.now.line (view_call placed.now.call) ≡ Some e)) }
{
    match &placed.call {
        CallLine::Put { scope, key, value } => {
            number_put(alloc, &mut numbering.tables, *scope, key, value)
        }
        CallLine::Commit => Ok(Call::Commit),
        CallLine::Fence { set, collect } => {
            let collect = *collect;
            let set = number_fence(alloc, draft, numbering, caller, placed.line, set)?;
            Ok(Call::Fence { set, collect })
        }
        CallLine::Get { owner, key } => {
            let keys = &mut numbering.tables.keys;
            let (owner, key) = number_get(alloc, draft, keys, *owner, key, placed.line)?;
            Ok(Call::Get { owner, key })
        }
        CallLine::GetNow { owner, key } => {
            let keys = &mut numbering.tables.keys;
            let (owner, key) = number_get(alloc, draft, keys, *owner, key, placed.line)?;
            Ok(Call::GetNow { owner, key })
        }
        CallLine::Publish { name, value } => {
            number_publish(alloc, &mut numbering.tables, name, value)
        }
        CallLine::Lookup { name } => Ok(Call::Lookup {
            name: number_text(alloc, &mut numbering.tables.names, name)?,
        }),
        CallLine::LookupWait { name } => Ok(Call::LookupWait {
            name: number_text(alloc, &mut numbering.tables.names, name)?,
        }),
        CallLine::Unpublish { name } => Ok(Call::Unpublish {
            name: number_text(alloc, &mut numbering.tables.names, name)?,
        }),
        CallLine::UnpublishAll => Ok(Call::UnpublishAll),
    }
}

/// A process with numbers for what its calls name, or the first fault.
fn number_process(
    alloc: Global,
    draft: &Draft,
    numbering: &mut Numbering,
    process: &Started,
) -> Result<Process, Fault>
    requires within { IsWithinLimits (declared_of draft.now) }
    requires declared { IsDeclared (declared_of draft.now) }
    requires room { entry_count (seen_of numbering.old.tables) + 2 * length process.now.calls.items < 2 ^ 32 }
    requires noted { AreNotesOf (declared_of draft.now) numbering.old.tables.sets numbering.old.noted }
    ensures tables { OnOk result (seen_of numbering.new.tables
        ≡ seen_after (declared_of draft.now) (seen_of numbering.old.tables) process.now.job (map placed_of process.now.calls.items)) }
    ensures process { IfOk result (λ p. (later : Seen) → GoOn (seen_of numbering.new.tables) later
        → p ≡ process_of (declared_of draft.now) later (started_of process.now)) }
    ensures noted { OnOk result (AreNotesOf (declared_of draft.now) numbering.new.tables.sets numbering.new.noted) }
    ensures ok { OnOk result
        (fault_in (declared_of draft.now) (started_of process.now) (map placed_of process.now.calls.items) ≡ None) }
    ensures err { IfErr result (λ e. (e ≡ Fault.Memory)
        ⊎ (fault_in (declared_of draft.now) (started_of process.now) (map placed_of process.now.calls.items) ≡ Some e)) }
{
    let mut calls = Vec::with_capacity(alloc, process.calls.len())?;
    for placed in &process.calls {
        let call = number_call(alloc, draft, numbering, process, placed)?;
        if calls.push(call).is_err() {
            return Err(Fault::Memory);
        }
    }
    Ok(Process::new(process.job, process.rank, process.node, calls))
}

/// The processes with numbers for what their calls name, or the first fault.
fn number_processes(
    alloc: Global,
    draft: &Draft,
    numbering: &mut Numbering,
) -> Result<Vec<Process>, Fault>
    requires within { IsWithinLimits (declared_of draft.now) }
    requires declared { IsDeclared (declared_of draft.now) }
    requires empty { seen_of numbering.old.tables ≡ nothing_seen }
    requires noted { AreNotesOf (declared_of draft.now) numbering.old.tables.sets numbering.old.noted }
    ensures tables { OnOk result (seen_of numbering.new.tables
        ≡ all_seen (declared_of draft.now) nothing_seen (map started_of draft.now.processes.items)) }
    ensures processes { IfOk result (λ v. v.items
        ≡ map (process_of (declared_of draft.now) (seen_of numbering.new.tables)) (map started_of draft.now.processes.items)) }
    ensures ok { OnOk result
        (first_fault (declared_of draft.now) (map started_of draft.now.processes.items) ≡ None) }
    ensures err { IfErr result (λ e. (e ≡ Fault.Memory)
        ⊎ (first_fault (declared_of draft.now) (map started_of draft.now.processes.items) ≡ Some e)) }
{
    let mut processes = Vec::with_capacity(alloc, draft.processes.len())?;
    for process in &draft.processes {
        let numbered = number_process(alloc, draft, numbering, process)?;
        if processes.push(numbered).is_err() {
            return Err(Fault::Memory);
        }
    }
    Ok(processes)
}

/// The scripts that a draft declares, or the first fault of its calls.
pub fn scripts_of(alloc: Global, draft: Draft) -> Result<Scripts, Fault>
    requires within { IsWithinLimits (declared_of draft) }
    requires declared { IsDeclared (declared_of draft) }
    ensures ok { IfOk result (λ s. second_pass (declared_of draft.entry) ≡ Ok s) }
    ensures err { IfErr result (λ e. (e ≡ Fault.Memory) ⊎ (second_pass (declared_of draft.entry) ≡ Err e)) }
{
    let mut numbering = Numbering {
        tables: NumberedTables::new(alloc),
        noted: Noted::new(alloc),
    };
    match number_processes(alloc, &draft, &mut numbering) {
        Ok(processes) => Ok(draft.into_scripts(alloc, numbering.into_tables(), processes)?),
        Err(fault) => {
            drop(numbering);
            drop(draft);
            Err(fault)
        }
    }
}
