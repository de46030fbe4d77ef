//! The commands of `wire_up` for other programs: each reads a plan from a reader and writes its answer to a writer,
//! within the limits of the plan's version and in lines. With larger limits and in other forms they stand in
//! `wire_commands`, each in a module of its name.
#![tactic(auto)]

ghost use Rattle.std.specs.Prelude.{◌≡◌, ◌≢◌, ◌⊎◌, ℕ, [], false, Ok, Err, OnOk, OnErr, IfOk, IfErr};
ghost use Rattle.wire_types.specs.declared.Fault.TheVariants.{Memory, Read, Workers, Write};
ghost use Rattle.wire_types.specs.Counting.{one_more};
ghost use Rattle.wire_types.specs.Texts.{texts_of};
ghost use Rattle.wire_scripts.specs.Scripts.{Scripts};
ghost use Rattle.wire_parallel_run.specs.Collect.{MayWork};
ghost use Rattle.wire_command.specs.declared.ended.Ended.TheVariants.{Clean};
ghost use Rattle.wire_command.specs.Answer.{BreaksOff, Writes};
ghost use Rattle.wire_commands.specs.Check.{EndsInOneState, IsVerdict, StopsBeforeFindings};
ghost use Rattle.wire_commands.specs.CheckAnywhere.{EndsInOneStateAnywhere, IsVerdictAnywhere};
ghost use Rattle.wire_commands.specs.Follow.{BreaksOffFollowed, StopsBefore, WritesFollowed};
ghost use Rattle.wire_commands.specs.Migrate.{BreaksOffMigrated, StopsBeforeMigrated, WritesMigrated};
ghost use Rattle.wire_commands.specs.Place.{BreaksOffPlaced, StopsBeforePlaced, WritesPlaced};
ghost use Rattle.wire_command.specs.Read.{ReadAs, Refuses};
ghost use Rattle.wire_commands.specs.Plain.{BreaksOffReport, WritesReport};
ghost use Rattle.wire_commands.specs.Replay.{BreaksOffReplay, StopsBeforeReplay, WritesOneEnd, WritesReplay};
ghost use Rattle.wire_commands.specs.Why.{ExplainsOrder, StopsBeforeAnswer, WritesAnswer};

use std::alloc::Global;
use std::sync::Wait;
use std::thread::Threads;
pub use wire_command::{CommandOptions, Ended};
pub use wire_command_line::{
    Asked, CallPair, CallWords, CheckScope, Command, ExpandOptions, PairOptions, PatternOptions,
    Refusal, ReplayOptions, Request, Spread, asked, read_request, workers_of,
};
pub use wire_commands::{
    Mode, PairAsked, ReplaySettings, Replayed, check_placements, check_plan, check_replies,
    explain_order, follow_plan, migrate_plan, place_plan, replay_plan, run_plainly, witness_pair,
    witness_races,
};
pub use wire_pattern_commands::{
    Expansion, PatternAsked, Spread as SpreadOver, check_pattern, expand_pattern,
};
pub use wire_reader::Size;
use wire_sched::Gate;
use wire_types::{Fault, OutputFormat, Sink, Source};

/// Within the limits of a plan's version, and in lines.
const IN_LINES: CommandOptions<'static> = CommandOptions {
    name: &[],
    size: Size::OfVersion,
    form: OutputFormat::Lines,
};

/// Checks a plan, as [`check_plan`] says.
pub fn check<R: Source, W: Sink>(
    rt: &(impl Threads + Sync),
    alloc: Global,
    reader: &mut R,
    writer: &mut W,
) -> Result<Ended, Fault>
    ensures ok { IfOk result (λ ended. Writes Size.OfVersion OutputFormat.Lines (R.coming reader.old) (IsVerdict OutputFormat.Lines []) ended
        (W.written writer.old) (W.written writer.new)) }
    ensures quiet { OnOk result ((R.failures reader.new ≡ R.failures reader.old) × (W.failures writer.new ≡ W.failures writer.old)) }

    // The headline: where it finds nothing, every interleaving that can't go on ends in one state, the plain run's.
    ensures one_end { result ≡ Ok Clean → EndsInOneState Size.OfVersion (R.coming reader.old) }

    // Either nothing was written, or the front of the findings that the fault counts.
    ensures err { IfErr result (λ e. (StopsBeforeFindings Size.OfVersion (R.coming reader.old) e × (writer.new ≡ writer.old))
        ⊎ (BreaksOff Size.OfVersion OutputFormat.Lines (R.coming reader.old) (IsVerdict OutputFormat.Lines []) (W.written writer.old) (W.written writer.new) e
        × (W.failures writer.new ≡ one_more (W.failures writer.old)))) }

    // A failed read is answered only where the reader failed.
    ensures read_failed { result ≡ Err Read → R.failures reader.new ≡ one_more (R.failures reader.old) }
    ensures unfailed { IfErr result (λ e. e ≢ Memory → e ≢ Read → R.failures reader.new ≡ R.failures reader.old) }
{
    check_plan(rt, alloc, IN_LINES, reader, writer)
}

/// Checks a plan on every placement of its ranks, as [`check_placements`] says.
pub fn check_anywhere<R: Source, W: Sink>(
    rt: &(impl Threads + Sync),
    alloc: Global,
    reader: &mut R,
    writer: &mut W,
) -> Result<Ended, Fault>
    ensures ok { IfOk result (λ ended. Writes Size.OfVersion OutputFormat.Lines (R.coming reader.old) (IsVerdictAnywhere OutputFormat.Lines []) ended
        (W.written writer.old) (W.written writer.new)) }
    ensures quiet { OnOk result ((R.failures reader.new ≡ R.failures reader.old) × (W.failures writer.new ≡ W.failures writer.old)) }

    // The headline: where it finds nothing, on each placement every interleaving that can't go on ends in one state.
    ensures one_end { result ≡ Ok Clean → EndsInOneStateAnywhere Size.OfVersion (R.coming reader.old) }

    // Either nothing was written, or the front of the findings that the fault counts.
    ensures err { IfErr result (λ e. (StopsBeforeFindings Size.OfVersion (R.coming reader.old) e × (writer.new ≡ writer.old))
        ⊎ (BreaksOff Size.OfVersion OutputFormat.Lines (R.coming reader.old) (IsVerdictAnywhere OutputFormat.Lines []) (W.written writer.old) (W.written writer.new) e
        × (W.failures writer.new ≡ one_more (W.failures writer.old)))) }

    // A failed read is answered only where the reader failed.
    ensures read_failed { result ≡ Err Read → R.failures reader.new ≡ one_more (R.failures reader.old) }
    ensures unfailed { IfErr result (λ e. e ≢ Memory → e ≢ Read → R.failures reader.new ≡ R.failures reader.old) }
{
    check_placements(rt, alloc, IN_LINES, reader, writer)
}

/// Replays a plan by so many workers at most, as [`replay_plan`] says. Its name is that of the requirements.
pub fn rehearse<R: Source, W: Sink, T: Threads + Wait + Sync, G: Gate + Sync>(
    rt: &T,
    alloc: Global,
    reader: &mut R,
    writer: &mut W,
    workers: usize,
    mode: Mode,
    gate: &G,
) -> Result<Ended, Fault>
    ensures ok { IfOk result (λ ended. WritesReplay Size.OfVersion mode (R.coming reader.old) ended (W.written writer.old) (W.written writer.new)) }
    ensures quiet { OnOk result ((R.failures reader.new ≡ R.failures reader.old) × (W.failures writer.new ≡ W.failures writer.old)) }

    // The headline: where it finds nothing, every interleaving that can't go on ends in one state, and the report of
    // that state is what it writes, whatever the workers.
    ensures one_end { result ≡ Ok Clean → WritesOneEnd Size.OfVersion mode (R.coming reader.old) (W.written writer.old) (W.written writer.new) }

    // Either nothing was written, or the front of the text that the fault counts.
    ensures err { IfErr result (λ e. (StopsBeforeReplay Size.OfVersion workers (R.coming reader.old) e × (writer.new ≡ writer.old))
        ⊎ (BreaksOffReplay Size.OfVersion mode (R.coming reader.old) (W.written writer.old) (W.written writer.new) e
        × (W.failures writer.new ≡ one_more (W.failures writer.old)))) }

    // Nothing is read where there can't be so many workers.
    ensures workers { (MayWork workers → ⊥) → (result ≡ Err Workers) × (reader.new ≡ reader.old) }

    // A failed read is answered only where the reader failed.
    ensures read_failed { result ≡ Err Read → R.failures reader.new ≡ one_more (R.failures reader.old) }
    ensures unfailed { IfErr result (λ e. e ≢ Memory → e ≢ Read → R.failures reader.new ≡ R.failures reader.old) }
{
    let size = Size::OfVersion;
    let manner = ReplaySettings {
        size,
        workers,
        mode,
        gate,
    };
    match replay_plan(rt, alloc, reader, writer, manner) {
        Ok(replayed) => Ok(replayed.ended),
        Err(fault) => Err(fault),
    }
}

/// Runs a plan by the plain run, as [`run_plainly`] says. Only tests and `make bench` call it.
pub fn plain<R: Source, W: Sink>(alloc: Global, reader: &mut R, writer: &mut W) -> Result<(), Fault>
    ensures ok { OnOk result (WritesReport Size.OfVersion (R.coming reader.old) (W.written writer.old) (W.written writer.new)) }
    ensures quiet { OnOk result ((R.failures reader.new ≡ R.failures reader.old) × (W.failures writer.new ≡ W.failures writer.old)) }

    // The fault of a file is the first that it has.
    ensures refused { IfErr result (λ e. e ≢ Memory → e ≢ Read → ((n : ℕ) → e ≢ Write n) → Refuses Size.OfVersion (R.coming reader.old) e) }
    ensures read_failed { result ≡ Err Read → R.failures reader.new ≡ one_more (R.failures reader.old) }
    ensures unfailed { IfErr result (λ e. e ≢ Memory → e ≢ Read → R.failures reader.new ≡ R.failures reader.old) }
    ensures front { (n : ℕ) → result ≡ Err (Write n) →
        BreaksOffReport Size.OfVersion (R.coming reader.old) (W.written writer.old) (W.written writer.new) n }
    ensures write_failed { (n : ℕ) → result ≡ Err (Write n) → W.failures writer.new ≡ one_more (W.failures writer.old) }
    ensures untouched { OnErr result (((n : ℕ) → result ≢ Err (Write n)) → writer.new ≡ writer.old) }
{
    run_plainly(alloc, reader, writer)
}

/// Runs the steps of an order, as [`follow_plan`] says.
pub fn follow<R: Source, O: Source, W: Sink>(
    alloc: Global,
    reader: &mut R,
    order_reader: &mut O,
    writer: &mut W,
) -> Result<(), Fault>
    ensures ok { OnOk result (WritesFollowed Size.OfVersion false (R.coming reader.old)
        (O.coming order_reader.old) (W.written writer.old) (W.written writer.new)) }
    ensures quiet { OnOk result ((R.failures reader.new ≡ R.failures reader.old) × (O.failures order_reader.new ≡ O.failures order_reader.old)
        × (W.failures writer.new ≡ W.failures writer.old)) }

    // Either nothing was written, or the front of the report that the fault counts.
    ensures err { IfErr result (λ e. (StopsBefore Size.OfVersion (R.coming reader.old) (O.coming order_reader.old) e × (writer.new ≡ writer.old))
        ⊎ (BreaksOffFollowed Size.OfVersion false (R.coming reader.old) (O.coming order_reader.old) (W.written writer.old) (W.written writer.new) e
        × (W.failures writer.new ≡ one_more (W.failures writer.old)))) }

    // A failed read is answered only where a reader failed, that of the order only where the file reads.
    ensures read_failed { result ≡ Err Read → (R.failures reader.new ≡ one_more (R.failures reader.old))
        ⊎ ((O.failures order_reader.new ≡ one_more (O.failures order_reader.old)) × (scripts : Scripts)
        × ReadAs Size.OfVersion (R.coming reader.old) scripts) }
    ensures unfailed { IfErr result (λ e. e ≢ Memory → e ≢ Read → (R.failures reader.new ≡ R.failures reader.old)
        × (O.failures order_reader.new ≡ O.failures order_reader.old)) }
{
    follow_plan(alloc, IN_LINES, reader, order_reader, writer)
}

/// Answers whether a chain of events leads from one call of a plan to another, as [`explain_order`] says.
pub fn why<R: Source, W: Sink>(
    alloc: Global,
    reader: &mut R,
    writer: &mut W,
    words: [&str; 4],
) -> Result<(), Fault>
    ensures ok { OnOk result (WritesAnswer Size.OfVersion OutputFormat.Lines (R.coming reader.old) [] (texts_of words.entry)
        (W.written writer.old) (W.written writer.new)) }
    ensures quiet { OnOk result ((R.failures reader.new ≡ R.failures reader.old) × (W.failures writer.new ≡ W.failures writer.old)) }

    // Either nothing was written, or the front of the answer that the fault counts.
    ensures err { IfErr result (λ e. (StopsBeforeAnswer Size.OfVersion (R.coming reader.old) (texts_of words.entry) e × (writer.new ≡ writer.old))
        ⊎ (BreaksOff Size.OfVersion OutputFormat.Lines (R.coming reader.old) (ExplainsOrder OutputFormat.Lines [] (texts_of words.entry))
        (W.written writer.old) (W.written writer.new) e × (W.failures writer.new ≡ one_more (W.failures writer.old)))) }

    // A failed read is answered only where the reader failed.
    ensures read_failed { result ≡ Err Read → R.failures reader.new ≡ one_more (R.failures reader.old) }
    ensures unfailed { IfErr result (λ e. e ≢ Memory → e ≢ Read → R.failures reader.new ≡ R.failures reader.old) }
{
    match explain_order(alloc, IN_LINES, reader, writer, words) {
        Ok(_) => Ok(()),
        Err(fault) => Err(fault),
    }
}

/// Puts a plan under version 2 of the format, as [`migrate_plan`] says.
pub fn migrate<R: Source, W: Sink>(
    alloc: Global,
    reader: &mut R,
    writer: &mut W,
) -> Result<(), Fault>
    ensures ok { OnOk result (WritesMigrated Size.OfVersion (R.coming reader.old) (W.written writer.old) (W.written writer.new)) }
    ensures quiet { OnOk result ((R.failures reader.new ≡ R.failures reader.old) × (W.failures writer.new ≡ W.failures writer.old)) }

    // Either nothing was written, or the front of the text that the fault counts.
    ensures err { IfErr result (λ e. (StopsBeforeMigrated Size.OfVersion (R.coming reader.old) e × (writer.new ≡ writer.old))
        ⊎ (BreaksOffMigrated Size.OfVersion (R.coming reader.old) (W.written writer.old) (W.written writer.new) e
        × (W.failures writer.new ≡ one_more (W.failures writer.old)))) }

    // A failed read is answered only where the reader failed.
    ensures read_failed { result ≡ Err Read → R.failures reader.new ≡ one_more (R.failures reader.old) }
    ensures unfailed { IfErr result (λ e. e ≢ Memory → e ≢ Read → R.failures reader.new ≡ R.failures reader.old) }
{
    migrate_plan(alloc, Size::OfVersion, reader, writer)
}

/// Puts some ranks of a plan on a node of their own, as [`place_plan`] says.
pub fn place<R: Source, W: Sink>(
    alloc: Global,
    reader: &mut R,
    writer: &mut W,
    word: &str,
) -> Result<(), Fault>
    ensures ok { OnOk result (WritesPlaced Size.OfVersion (R.coming reader.old) word.now (W.written writer.old) (W.written writer.new)) }
    ensures quiet { OnOk result ((R.failures reader.new ≡ R.failures reader.old) × (W.failures writer.new ≡ W.failures writer.old)) }

    // Either nothing was written, or the front of the text that the fault counts.
    ensures err { IfErr result (λ e. (StopsBeforePlaced Size.OfVersion (R.coming reader.old) word.now e × (writer.new ≡ writer.old))
        ⊎ (BreaksOffPlaced Size.OfVersion (R.coming reader.old) word.now (W.written writer.old) (W.written writer.new) e
        × (W.failures writer.new ≡ one_more (W.failures writer.old)))) }

    // A failed read is answered only where the reader failed.
    ensures read_failed { result ≡ Err Read → R.failures reader.new ≡ one_more (R.failures reader.old) }
    ensures unfailed { IfErr result (λ e. e ≢ Memory → e ≢ Read → R.failures reader.new ≡ R.failures reader.old) }
{
    place_plan(alloc, Size::OfVersion, reader, writer, word)
}
