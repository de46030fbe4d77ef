//! A command over one plan that writes its answer itself: the plan is read alike for all of them.

ghost use Rattle.std.specs.Prelude.{◌≡◌, ◌≢◌, ◌⊎◌, ℕ, List, Err, OnOk, IfOk, IfErr};
ghost use Rattle.wire_types.specs.declared.Fault.{Fault as FaultOf};
ghost use Rattle.wire_types.specs.declared.Fault.TheVariants.{Memory, Read};
ghost use Rattle.wire_types.specs.declared.OutputFormat.{OutputFormat as FormOf};
ghost use Rattle.wire_types.specs.Counting.{one_more};
ghost use Rattle.wire_scripts.specs.Scripts as content;
ghost use Rattle.wire_command.specs.declared.ended.Ended.{Ended as EndedOf};
ghost use Rattle.wire_command.specs.Answer.{BreaksOff, Writes, rows_in};
ghost use Rattle.wire_command.specs.Command.{BreaksOffText, StopsBeforeCommand, TellsSomehow, WritesText};

use crate::ended::Ended;
use crate::options::{AnswerStyle, CommandRun};
use crate::reading::{ReadsPlan, read_in};
use std::alloc::Global;
use wire_report::SourceLines;
use wire_scripts::Scripts;
use wire_types::{Fault, Sink, Source};

/// A command that writes what it makes of scripts.
pub trait StreamedCommand {
    /// What it needs.
    ghost needs: { Self → Type 0 };

    /// What its text tells of scripts and the lines of their calls, and how it ends.
    ghost tells: { Self → FormOf → List ℕ → content.Scripts → List (List ℕ) → List ℕ → EndedOf → Type 0 };

    /// By which fault it refuses scripts.
    ghost refuses: { Self → content.Scripts → FaultOf → Type 0 };

    /// Writes its text, and says how it ends.
    fn write<W: Sink>(
        &self,
        alloc: Global,
        scripts: Scripts,
        telling: AnswerStyle<'_>,
        writer: &mut W,
    ) -> Result<Ended, Fault>
        requires { needs self.now }
        ensures ok { IfOk result (λ ended. WritesText (λ text. tells self.now telling.entry.form telling.entry.places.name.now scripts
            (rows_in telling.entry.places) text ended) (W.written writer.old) (W.written writer.new)) }
        ensures quiet { OnOk result (W.failures writer.new ≡ W.failures writer.old) }

        // Either nothing was written, or the front of the text that the fault counts.
        ensures err { IfErr result (λ e. (((e ≡ Memory) ⊎ refuses self.now scripts e) × (writer.new ≡ writer.old))
            ⊎ (BreaksOffText (TellsSomehow (tells self.now telling.entry.form telling.entry.places.name.now scripts (rows_in telling.entry.places)))
            (W.written writer.old) (W.written writer.new) e × (W.failures writer.new ≡ one_more (W.failures writer.old)))) }
        ensures no_read { IfErr result (λ e. e ≢ Read) };
}

/// Runs a command that writes its answer itself: reads the plan to its end, and lets it write.
pub fn run_streamed<C: StreamedCommand, L: ReadsPlan, R: Source, W: Sink>(
    alloc: Global,
    run: CommandRun<'_, C, L>,
    reader: &mut R,
    writer: &mut W,
) -> Result<Ended, Fault>
    requires command { C.needs run.command.now }
    requires lines { L.needs run.lines.now }
    ensures ok { IfOk result (λ ended. Writes run.entry.options.size run.entry.options.form (R.coming reader.old)
        (C.tells run.entry.command.now run.entry.options.form run.entry.options.name.now) ended (W.written writer.old) (W.written writer.new)) }
    ensures quiet { OnOk result ((R.failures reader.new ≡ R.failures reader.old) × (W.failures writer.new ≡ W.failures writer.old)) }

    // Either nothing was written, or the front of the text that the fault counts.
    ensures err { IfErr result (λ e. (StopsBeforeCommand run.entry.options.size (R.coming reader.old) (C.refuses run.entry.command.now) e
        × (writer.new ≡ writer.old))
        ⊎ (BreaksOff run.entry.options.size run.entry.options.form (R.coming reader.old)
        (C.tells run.entry.command.now run.entry.options.form run.entry.options.name.now)
        (W.written writer.old) (W.written writer.new) e × (W.failures writer.new ≡ one_more (W.failures writer.old)))) }

    // A failed read is answered only where the reader failed.
    ensures read_failed { result ≡ Err Read → R.failures reader.new ≡ one_more (R.failures reader.old) }
    ensures unfailed { IfErr result (λ e. e ≢ Memory → e ≢ Read → R.failures reader.new ≡ R.failures reader.old) }
{
    let options = run.options;
    let (scripts, rows) = read_in(run.lines, alloc, options.size, options.form, reader)?;
    let places = SourceLines {
        name: options.name,
        rows: rows.as_slice(),
    };
    let form = options.form;
    let telling = AnswerStyle { places, form };
    run.command.write(alloc, scripts, telling, writer)
}
