//! `migrate`: a plan, put under version 2 of the format.

ghost use Rattle.std.specs.Prelude.{◌≡◌, ◌≢◌, ◌⊎◌, Err, OnOk, IfOk, IfErr};
ghost use Rattle.wire_types.specs.declared.Fault.TheVariants.{Memory, Read};
ghost use Rattle.wire_types.specs.Counting.{one_more};
ghost use Rattle.wire_commands.specs.Migrate as spec;
ghost use Rattle.wire_commands.specs.Migrate.{BreaksOffMigrated, StopsBeforeMigrated, TellsMigrated, WritesMigrated};

use std::alloc::Global;
use wire_command::{
    Alone, Answer, AnswerStyle, Command, CommandOptions, CommandRun, Ended, run_command,
};
use wire_reader::Size;
use wire_scripts::Scripts;
use wire_types::{Fault, OutputFormat, Sink, Source};

/// The canonical text of scripts under version 2.
fn migrated_text(alloc: Global, scripts: Scripts) -> Result<Vec<u8>, Fault>
    ensures ok { IfOk result (λ text. text.items ≡ spec.migrated_text scripts) }
    ensures err { IfErr result (λ e. e ≡ Memory) }
{
    let migrated = scripts.into_version_2();
    let text = migrated.to_text(alloc);
    drop(migrated);
    text
}

/// Puts a plan under version 2 of the format: reads it to its end, and writes the canonical text
/// of the same nodes, jobs and calls under version 2. A file of version 2 is written as its canonical text.
///
/// The text reads as the same scripts under version 2, where it is within the limit of a file. They mean the
/// same as a plan, so they have the same findings and outcomes.
///
/// The fault of a file is the first that it has. After the fault `Write` the front of the text that it
/// counts is written, after any other fault nothing. `Memory` may come in place of any other answer. What is
/// said of bytes is said where the reader and the writer tell theirs.
#[tactic(auto, using(crate::proofs::Written::writes_migrated))]
pub fn migrate_plan<R: Source, W: Sink>(
    alloc: Global,
    size: Size,
    reader: &mut R,
    writer: &mut W,
) -> Result<(), Fault>
    ensures ok { OnOk result (WritesMigrated size (R.coming reader.old) (W.written writer.old) (W.written writer.new)) }
    ensures quiet { OnOk result ((R.failures reader.new ≡ R.failures reader.old) × (W.failures writer.new ≡ W.failures writer.old)) }

    // Either nothing was written, or the front of the text that the fault counts.
    ensures err { IfErr result (λ e. (StopsBeforeMigrated size (R.coming reader.old) e × (writer.new ≡ writer.old))
        ⊎ (BreaksOffMigrated size (R.coming reader.old) (W.written writer.old) (W.written writer.new) e
        × (W.failures writer.new ≡ one_more (W.failures writer.old)))) }

    // A failed read is answered only where the reader failed.
    ensures read_failed { result ≡ Err Read → R.failures reader.new ≡ one_more (R.failures reader.old) }
    ensures unfailed { IfErr result (λ e. e ≢ Memory → e ≢ Read → R.failures reader.new ≡ R.failures reader.old) }
{
    let form = OutputFormat::Lines;
    let name = b"".as_slice();
    let run = CommandRun {
        command: &UnderVersion2,
        lines: &Alone,
        options: CommandOptions { name, size, form },
    };
    match run_command(alloc, run, reader, writer) {
        Ok(_) => Ok(()),
        Err(fault) => Err(fault),
    }
}

/// The text of a plan under version 2.
#[derive(Drop)]
struct UnderVersion2;

impl Command for UnderVersion2 {
    ghost needs = { λ _. Unit {0} };

    ghost tells = { λ _ _ _. TellsMigrated };

    ghost refuses = { λ _ _ _. ⊥ };

    fn answer(
        &self,
        alloc: Global,
        scripts: Scripts,
        _telling: AnswerStyle<'_>,
    ) -> Result<Answer, Fault> {
        let text = migrated_text(alloc, scripts)?;
        let ended = Ended::Clean;
        Ok(Answer { text, ended })
    }
}
