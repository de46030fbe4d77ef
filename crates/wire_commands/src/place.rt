//! `place`: a plan, with some of its ranks on one node and all others on another.

ghost use Rattle.std.specs.Prelude.{◌≡◌, ◌≢◌, ◌⊎◌, Err, OnOk, IfOk, IfErr};
ghost use Rattle.wire_types.specs.declared.Fault.TheVariants.{Memory, Read};
ghost use Rattle.wire_types.specs.Counting.{one_more};
ghost use Rattle.wire_scripts.specs.Canonical.{canonical};
ghost use Rattle.wire_scripts.specs.Placed.{placed};
ghost use Rattle.wire_scripts.specs.Scripts.{numbers_of};
ghost use Rattle.wire_reader.specs.Ranks.{ranks_read};
ghost use Rattle.wire_commands.specs.Place.{BreaksOffPlaced, IsPlacedText, RefusesRanks, StopsBeforePlaced, TellsMoved, WritesPlaced};

use std::alloc::Global;
use wire_command::{
    Alone, Answer, AnswerStyle, Command, CommandOptions, CommandRun, Ended, run_command,
};
use wire_reader::{Size, read_ranks};
use wire_scripts::Scripts;
use wire_types::{Fault, OutputFormat, Proc, Sink, Source};

/// The canonical text of scripts with these ranks on the second node, and all others on the first.
fn text_with(alloc: Global, scripts: Scripts, ranks: &[Proc]) -> Result<Vec<u8>, Fault>
    ensures ok { IfOk result (λ text. text.items ≡ canonical (placed scripts (numbers_of ranks.now))) }
    ensures err { IfErr result (λ e. e ≡ Memory) }
{
    let placed = scripts.place(alloc, ranks)?;
    let text = placed.to_text(alloc);
    drop(placed);
    text
}

/// The canonical text of scripts with the ranks on the second node that the word lists, and all others on the first.
fn moved_text(alloc: Global, scripts: Scripts, word: &str) -> Result<Vec<u8>, Fault>
    ensures ok { IfOk result (λ text. IsPlacedText word.now scripts text.items) }
    ensures err { IfErr result (λ e. (e ≡ Memory) ⊎ (ranks_read scripts word.now ≡ Err e)) }
{
    match read_ranks(alloc, &scripts, word) {
        Ok(ranks) => text_with(alloc, scripts, ranks.as_slice()),
        Err(fault) => {
            drop(scripts);
            Err(fault)
        }
    }
}

/// Puts some ranks of a plan on a node of their own: reads the plan to its end, and writes the canonical text of the
/// same jobs and calls, under the plan's own header, with these ranks on the second node and all others on the first.
/// Where the plan has one node only, the second gets a name that the first doesn't have. The word lists the ranks,
/// each as in an order, with commas between them; one alone may be listed, and one twice.
///
/// The faults of the file come first, then `BadOrder` with the number of the first rank, from 1, that the plan doesn't
/// have. After the fault `Write` the front of the text that it counts is written, after any other fault nothing.
/// `Memory` may come in place of any other answer. What is said of bytes is said where the reader and the writer tell
/// theirs.
pub fn place_plan<R: Source, W: Sink>(
    alloc: Global,
    size: Size,
    reader: &mut R,
    writer: &mut W,
    word: &str,
) -> Result<(), Fault>
    ensures ok { OnOk result (WritesPlaced size (R.coming reader.old) word.now (W.written writer.old) (W.written writer.new)) }
    ensures quiet { OnOk result ((R.failures reader.new ≡ R.failures reader.old) × (W.failures writer.new ≡ W.failures writer.old)) }

    // Either nothing was written, or the front of the text that the fault counts.
    ensures err { IfErr result (λ e. (StopsBeforePlaced size (R.coming reader.old) word.now e × (writer.new ≡ writer.old))
        ⊎ (BreaksOffPlaced size (R.coming reader.old) word.now (W.written writer.old) (W.written writer.new) e
        × (W.failures writer.new ≡ one_more (W.failures writer.old)))) }

    // A failed read is answered only where the reader failed.
    ensures read_failed { result ≡ Err Read → R.failures reader.new ≡ one_more (R.failures reader.old) }
    ensures unfailed { IfErr result (λ e. e ≢ Memory → e ≢ Read → R.failures reader.new ≡ R.failures reader.old) }
{
    let form = OutputFormat::Lines;
    let name = b"".as_slice();
    let run = CommandRun {
        command: &Moving { word },
        lines: &Alone,
        options: CommandOptions { name, size, form },
    };
    match run_command(alloc, run, reader, writer) {
        Ok(_) => Ok(()),
        Err(fault) => Err(fault),
    }
}

/// The text of a plan with the ranks on the second node that the word lists.
#[derive(Drop)]
struct Moving<'w> {
    word: &'w str,
}

impl Command for Moving<'_> {
    ghost needs = { λ _. Unit {0} };

    ghost tells = { λ moving _ _. TellsMoved moving.word.now };

    ghost refuses = { λ moving. RefusesRanks moving.word.now };

    fn answer(
        &self,
        alloc: Global,
        scripts: Scripts,
        _telling: AnswerStyle<'_>,
    ) -> Result<Answer, Fault> {
        let text = moved_text(alloc, scripts, self.word)?;
        let ended = Ended::Clean;
        Ok(Answer { text, ended })
    }
}
