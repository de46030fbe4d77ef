//! The plain run of a plan. Only tests and `make bench` ask for it.

ghost use Rattle.std.specs.Prelude.{◌≡◌, ◌≢◌, ◌⊎◌, ℕ, Err, OnOk, OnErr, IfOk, IfErr};
ghost use Rattle.wire_types.specs.declared.Fault.TheVariants.{Memory, Read, Write};
ghost use Rattle.wire_types.specs.Counting.{one_more};
ghost use Rattle.wire_command.specs.Read.{Refuses};
ghost use Rattle.wire_commands.specs.Plain.{BreaksOffReport, TellsPlain, WritesReport, plain_report};

use std::alloc::Global;
use wire_command::{
    Alone, Answer, AnswerStyle, Command, CommandOptions, CommandRun, Ended, run_command,
};
use wire_core::plain_outcome;
use wire_plan::Plan;
use wire_reader::Size;
use wire_report::report_text;
use wire_scripts::Scripts;
use wire_types::{Fault, OutputFormat, Sink, Source};

/// The report of the plain run of a plan.
fn report_of(alloc: Global, plan: &Plan) -> Result<Vec<u8>, Fault>
    ensures ok { IfOk result (λ text. text.items ≡ plain_report plan.now) }
    ensures err { IfErr result (λ e. e ≡ Memory) }
{
    let outcome = plain_outcome(alloc, plan)?;
    report_text(alloc, plan.scripts(), &outcome, false)
}

/// The report of the plain run of scripts.
fn plain_text(alloc: Global, scripts: Scripts) -> Result<Vec<u8>, Fault>
    ensures ok { IfOk result (λ text. text.items ≡ plain_report scripts) }
    ensures err { IfErr result (λ e. e ≡ Memory) }
{
    let plan = Plan::build(alloc, scripts)?;
    let text = report_of(alloc, &plan);
    drop(plan);
    text
}

/// Runs a plan by the plain run: reads it to its end, and runs it, where at each step the lowest process that can
/// run takes one, until none can; then writes what became of every call.
///
/// After the fault `Write` the front of the report that it counts is written, after any other fault
/// nothing. `Memory` may come in place of any other answer. What is said of bytes is said where the
/// reader and the writer tell theirs.
pub fn run_plainly<R: Source, W: Sink>(
    alloc: Global,
    reader: &mut R,
    writer: &mut W,
) -> Result<(), Fault>
    ensures ok { OnOk result (WritesReport Size.OfVersion (R.coming reader.old) (W.written writer.old) (W.written writer.new)) }
    ensures quiet { OnOk result ((R.failures reader.new ≡ R.failures reader.old) × (W.failures writer.new ≡ W.failures writer.old)) }

    // The fault of a file is the first that it has.
    ensures refused { IfErr result (λ e. e ≢ Memory → e ≢ Read → ((n : ℕ) → e ≢ Write n) → Refuses Size.OfVersion (R.coming reader.old) e) }
    ensures read_failed { result ≡ Err Read → R.failures reader.new ≡ one_more (R.failures reader.old) }
    ensures unfailed { IfErr result (λ e. e ≢ Memory → e ≢ Read → R.failures reader.new ≡ R.failures reader.old) }
    ensures front { (n : ℕ) → result ≡ Err (Write n) →
        BreaksOffReport Size.OfVersion (R.coming reader.old) (W.written writer.old) (W.written writer.new) n }
    ensures write_failed { (n : ℕ) → result ≡ Err (Write n) → W.failures writer.new ≡ one_more (W.failures writer.old) }
    ensures untouched { OnErr result (((n : ℕ) → result ≢ Err (Write n)) → writer.new ≡ writer.old) }
{
    let size = Size::OfVersion;
    let form = OutputFormat::Lines;
    let name = b"".as_slice();
    let run = CommandRun {
        command: &PlainReport,
        lines: &Alone,
        options: CommandOptions { name, size, form },
    };
    match run_command(alloc, run, reader, writer) {
        Ok(_) => Ok(()),
        Err(fault) => Err(fault),
    }
}

/// The report of the plain run.
#[derive(Drop)]
struct PlainReport;

impl Command for PlainReport {
    ghost needs = { λ _. Unit {0} };

    ghost tells = { λ _ _ _. TellsPlain };

    ghost refuses = { λ _ _ _. ⊥ };

    fn answer(
        &self,
        alloc: Global,
        scripts: Scripts,
        _telling: AnswerStyle<'_>,
    ) -> Result<Answer, Fault> {
        let text = plain_text(alloc, scripts)?;
        let ended = Ended::Clean;
        Ok(Answer { text, ended })
    }
}
