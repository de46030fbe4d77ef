//! `witness` with two calls: two runs that show their race, in lines or as JSON; with places both calls with their
//! lines in the file; or the order of one of the runs.

ghost use Rattle.std.specs.Prelude.{◌≡◌, ◌≢◌, ◌⊎◌, ◌++◌, Err, OnOk, IfOk, IfErr};
ghost use Rattle.wire_types.specs.declared.Fault.TheVariants.{Memory, Read};
ghost use Rattle.wire_types.specs.Counting.{one_more};
ghost use Rattle.wire_types.specs.Forms.{is_json};
ghost use Rattle.wire_types.specs.Texts.{lists_of, texts_of};
ghost use Rattle.wire_scripts.specs.Scripts.{numbers_of};
ghost use Rattle.wire_command.specs.Answer.{BreaksOff, Writes, rows_in};
ghost use Rattle.wire_commands.specs.CallsJson as json;
ghost use Rattle.wire_commands.specs.Why.{QuestionNames, StopsBeforeAnswer};
ghost use Rattle.wire_commands.specs.Witness as spec;
ghost use Rattle.wire_commands.specs.Witness.{ShowsPair};

use crate::calls_json::call_json;
use crate::json_builder::JsonBuilder;
use crate::why::read_pair;
use std::alloc::{AllocError, Global};
use std::thread::Threads;
use wire_command::{
    Answer, AnswerStyle, Command, CommandOptions, CommandRun, Ended, Shared, run_command,
};
use wire_json::{RunTold, run_json, witness_json};
use wire_plan::Plan;
use wire_report::{
    SourceLines, push_ends, push_note, push_orders, push_place, push_shown, push_steps,
    unshown_text,
};
use wire_scripts::Scripts;
use wire_types::{CallAt, Fault, Orders, OutputFormat, Proc, Sink, Source};
use wire_witness::{PairSearch, Witness, search_pair};

/// The two calls that `witness` is asked about, as four words, and what is written of their runs.
#[derive(Clone, Copy)]
pub struct PairAsked<'a> {
    pub words: [&'a str; 4],
    pub orders: Orders,
}

/// Shows the race of two calls of a plan: reads the plan to its end, looks whether the two calls race, and if so for
/// two runs in which the calls come in different orders and one of them ends differently. It writes that call, how it
/// ends in each run, and the orders of both runs, or one of these orders alone. In a form with places the name of the
/// file and its line stand before each of the two calls; as JSON both calls have the numbers of their lines. Where no
/// such runs are found, it says so, and nothing of other runs.
///
/// It answers `Found(1)` where it shows the race, else `Clean`. The words and the faults are those of
/// [`crate::why::explain_order`]. After the fault `Write` the front of the text that it counts is written, after any
/// other fault nothing. `Memory` may come in place of any other answer. What is said of bytes is said where the reader
/// and the writer tell theirs.
pub fn witness_pair<R: Source, W: Sink>(
    rt: &(impl Threads + Sync),
    alloc: Global,
    manner: CommandOptions<'_>,
    reader: &mut R,
    writer: &mut W,
    asked: PairAsked<'_>,
) -> Result<Ended, Fault>
    ensures ok { IfOk result (λ ended. Writes manner.entry.size manner.entry.form (R.coming reader.old)
        (ShowsPair manner.entry.form manner.entry.name.now (texts_of asked.entry.words) asked.entry.orders) ended
        (W.written writer.old) (W.written writer.new)) }
    ensures quiet { OnOk result ((R.failures reader.new ≡ R.failures reader.old) × (W.failures writer.new ≡ W.failures writer.old)) }

    // Either nothing was written, or the front of the answer that the fault counts.
    ensures err { IfErr result (λ e. (StopsBeforeAnswer manner.entry.size (R.coming reader.old) (texts_of asked.entry.words) e × (writer.new ≡ writer.old))
        ⊎ (BreaksOff manner.entry.size manner.entry.form (R.coming reader.old)
        (ShowsPair manner.entry.form manner.entry.name.now (texts_of asked.entry.words) asked.entry.orders)
        (W.written writer.old) (W.written writer.new) e × (W.failures writer.new ≡ one_more (W.failures writer.old)))) }

    // A failed read is answered only where the reader failed.
    ensures read_failed { result ≡ Err Read → R.failures reader.new ≡ one_more (R.failures reader.old) }
    ensures unfailed { IfErr result (λ e. e ≢ Memory → e ≢ Read → R.failures reader.new ≡ R.failures reader.old) }
{
    let run = CommandRun {
        command: &asked,
        lines: &Shared { rt },
        options: manner,
    };
    run_command(alloc, run, reader, writer)
}

impl Command for PairAsked<'_> {
    ghost needs = { λ _. Unit {0} };

    ghost tells = { λ asked form name. ShowsPair form name (texts_of asked.words) asked.orders };

    ghost refuses = { λ asked scripts fault. QuestionNames scripts (texts_of asked.words) (Err fault) };

    #[tactic(auto, using(crate::proofs::Questioned::words_no_read))]
    fn answer(
        &self,
        alloc: Global,
        scripts: Scripts,
        telling: AnswerStyle<'_>,
    ) -> Result<Answer, Fault> {
        answer_scripts(alloc, scripts, telling, *self)
    }
}

/// The answer about two calls of scripts.
fn answer_scripts(
    alloc: Global,
    scripts: Scripts,
    telling: AnswerStyle<'_>,
    asked: PairAsked<'_>,
) -> Result<Answer, Fault>
    ensures ok { IfOk result (λ answer. ShowsPair telling.entry.form telling.entry.places.name.now (texts_of asked.entry.words) asked.entry.orders scripts
        (rows_in telling.entry.places) answer.text.items answer.ended) }
    ensures err { IfErr result (λ e. (e ≡ Memory) ⊎ QuestionNames scripts (texts_of asked.entry.words) (Err e)) }
{
    let plan = Plan::build(alloc, scripts)?;
    let answer = answer_plan(alloc, &plan, telling, asked);
    drop(plan);
    answer
}

/// The answer about two calls of a plan.
fn answer_plan(
    alloc: Global,
    plan: &Plan,
    telling: AnswerStyle<'_>,
    asked: PairAsked<'_>,
) -> Result<Answer, Fault>
    ensures ok { IfOk result (λ answer. ShowsPair telling.entry.form telling.entry.places.name.now (texts_of asked.entry.words) asked.entry.orders plan.now
        (rows_in telling.entry.places) answer.text.items answer.ended) }
    ensures err { IfErr result (λ e. (e ≡ Memory) ⊎ QuestionNames plan.now (texts_of asked.entry.words) (Err e)) }
{
    let calls = read_pair(alloc, plan.scripts(), asked.words)?;
    let search = search_pair(alloc, plan, calls)?;
    let text = pair_text(alloc, plan.scripts(), telling, asked.orders, &search)?;
    Ok(Answer {
        text,
        ended: Ended::of_count(search.count_shown()),
    })
}

/// The text of a search: the witness that was found, or that there is no race, or that none was found.
fn pair_text(
    alloc: Global,
    scripts: &Scripts,
    telling: AnswerStyle<'_>,
    orders: Orders,
    search: &PairSearch,
) -> Result<Vec<u8>, AllocError>
    ensures { IfOk result (λ text. text.items ≡ spec.pair_text telling.entry.form telling.entry.places.name.now (rows_in telling.entry.places) orders
        scripts.now search.now) }
{
    match search {
        PairSearch::NoRace => unshown_text(alloc, false, telling.form.is_json()),
        PairSearch::NotShown => unshown_text(alloc, true, telling.form.is_json()),
        PairSearch::Shown(witness) => witness_text(alloc, scripts, telling, orders, witness),
    }
}

/// The text of a witness, or of one of its orders.
fn witness_text(
    alloc: Global,
    scripts: &Scripts,
    telling: AnswerStyle<'_>,
    orders: Orders,
    witness: &Witness,
) -> Result<Vec<u8>, AllocError>
    ensures { IfOk result (λ text. text.items ≡ spec.witness_text telling.entry.form telling.entry.places.name.now (rows_in telling.entry.places) orders
        scripts.now witness.now) }
{
    match orders {
        Orders::Both => whole_text(alloc, scripts, telling, witness),
        Orders::OfFirst => steps_text(alloc, scripts, witness.first.as_slice()),
        Orders::OfSecond => steps_text(alloc, scripts, witness.second.as_slice()),
    }
}

/// The text of a whole witness.
fn whole_text(
    alloc: Global,
    scripts: &Scripts,
    telling: AnswerStyle<'_>,
    witness: &Witness,
) -> Result<Vec<u8>, AllocError>
    ensures { IfOk result (λ text. text.items ≡ spec.whole_text telling.entry.form telling.entry.places.name.now (rows_in telling.entry.places)
        scripts.now witness.now) }
{
    match telling.form {
        OutputFormat::Lines => lines_text(alloc, scripts, witness),
        OutputFormat::Places => located_text(alloc, scripts, telling.places, witness),
        OutputFormat::Json => whole_json(alloc, scripts, witness),
        OutputFormat::PlacedJson => placed_json(alloc, scripts, telling.places.rows, witness),
    }
}

/// Appends the place and the line of the call that ends differently, and then of the other.
fn push_calls(
    out: &mut Vec<u8>,
    scripts: &Scripts,
    places: SourceLines<'_>,
    call: CallAt,
    other: CallAt,
) -> Result<(), AllocError>
    ensures { OnOk result (out.new.items ≡ out.old.items
        ++ spec.call_lines places.entry.name.now (rows_in places.entry) scripts.now call other) }
{
    push_place(out, places, call)?;
    push_shown(out, scripts, call)?;
    push_note(out, places, scripts, other)
}

/// The lines of a witness, with the places of its calls.
fn located_text(
    alloc: Global,
    scripts: &Scripts,
    places: SourceLines<'_>,
    witness: &Witness,
) -> Result<Vec<u8>, AllocError>
    ensures { IfOk result (λ text. text.items
        ≡ spec.placed_lines places.entry.name.now (rows_in places.entry) scripts.now witness.now) }
{
    let mut text = Vec::new(alloc);
    push_calls(&mut text, scripts, places, witness.call, witness.other)?;
    push_ends(&mut text, scripts, &witness.first_end, &witness.second_end)?;
    push_orders(
        &mut text,
        scripts,
        witness.first.as_slice(),
        witness.second.as_slice(),
    )?;
    Ok(text)
}

/// The lines of a witness: the call that ends differently, how it ends in each run, and the orders of both.
fn lines_text(alloc: Global, scripts: &Scripts, witness: &Witness) -> Result<Vec<u8>, AllocError>
    ensures { IfOk result (λ text. text.items ≡ spec.lines_text scripts.now witness.now) }
{
    let mut text = Vec::new(alloc);
    push_shown(&mut text, scripts, witness.call)?;
    push_ends(&mut text, scripts, &witness.first_end, &witness.second_end)?;
    push_orders(
        &mut text,
        scripts,
        witness.first.as_slice(),
        witness.second.as_slice(),
    )?;
    Ok(text)
}

/// The lines of an order.
fn steps_text(alloc: Global, scripts: &Scripts, steps: &[Proc]) -> Result<Vec<u8>, AllocError>
    ensures { IfOk result (λ text. text.items ≡ spec.steps_text scripts.now (numbers_of steps.now)) }
{
    let mut text = Vec::new(alloc);
    push_steps(&mut text, scripts, steps)?;
    Ok(text)
}

/// A witness as JSON.
fn whole_json(alloc: Global, scripts: &Scripts, witness: &Witness) -> Result<Vec<u8>, AllocError>
    ensures { IfOk result (λ text. text.items ≡ spec.whole_json scripts.now witness.now) }
{
    let first = RunTold {
        end: &witness.first_end,
        order: witness.first.as_slice(),
    };
    let second = RunTold {
        end: &witness.second_end,
        order: witness.second.as_slice(),
    };
    witness_json(alloc, scripts, witness.call, first, second)
}

/// A witness as JSON, with the lines of its calls: its two runs, the call that ends differently in them, and the other
/// call of the race.
fn placed_json(
    alloc: Global,
    scripts: &Scripts,
    rows: &[Vec<u64>],
    witness: &Witness,
) -> Result<Vec<u8>, AllocError>
    ensures { IfOk result (λ text. text.items ≡ json.json_witness (lists_of rows.now) scripts.now witness.now) }
{
    let first = RunTold {
        end: &witness.first_end,
        order: witness.first.as_slice(),
    };
    let second = RunTold {
        end: &witness.second_end,
        order: witness.second.as_slice(),
    };
    JsonBuilder::new(alloc)
        .put(b"{\"first\":")
        .put_form(run_json(alloc, scripts, first))
        .put(b",\"other\":")
        .put_form(call_json(alloc, scripts, rows, witness.other))
        .put(b",\"race\":true,\"second\":")
        .put_form(run_json(alloc, scripts, second))
        .put(b",\"shown\":")
        .put_form(call_json(alloc, scripts, rows, witness.call))
        .put(b"}\n")
        .finish()
}
