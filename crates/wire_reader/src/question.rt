//! From the words of a question to the two calls that it is about.

ghost use Rattle.std.specs.Prelude.{◌≡◌, ◌⊎◌, ℕ, Ok, Err, IfOk, IfErr, IfSome, IfNone};
ghost use Rattle.wire_reader.specs.Question.{QuestionReads, IsCallNumber, IsCallNamed, IsProcWrong, IsNumberWrong};
ghost use Rattle.wire_reader.specs.Question.{OneQuestion, calls_made};
ghost use Rattle.wire_reader.specs.ProcWords.{IsTableOf};

use crate::proc_words::ProcWords;
use std::alloc::Global;
use wire_lines::number_of;
use wire_scripts::Scripts;
use wire_types::{CallAt, Fault, Proc};

/// The four words of a question: whether one call is before another.
#[derive(Clone, Copy)]
pub struct Question<'a> {
    /// The process of the first call, as in an order.
    pub proc: &'a str,
    /// The number of the first call among those of its process, from 1.
    pub number: &'a str,
    /// The process of the second call.
    pub other_proc: &'a str,
    /// The number of the second call.
    pub other_number: &'a str,
}

/// The two calls that the four words of a question name. A process is named as in an order, a call by its
/// number from 1, one to nine digits of which the first isn't 0. The lowest wrong word is `BadOrder` with
/// its number, 1 to 4: a process that isn't there, or a number of none of its calls.
pub fn read_question(
    alloc: Global,
    scripts: &Scripts,
    question: Question<'_>,
) -> Result<(CallAt, CallAt), Fault>
    ensures ok { IfOk result (λ calls. QuestionReads scripts.now question.entry.proc.now question.entry.number.now
        question.entry.other_proc.now question.entry.other_number.now (Ok calls)) }
    ensures err { IfErr result (λ e. (e ≡ Fault.Memory) ⊎ QuestionReads scripts.now question.entry.proc.now
        question.entry.number.now question.entry.other_proc.now question.entry.other_number.now (Err e)) }
{
    let table = ProcWords::new(alloc, scripts)?;
    let first = match read_call(&table, scripts, question.proc, question.number) {
        Ok(call) => call,
        Err(Wrong::Proc) => return Err(Fault::BadOrder(1)),
        Err(Wrong::Number) => return Err(Fault::BadOrder(2)),
    };
    match read_call(&table, scripts, question.other_proc, question.other_number) {
        Ok(second) => Ok((first, second)),
        Err(Wrong::Proc) => Err(Fault::BadOrder(3)),
        Err(Wrong::Number) => Err(Fault::BadOrder(4)),
    }
}

/// Four words read in one way.
pub fn question_reads_once()
    ensures { OneQuestion }
{}

/// Which of the two words of a call is wrong: the lower one, where both are.
#[derive(Clone, Copy)]
enum Wrong {
    Proc,
    Number,
}

/// The call that a process's word and a number name.
fn read_call(
    table: &ProcWords,
    scripts: &Scripts,
    proc: &str,
    number: &str,
) -> Result<CallAt, Wrong>
    requires { IsTableOf scripts.now table.now }
    ensures ok { IfOk result (IsCallNamed scripts.now proc.now number.now) }
    ensures no_proc { result ≡ Err Wrong.Proc → IsProcWrong scripts.now proc.now }
    ensures no_number { result ≡ Err Wrong.Number → IsNumberWrong scripts.now proc.now number.now }
{
    let Some(caller) = table.proc_of(proc.as_bytes()) else {
        return Err(Wrong::Proc);
    };
    match read_call_number(number, call_count(scripts, caller)) {
        Some(call) => Ok(CallAt { proc: caller, call }),
        None => Err(Wrong::Number),
    }
}

/// How many calls a process makes, none where it isn't there.
fn call_count(scripts: &Scripts, proc: Proc) -> usize
    ensures { result ≡ calls_made scripts.now proc.number }
{
    match scripts.processes().get(proc.index()) {
        Some(process) => process.calls().len(),
        None => 0,
    }
}

/// The call among so many that the word is the number of, from 1.
fn read_call_number(word: &str, count: usize) -> Option<u32>
    ensures found { IfSome result (IsCallNumber word.now count) }
    ensures none { IfNone result ((call : ℕ) → IsCallNumber word.now count call → ⊥) }
{
    let Some(number) = number_of(word.as_bytes()) else {
        return None;
    };
    if number == 0 {
        return None;
    }
    if (number as usize) > count {
        return None;
    }
    Some(number - 1)
}
