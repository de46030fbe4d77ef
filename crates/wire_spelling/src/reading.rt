//! What is read of a plan's text: how the calls of each process spell the sets of their fences.

ghost use Rattle.std.specs.Prelude.{◌≡◌, [], IfOk, OnOk, map, option_map};
ghost use Rattle.wire_spelling.specs.Known.{AreKnown};
ghost use Rattle.wire_spelling.specs.Spelling.{AreSetsNumbered, of_job, spelled_sets};
ghost use Rattle.wire_spelling.specs.Spelled.{Progress, said_by, set_by, word_by};
ghost use Rattle.wire_spelling.specs.Reads.{IsReadTo, IsReadUpTo, call_added, row_ended, taken};

use crate::known::KnownSets;
use crate::numbering::Numbers;
use crate::spelled::{Said, SpelledSet, said_in};
use crate::spelling::Spelt;
use std::alloc::{AllocError, Global};
use std::mem::replace;
use wire_lines::cut_piece;

/// What is read of the lines so far: how the calls of the rows that are done spell their sets, and those of the row that
/// isn't; and the job of the calls that follow.
struct Reading<'a> {
    job: &'a [u8],
    known: KnownSets<'a>,
    numbers: Numbers,
    done: Vec<Vec<Option<Spelt>>>,
    row: Vec<Option<Spelt>>,
}

// By hand and not derived: so dropping one is a call, and the proof of a function that drops one doesn't take it apart.
impl Drop for Reading<'_> {
    fn drop(self) {
        let Reading {
            job: _,
            known: _,
            numbers: _,
            done: _,
            row: _,
        } = self;
    }
}

/// The set of a call of a job, if it is one of a fence.
fn spelled_in<'a>(job: &'a [u8], set: Option<&'a [u8]>) -> Option<SpelledSet<'a>>
    ensures { option_map set_by result ≡ of_job job.now (word_by set.entry) }
{
    match set {
        Some(set) => Some(SpelledSet { job, set }),
        None => None,
    }
}

impl<'a> Reading<'a> {
    /// Nothing is read.
    fn nothing(alloc: Global) -> Reading<'a>
        ensures { IsReadTo result (record { job = []; done = []; row = [] }) }
    {
        let numbers = Numbers::none(alloc);
        let known = KnownSets::of_job(alloc, b"".as_slice());
        Reading {
            job: b"".as_slice(),
            known,
            numbers,
            done: Vec::new(alloc),
            row: Vec::new(alloc),
        }
    }

    /// Ends the row. The next one will mostly be as long.
    fn end_row(&mut self, alloc: Global) -> Result<(), AllocError>
        ensures { OnOk result ((p : Progress) → IsReadTo self.old p → IsReadTo self.new (row_ended p)) }
    {
        let next = Vec::with_capacity(alloc, self.row.len())?;
        let row = replace(&mut self.row, next);
        self.done.push(row)?;
        Ok(())
    }

    /// Adds a call to the row.
    fn add_call(&mut self, alloc: Global, set: Option<&'a [u8]>) -> Result<(), AllocError>
        requires { AreKnown self.old.numbers self.old.known }
        ensures { OnOk result ((p : Progress) → IsReadTo self.old p → IsReadTo self.new (call_added p (word_by set.entry))) }
    {
        let call = spelled_in(self.job, set);
        let told = self.numbers.spelt_call(alloc, &mut self.known, call)?;
        self.row.push(told)?;
        Ok(())
    }

    /// Takes what a line says.
    fn take(&mut self, alloc: Global, said: Said<'a>) -> Result<(), AllocError>
        requires { AreKnown self.old.numbers self.old.known }
        ensures { OnOk result ((p : Progress) → IsReadTo self.old p → IsReadTo self.new (taken p (said_by said.entry))) }
    {
        match said {
            Said::Nothing => Ok(()),
            Said::Rank => self.end_row(alloc),
            Said::Job(name) => {
                self.job = name;
                Ok(())
            }
            Said::Call(set) => self.add_call(alloc, set),
        }
    }
}

/// Reads the lines of a text.
fn read_lines(alloc: Global, text: &[u8]) -> Result<Reading<'_>, AllocError>
    ensures { IfOk result (λ reading. IsReadUpTo reading [] text.now) }
{
    let mut reading = Reading::nothing(alloc);
    let mut words = Vec::new(alloc);
    let mut rest = text;
    'lines: while !rest.is_empty() {
        let (line, after) = cut_piece(rest);
        let said = said_in(&mut words, line)?;
        reading.take(alloc, said)?;
        rest = after;
    }
    Ok(reading)
}

/// For each process of a text and each of its calls how it spells its set, by number, if it is one of a fence.
pub(crate) fn spelt_rows(alloc: Global, text: &[u8]) -> Result<Vec<Vec<Option<Spelt>>>, AllocError>
    ensures { IfOk result (λ rows. AreSetsNumbered (spelled_sets text.now) (map (λ row. row.items) rows.items)) }
{
    let mut reading = read_lines(alloc, text)?;
    reading.end_row(alloc)?;
    reading.numbers.are_apart();
    let mut rows = replace(&mut reading.done, Vec::new(alloc));
    // The calls in front of the first process, of which a plan has none.
    let _ = rows.remove(0);
    Ok(rows)
}
