//! What is told of call lines.

ghost use Rattle.std.specs.Prelude.{◌≡◌, ◌||◌, ℕ, false, OnOk};
ghost use Rattle.wire_types.specs.declared.Status.{Status as StatusSpec};
ghost use Rattle.wire_pattern_answers.specs.FewPlacings.{IsOfThree};
ghost use Rattle.wire_pattern_answers.specs.Notes as spec;
ghost use Rattle.wire_pattern_answers.specs.Notes.{is_told};

use crate::answers::LineAnswers;
use crate::notes::Note;
use std::alloc::{AllocError, Global};
use wire_pattern_waits::{CallLine, LineSet};
use wire_types::Status;

/// Of each of three statuses the call lines with a get-now that is answered with it.
#[derive(Drop)]
pub struct StatusesByLine {
    success: LineSet,
    not_found: LineSet,
    outside: LineSet,
}

impl StatusesByLine {
    /// Nothing is told. Takes no memory.
    pub fn new(alloc: Global) -> StatusesByLine
        ensures { (role line : ℕ) (status : StatusSpec) → is_told result role line status ≡ false }
    {
        StatusesByLine {
            success: LineSet::new(alloc),
            not_found: LineSet::new(alloc),
            outside: LineSet::new(alloc),
        }
    }

    /// Tells a note, if its status is one of the three.
    fn add(&mut self, alloc: Global, note: Note) -> Result<(), AllocError>
        ensures { OnOk result ((role line : ℕ) (status : StatusSpec) → IsOfThree status → is_told self.new role line status
            ≡ is_told self.old role line status || spec.is_at role line status note) }
    {
        match note.status {
            Status::Success => Ok(self.success.insert(alloc, note.role, note.line)?),
            Status::NotFound => Ok(self.not_found.insert(alloc, note.role, note.line)?),
            Status::ExistsOutsideScope => Ok(self.outside.insert(alloc, note.role, note.line)?),
            Status::DuplicateKey | Status::BadParam => Ok(()),
        }
    }

    /// Tells these notes, those with one of the three statuses.
    pub(crate) fn add_all(&mut self, alloc: Global, notes: &[Note]) -> Result<(), AllocError>
        ensures { OnOk result ((role line : ℕ) (status : StatusSpec) → IsOfThree status → is_told self.new role line status
            ≡ is_told self.old role line status || spec.is_noted notes.now role line status) }
    {
        for note in notes {
            self.add(alloc, *note)?;
        }
        Ok(())
    }

    /// Whether a note says that a key exists outside its scope, at a line of which success isn't told.
    fn is_open_at(&self, note: Note) -> bool
        ensures { result ≡ spec.is_open_note self.now note }
    {
        match note.status {
            Status::ExistsOutsideScope => !self.success.has(note.role, note.line),
            _ => false,
        }
    }

    /// Whether one of these notes says so.
    pub(crate) fn is_open(&self, notes: &[Note]) -> bool
        ensures { result ≡ spec.is_open self.now notes.now }
    {
        for note in notes {
            if self.is_open_at(*note) {
                return true;
            }
        }
        false
    }

    /// What is told of a line.
    pub(crate) fn of_line(&self, line: CallLine) -> LineAnswers
        ensures { result ≡ spec.told_of self.now line }
    {
        LineAnswers {
            line,
            success: self.success.has(line.role, line.number),
            not_found: self.not_found.has(line.role, line.number),
            outside: self.outside.has(line.role, line.number),
        }
    }
}
