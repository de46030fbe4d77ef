//! Which statuses the get-nows of processes are answered with.

ghost use Rattle.std.specs.Prelude.{◌≡◌, ◌++◌, OnOk};
ghost use Rattle.wire_pattern_answers.specs.Notes as spec;

use std::alloc::AllocError;
use wire_types::{Call, CallEnd, Status};

/// A call line and a status of one of its get-nows: the number of the line's role, and its own in the role's script,
/// from 1.
#[derive(Clone, Copy)]
pub struct Note {
    pub(crate) role: u32,
    pub(crate) line: usize,
    pub(crate) status: Status,
}

/// Adds the note of a call of the line with this number, if it is a get-now that is answered.
fn add_note(
    out: &mut Vec<Note>,
    role: u32,
    line: usize,
    end: &CallEnd,
    call: &Call,
) -> Result<(), AllocError>
    ensures { OnOk result (out.new.items ≡ out.old.items ++ spec.note_for role line end.now call.now) }
{
    let CallEnd::Replied(reply) = end else {
        return Ok(());
    };
    if let Call::GetNow { owner: _, key: _ } = call {
        out.push(Note {
            role,
            line,
            status: reply.status,
        })?;
    }
    Ok(())
}

/// Adds the notes of a process of this role, by what became of its calls, the calls, and the numbers of their lines.
pub(crate) fn add_notes(
    out: &mut Vec<Note>,
    role: u32,
    row: &[CallEnd],
    calls: &[Call],
    places: &[usize],
) -> Result<(), AllocError>
    ensures { OnOk result (out.new.items ≡ out.old.items ++ spec.process_notes role row.now calls.now places.now) }
{
    for (number, end) in row.iter().enumerate() {
        let Some(call) = calls.get(number) else {
            return Ok(());
        };
        let Some(line) = places.get(number) else {
            return Ok(());
        };
        add_note(out, role, *line, end, call)?;
    }
    Ok(())
}
