//! The answer of a command, and its writing.

ghost use Rattle.std.specs.Prelude.{◌≡◌, OnOk, IfOk, IfErr};
ghost use Rattle.std.specs.Io.KnownBytes.{Appends};
ghost use Rattle.wire_types.specs.Counting.{one_more};
ghost use Rattle.wire_types.specs.Front.{WritesFront};

use crate::ended::Ended;
use wire_report::write_text;
use wire_types::{Fault, Sink};

/// What there is to write, and how the command ends.
#[derive(Drop)]
pub struct Answer {
    pub text: Vec<u8>,
    pub ended: Ended,
}

/// Writes the text of an answer, and says how the command ends. The one fault is `Fault::Write`, with the number of
/// bytes that went out.
pub fn write_answer<W: Sink>(writer: &mut W, answer: &Answer) -> Result<Ended, Fault>
    ensures ok { IfOk result (λ ended. (ended ≡ answer.now.ended) × Appends (W.written writer.old) (W.written writer.new) answer.now.text.items) }
    ensures quiet { OnOk result (W.failures writer.new ≡ W.failures writer.old) }
    ensures front { IfErr result (λ e. WritesFront (W.written writer.old) (W.written writer.new) answer.now.text.items e) }
    ensures failed { IfErr result (λ e. W.failures writer.new ≡ one_more (W.failures writer.old)) }
{
    write_text(writer, answer.text.as_slice())?;
    Ok(answer.ended)
}
