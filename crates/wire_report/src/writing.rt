//! A text, to a sink.

ghost use Rattle.std.specs.Prelude.{◌≡◌, Err, OnOk, IfErr};
ghost use Rattle.std.specs.Io.KnownBytes.{Appends};
ghost use Rattle.wire_types.specs.declared.Fault.TheVariants.{Memory};
ghost use Rattle.wire_types.specs.Counting.{one_more};
ghost use Rattle.wire_types.specs.Front.{WritesFront};

use wire_types::{Fault, Sink, write_out};

/// Writes all of a text to the sink. The one fault is `Fault::Write`, with the number of bytes that went out.
pub fn write_text<S: Sink>(sink: &mut S, text: &[u8]) -> Result<(), Fault>
    ensures ok { OnOk result (Appends (S.written sink.old) (S.written sink.new) text.now) }
    ensures quiet { OnOk result (S.failures sink.new ≡ S.failures sink.old) }
    ensures memory { result ≡ Err Memory → sink.new ≡ sink.old }
    ensures front { IfErr result (λ e. WritesFront (S.written sink.old) (S.written sink.new) text.now e) }
    ensures failed { IfErr result (λ e. S.failures sink.new ≡ one_more (S.failures sink.old)) }
{
    write_out(sink, text).map_err(Fault::Write)
}
