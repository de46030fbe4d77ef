//! Writers.

ghost use Rattle.std.specs.Prelude.{◌≡◌, ℕ, ◌+◌, ◌-◌, ◌<◌, ◌≤◌, ◌++◌, List, Option, length, take, drop, IfOk, OnOk};
ghost use Rattle.std.specs.Prelude.{OnErr, IfErr};
ghost use Rattle.std.specs.Io.KnownBytes.{Appends, WriteAppends};
ghost use Rattle.wire_types.specs.Counting.{one_more, CountsWrite};

/// That a call of a reader or of a writer failed.
#[derive(Clone, Copy, Debug)]
pub struct Failed;

/// A writer that tells what was written, where that is known, and counts its failed calls.
pub trait Sink {
    /// The bytes that were written so far, where they are known.
    ghost written: { Self → Option (List ℕ) };

    /// How many calls failed or took nothing.
    ghost failures: { Self → ℕ };

    /// Writes a front of the bytes, and says how long it is.
    fn write(&mut self, bytes: &[u8]) -> Result<usize, Failed>
        requires { 0 < length bytes.now }
        ensures bound { IfOk result (λ n. n ≤ length bytes.now) }
        ensures bytes { WriteAppends (written self.old) (written self.new) result bytes.now }
        ensures counted { CountsWrite (failures self.old) (failures self.new) result };
}

/// Writes all of a text. An error says how many bytes of it went out before.
pub fn write_out<S: Sink>(sink: &mut S, text: &[u8]) -> Result<(), u64>
    ensures ok { OnOk result (Appends (S.written sink.old) (S.written sink.new) text.now) }
    ensures quiet { OnOk result (S.failures sink.new ≡ S.failures sink.old) }
    ensures err { IfErr result (λ n. Appends (S.written sink.old) (S.written sink.new) (take n text.now)) }
    ensures short { IfErr result (λ n. n < length text.now) }
    ensures failed { OnErr result (S.failures sink.new ≡ one_more (S.failures sink.old)) }
{
    let mut done = 0;
    while done < text.len() {
        match sink.write(&text[done..]) {
            Ok(0) | Err(_) => return Err(done as u64),
            Ok(n) => done += n,
        }
    }
    Ok(())
}
