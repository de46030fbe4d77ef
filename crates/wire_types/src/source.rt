//! Readers.

ghost use Rattle.std.specs.Prelude.{◌≡◌, ℕ, ◌<◌, ◌≤◌, List, Option, length, IfOk};
ghost use Rattle.std.specs.Io.KnownBytes.{ReadConsumes};
ghost use Rattle.wire_types.specs.Counting.{CountsRead};

use crate::sink::Failed;

/// A reader that tells what is still to come, where that is known, and counts its failed calls.
pub trait Source {
    /// The bytes still to come, where they are known.
    ghost coming: { Self → Option (List ℕ) };

    /// How many calls failed.
    ghost failures: { Self → ℕ };

    /// Reads into a front of the buffer, and says how long it is: 0 at the end, and only there where what
    /// is to come is known.
    fn read(&mut self, buffer: &mut [u8]) -> Result<usize, Failed>
        requires { 0 < length buffer.old }
        ensures bound { IfOk result (λ n. n ≤ length buffer.new) }
        ensures bytes { ReadConsumes (coming self.old) (coming self.new) result buffer.new }
        ensures counted { CountsRead (failures self.old) (failures self.new) result };
}
