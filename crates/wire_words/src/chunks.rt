//! Texts that are written in chunks.

ghost use Rattle.std.specs.Prelude.{◌≡◌, ◌+◌, ◌≤◌, ◌<◌, ◌^◌, [], length, vec_capacity, IfOk, OnOk, IfErr, OnErr};
ghost use Rattle.wire_types.specs.Counting.{one_more};
ghost use Rattle.wire_words.specs.Chunks.{StaysOnItsWay, IsCutOff};

use std::alloc::{AllocError, Global};
use wire_types::{Sink, write_out};

/// The last part so far of a text that is written in chunks: what waits to be written, and how many bytes of
/// the text were written before.
#[derive(Drop)]
pub struct Chunk {
    /// The bytes that wait.
    pub waiting: Vec<u8>,
    /// How many bytes of the text were written before them.
    pub gone: u64,
}

impl Chunk {
    /// An empty chunk with room for so many bytes: the only call here that takes memory. The one error is that
    /// memory ran out.
    pub fn new(alloc: Global, room: usize) -> Result<Chunk, AllocError>
        ensures nothing { IfOk result (λ chunk. (chunk.waiting.items ≡ []) × (chunk.gone ≡ 0)) }
        ensures room { IfOk result (λ chunk. room ≤ vec_capacity chunk.waiting) }
    {
        Ok(Chunk {
            waiting: Vec::with_capacity(alloc, room)?,
            gone: 0,
        })
    }

    /// Writes what waits. An error says how many bytes of the whole text went out. The chunk is then as it was,
    /// and since a part of what waits may have gone out, it isn't to be written again. The caller ensures that the
    /// text so far has fewer than 2^64 bytes.
    pub fn flush<S: Sink>(&mut self, sink: &mut S) -> Result<(), u64>
        requires { self.old.gone + length self.old.waiting.items < 2 ^ 64 }
        ensures ok { OnOk result (StaysOnItsWay (S.written sink.old) (S.written sink.new) self.old self.new) }
        ensures nothing { OnOk result (self.new.waiting.items ≡ []) }
        ensures capacity { vec_capacity self.new.waiting ≡ vec_capacity self.old.waiting }
        ensures quiet { OnOk result (S.failures sink.new ≡ S.failures sink.old) }
        ensures err { IfErr result (λ n. IsCutOff (S.written sink.old) (S.written sink.new) self.old n) }
        ensures failed { OnErr result (S.failures sink.new ≡ one_more (S.failures sink.old)) }
        ensures kept { OnErr result (self.new ≡ self.old) }
    {
        match write_out(sink, self.waiting.as_slice()) {
            Ok(()) => {
                self.gone += self.waiting.len() as u64;
                self.waiting.clear();
                Ok(())
            }
            Err(n) => Err(self.gone + n),
        }
    }

    /// Makes room for so many bytes: where they have none, it writes what waits. An error says how many bytes
    /// of the whole text went out. The chunk is then as it was, and isn't to be written again. The caller ensures
    /// that the chunk was made with room for so many, and that the text so far has fewer than 2^64 bytes.
    pub fn make_room<S: Sink>(&mut self, wanted: usize, sink: &mut S) -> Result<(), u64>
        requires fits { wanted ≤ vec_capacity self.old.waiting }
        requires counted { self.old.gone + length self.old.waiting.items < 2 ^ 64 }
        ensures ok { OnOk result (StaysOnItsWay (S.written sink.old) (S.written sink.new) self.old self.new) }
        ensures room { OnOk result (length self.new.waiting.items + wanted ≤ vec_capacity self.new.waiting) }
        ensures capacity { vec_capacity self.new.waiting ≡ vec_capacity self.old.waiting }
        ensures quiet { OnOk result (S.failures sink.new ≡ S.failures sink.old) }
        ensures err { IfErr result (λ n. IsCutOff (S.written sink.old) (S.written sink.new) self.old n) }
        ensures failed { OnErr result (S.failures sink.new ≡ one_more (S.failures sink.old)) }
        ensures kept { OnErr result (self.new ≡ self.old) }
    {
        if self.waiting.capacity() - self.waiting.len() < wanted {
            return self.flush(sink);
        }
        Ok(())
    }
}
