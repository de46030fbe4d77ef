//! Readers and writers in memory, for tests.

ghost use Rattle.std.specs.Prelude.{◌≡◌, ℕ, ◌-◌, ◌<◌, ◌≤◌, min, max, List, Option, None, Some, false, IfOk, length};
ghost use Rattle.std.specs.Prelude.{drop, take};
ghost use Rattle.wire_types.specs.Counting.{one_more};

use crate::sink::{Failed, Sink};
use crate::source::Source;

/// How many bytes one call moves: as many as are wanted and there are, but at most so many a call, and
/// at least one where it can.
fn size_of_call(per_call: usize, wanted: usize, there: usize) -> usize
    ensures { result ≡ min (min (max per_call 1) wanted) there }
{
    per_call.max(1).min(wanted).min(there)
}

/// A reader of bytes in memory: at most so many bytes a call, and a failure at one call or after so many bytes.
#[derive(Drop)]
pub struct MemorySource<'a> {
    pub bytes: &'a [u8],
    pub per_call: usize,
    /// The call that fails, counted from 1; 0 for none.
    pub fails_at: u64,
    /// How many bytes it still gives before it fails.
    pub room: usize,
    pub calls: u64,
    pub failures: u64,
}

impl<'a> MemorySource<'a> {
    /// A reader that gives all at once, and doesn't fail.
    pub fn new(bytes: &'a [u8]) -> MemorySource<'a>
        ensures { result ≡ record { bytes = bytes.entry; per_call = usize.MAX; fails_at = 0; room = usize.MAX; calls = 0; failures = 0 } }
    {
        MemorySource {
            bytes,
            per_call: usize::MAX,
            fails_at: 0,
            room: usize::MAX,
            calls: 0,
            failures: 0,
        }
    }
}

impl Source for MemorySource<'_> {
    ghost coming = { λ s. Some s.bytes.now };

    ghost failures = { λ s. s.failures };

    fn read(&mut self, buffer: &mut [u8]) -> Result<usize, Failed> {
        self.calls = self.calls.saturating_add(1);
        if self.calls == self.fails_at || self.room == 0 {
            self.failures = self.failures.saturating_add(1);
            return Err(Failed);
        }
        let n = size_of_call(self.per_call, buffer.len(), self.bytes.len().min(self.room));
        let (front, rest) = self.bytes.split_at(n);
        buffer[..n].copy_from_slice(front);
        self.bytes = rest;
        self.room -= n;
        Ok(n)
    }
}

/// A writer to memory: at most so many bytes a call, and a failure at one call or after so many bytes.
/// It takes no memory where its `bytes` have the capacity for all that comes.
#[derive(Drop)]
pub struct MemorySink {
    pub bytes: Vec<u8>,
    pub per_call: usize,
    /// The call that fails, counted from 1; 0 for none.
    pub fails_at: u64,
    /// How many bytes it still takes before it fails.
    pub room: usize,
    /// Whether it takes nothing in place of failing.
    pub takes_nothing: bool,
    pub calls: u64,
    pub failures: u64,
}

impl MemorySink {
    /// A writer after these bytes, that takes all at once, and doesn't fail.
    pub fn new(bytes: Vec<u8>) -> MemorySink
        ensures { result ≡ record { bytes = bytes; per_call = usize.MAX; fails_at = 0; room = usize.MAX; takes_nothing = false; calls = 0; failures = 0 } }
    {
        MemorySink {
            bytes,
            per_call: usize::MAX,
            fails_at: 0,
            room: usize::MAX,
            takes_nothing: false,
            calls: 0,
            failures: 0,
        }
    }

    /// Counts a failed call.
    fn fail(&mut self) -> Result<usize, Failed>
        ensures counted { self.new ≡ record self.old { failures = one_more self.old.failures } }
        ensures nothing { IfOk result (λ n. n ≡ 0) }
    {
        self.failures = self.failures.saturating_add(1);
        if self.takes_nothing {
            Ok(0)
        } else {
            Err(Failed)
        }
    }
}

impl Sink for MemorySink {
    ghost written = { λ s. Some s.bytes.items };

    ghost failures = { λ s. s.failures };

    fn write(&mut self, bytes: &[u8]) -> Result<usize, Failed> {
        self.calls = self.calls.saturating_add(1);
        let n = size_of_call(self.per_call, bytes.len(), self.room);
        if n == 0 || self.calls == self.fails_at {
            return self.fail();
        }
        if self.bytes.extend_from_slice(&bytes[..n]).is_err() {
            return self.fail();
        }
        self.room -= n;
        Ok(n)
    }
}

/// A reader that never ends: the same byte again and again, as many as the buffer holds.
#[derive(Drop)]
pub struct EndlessSource {
    pub byte: u8,
}

/// Writes one byte all over the buffer, and says how long it is.
fn fill(buffer: &mut [u8], byte: u8) -> usize
    ensures { result ≡ length buffer.new }
{
    for place in buffer.iter_mut() {
        *place = byte;
    }
    buffer.len()
}

impl Source for EndlessSource {
    ghost coming = { λ _. None };

    ghost failures = { λ _. 0 };

    fn read(&mut self, buffer: &mut [u8]) -> Result<usize, Failed> {
        Ok(fill(buffer, self.byte))
    }
}
