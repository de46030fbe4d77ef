//! What was read, and why reading failed, kept for the explanation of a fault.

use std::alloc::Global;
use std::io;
use std::io::Read;
use wire_types::Fault;

/// A copy of what was read, where one is wanted and memory serves, and the error for which opening or reading failed.
#[derive(Drop)]
pub struct Kept {
    pub bytes: Option<Vec<u8>>,
    pub error: Option<io::Error>,
}

impl Kept {
    /// An empty copy, or none where none is wanted.
    pub fn new(alloc: Global, wanted: bool) -> Kept {
        let bytes = if wanted { Some(Vec::new(alloc)) } else { None };
        let error = None;
        Kept { bytes, error }
    }

    /// What was opened. Each error of the system is the fault `Read`, and kept.
    pub fn judge_opened<T>(&mut self, opened: io::Result<T>) -> Result<T, Fault> {
        match opened {
            Ok(value) => Ok(value),
            Err(error) => {
                self.error = Some(error);
                Err(Fault::Read)
            }
        }
    }

    /// Keeps these bytes too. Where memory fails, nothing is kept from then on.
    fn add(&mut self, bytes: &[u8]) {
        let is_kept = match &mut self.bytes {
            Some(kept) => kept.extend_from_slice(bytes).is_ok(),
            None => true,
        };
        if !is_kept {
            self.bytes = None;
        }
    }
}

/// A reader of which a copy is kept.
#[derive(Drop)]
pub struct KeptReader<'k, T> {
    inner: T,
    kept: &'k mut Kept,
}

impl<'k, T: Read> KeptReader<'k, T> {
    /// A reader whose bytes are kept there.
    pub fn new(inner: T, kept: &'k mut Kept) -> Self {
        KeptReader { inner, kept }
    }
}

impl<T: Read> Read for KeptReader<'_, T> {
    fn read(&mut self, buffer: &mut [u8]) -> io::Result<usize> {
        let answer = self.inner.read(buffer);
        match &answer {
            Ok(count) => {
                if *count <= buffer.len() {
                    self.kept.add(&buffer[..*count]);
                }
            }
            Err(error) => self.kept.error = Some(*error),
        }
        answer
    }
}
