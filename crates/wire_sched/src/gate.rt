//! What a worker calls before it serves a process.

use wire_types::Proc;

/// Lets one process after another through. A test may hold a worker here, until another has come.
pub trait Gate {
    /// Called before this worker serves this process, and in a turn before it looks whether that for which the process
    /// waits has come; always before it waits for a lock. Workers count from 0. The collector, which serves what the
    /// workers of a round left, calls it with the number of workers, which is no worker's.
    fn pass(&self, worker: usize, proc: Proc);
}

/// A gate that does nothing.
#[derive(Clone, Copy, Drop)]
pub struct OpenGate;

impl Gate for OpenGate {
    fn pass(&self, _worker: usize, _proc: Proc) {}
}
