//! The script of one process.

ghost use Rattle.std.specs.Prelude.{◌≡◌};

use std::marker::Model;
use wire_types::Call;

/// A process: the numbers of its job and of its node, its rank in the job, and its calls in order.
pub struct Process {
    job: u32,
    rank: u32,
    node: u32,
    calls: Vec<Call>,
}

// By hand and not derived: so dropping one is a call, and the proof of a function that drops one doesn't take it apart.
impl Drop for Process {
    fn drop(self) {
        let Process {
            job: _,
            rank: _,
            node: _,
            calls: _,
        } = self;
    }
}

impl Model for Process {
    ghost use Rattle.wire_scripts.specs.Process as spec;

    ghost Value = { spec.Process };

    ghost view = { λ p. record { job = p.job; rank = p.rank; node = p.node; calls = p.calls.items } };
}

impl Process {
    /// A process of this job, with its rank there, its node and its calls.
    pub fn new(job: u32, rank: u32, node: u32, calls: Vec<Call>) -> Process
        ensures { result ≡ record { job = job; rank = rank; node = node; calls = calls.items } }
    {
        Process {
            job,
            rank,
            node,
            calls,
        }
    }

    /// The number of its job.
    pub fn job(&self) -> u32
        ensures { result ≡ self.now.job }
    {
        self.job
    }

    /// Its rank in its job, from 0 (PMIX_RANK).
    pub fn rank(&self) -> u32
        ensures { result ≡ self.now.rank }
    {
        self.rank
    }

    /// The number of its node.
    pub fn node(&self) -> u32
        ensures { result ≡ self.now.node }
    {
        self.node
    }

    /// Its calls, in their order.
    pub fn calls(&self) -> &[Call]
        ensures { result.now ≡ self.now.calls }
    {
        self.calls.as_slice()
    }
}

/// Puts a process on the node of this number.
pub(crate) fn move_to(process: &mut Process, node: u32)
    ensures { process.new ≡ record process.old { node = node } }
{
    process.node = node;
}

impl PartialEq for Process {
    ghost use Rattle.wire_scripts.specs.Same.{same_process, processes_alike};

    ghost eq = { same_process };

    ghost laws = { processes_alike };

    fn eq(&self, other: &Process) -> bool {
        self.job == other.job
            && self.rank == other.rank
            && self.node == other.node
            && self.calls.as_slice() == other.calls.as_slice()
    }
}
