//! What the map keeps of each process.

ghost use Rattle.std.specs.Prelude.{◌≡◌, ◌==◌, ◌&&◌, ◌<◌, ◌+◌, ◌^◌, [], length, take, count_by, position, IfOk, OnOk};
ghost use Rattle.wire_types.specs.Replies as replies;
ghost use Rattle.wire_procmap.specs.Rows as rows;
ghost use Rattle.wire_procmap.specs.Tallies.{job_of, IsTally, AreCounts};

use crate::key::KeyKind;
use crate::tally::Tally;
use std::alloc::{AllocError, Global};
use wire_scripts::Process;
use wire_types::{Reply, Status, Value};

/// The numbers of one process, and how many processes its job has.
#[derive(Clone, Copy)]
pub(crate) struct ProcessNumbers {
    pub job: u32,
    pub node: u32,
    pub rank: u32,
    pub local_rank: u32,
    pub node_rank: u32,
    pub job_size: u32,
}

impl ProcessNumbers {
    /// What a get of a key of this kind replies of this process.
    pub(crate) fn reply(self, kind: KeyKind) -> Reply
        ensures { result ≡ rows.reply_of self kind }
    {
        match kind {
            KeyKind::Rank => success_with(Value::Number(self.rank)),
            KeyKind::LocalRank => success_with(Value::Number(self.local_rank)),
            KeyKind::NodeRank => success_with(Value::Number(self.node_rank)),
            KeyKind::JobSize => success_with(Value::Number(self.job_size)),
            KeyKind::Hostname => success_with(Value::NodeName(self.node)),
            KeyKind::Plain | KeyKind::Other => not_found(),
        }
    }
}

/// The reply of a success that brings this value.
fn success_with(value: Value) -> Reply
    ensures { result ≡ replies.success_with value }
{
    Reply {
        status: Status::Success,
        value,
    }
}

/// The reply that brings nothing, since nothing was found.
fn not_found() -> Reply
    ensures { result ≡ replies.bare Status.NotFound }
{
    Reply {
        status: Status::NotFound,
        value: Value::Nothing,
    }
}

/// The processes so far: how many there are of each job, on each node, and of each job on each node.
pub(crate) struct Counts {
    jobs: Tally,
    nodes: Tally,
    both: Tally,
}

// By hand and not derived: so dropping one is a call, and the proof of a function that drops one doesn't take it apart.
impl Drop for Counts {
    fn drop(self) {
        let Counts {
            jobs: _,
            nodes: _,
            both: _,
        } = self;
    }
}

impl Counts {
    /// No process is counted.
    fn new(alloc: Global) -> Counts
        ensures { AreCounts [] result }
    {
        Counts {
            jobs: Tally::new(alloc),
            nodes: Tally::new(alloc),
            both: Tally::new(alloc),
        }
    }

    /// Counts the process of this number, where those before it are counted. Its row, where these are the
    /// sizes of the jobs.
    fn row_of(
        &mut self,
        sizes: &Tally,
        processes: &[Process],
        index: usize,
    ) -> Result<ProcessNumbers, AllocError>
        requires few { length processes.now < 2 ^ 31 }
        requires there { index < length processes.now }
        requires sizes { IsTally job_of processes.now sizes.now }
        requires before { AreCounts (take index processes.now) self.old }
        ensures row { IfOk result (λ row. row ≡ rows.row_of processes.now index) }
        ensures counted { OnOk result (AreCounts (take (index + 1) processes.now) self.new) }
    {
        let job = processes[index].job();
        let node = processes[index].node();
        let rank = self.jobs.add((0, job))?;
        let local_rank = self.both.add((job, node))?;
        let node_rank = self.nodes.add((0, node))?;
        Ok(ProcessNumbers {
            job,
            node,
            rank,
            local_rank,
            node_rank,
            job_size: sizes.count((0, job)),
        })
    }
}

/// How many processes each job has.
fn job_sizes(alloc: Global, processes: &[Process]) -> Result<Tally, AllocError>
    requires { length processes.now < 2 ^ 31 }
    ensures { IfOk result (λ sizes. IsTally job_of processes.now sizes) }
{
    let mut sizes = Tally::new(alloc);
    for process in processes {
        sizes.add((0, process.job()))?;
    }
    Ok(sizes)
}

/// The row of each process, in process order.
pub(crate) fn rows_of(
    alloc: Global,
    processes: &[Process],
) -> Result<Vec<ProcessNumbers>, AllocError>
    requires { length processes.now < 2 ^ 31 }
    ensures { IfOk result (λ made. made.items ≡ rows.rows_of processes.now) }
{
    let sizes = job_sizes(alloc, processes)?;
    let mut counts = Counts::new(alloc);
    let mut made = Vec::with_capacity(alloc, processes.len())?;
    for index in 0..processes.len() {
        made.push(counts.row_of(&sizes, processes, index)?)?;
    }
    Ok(made)
}

/// How many rows are of the job.
pub(crate) fn size_in(rows: &[ProcessNumbers], job: u32) -> u32
    requires { length rows.now < 2 ^ 31 }
    ensures { result ≡ count_by (λ r. r.job == job) rows.now }
{
    rows.iter().filter(|row| row.job == job).count() as u32
}

/// The number of the first row of the job and the rank.
pub(crate) fn place_in(rows: &[ProcessNumbers], job: u32, rank: u32) -> Option<usize>
    ensures { result ≡ position (λ r. (r.job == job) && (r.rank == rank)) rows.now }
{
    rows.iter()
        .position(|row| row.job == job && row.rank == rank)
}
