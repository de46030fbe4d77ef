//! A round, and the passes of its workers.

ghost use Rattle.std.specs.Prelude.{◌≡◌, ◌<◌, ◌≤◌, [], vec_capacity, vec_len};

use crate::deques::{drain, give_permits, join_all, start_all, steal_from, take_front};
use crate::rule::{Owner, Permit, Piece, Thief};
use std::alloc::Global;
use wire_types::Fault;

/// One round of work: a deque for each worker, from which the others steal. It is shared by all workers.
#[derive(Drop)]
pub struct StealRound {
    pub(crate) round: u64,
    pub(crate) ranks: u32,
    pub(crate) thieves: Vec<Thief>,
    pub(crate) left: Vec<Piece>,
    ghost staffed: { 0 < vec_len thieves },
    ghost empty: { left.items ≡ [] },
    ghost room: { ranks ≤ vec_capacity left },
}

/// What one worker holds of a round: its own deque, and a permit for each deque.
pub struct Pass {
    pub(crate) worker: usize,
    pub(crate) own: Owner,
    pub(crate) permits: Vec<Permit>,
}

// By hand and not derived: so dropping one is a call, and the proof of a function that drops one doesn't take it apart.
impl Drop for Pass {
    fn drop(self) {
        let Pass {
            worker: _,
            own: _,
            permits: _,
        } = self;
    }
}

/// What an attempt to steal gives: a piece, that there was none, or that another worker was faster. After `Again` it
/// may be tried again.
#[must_use]
#[derive(Clone, Copy)]
pub enum Take {
    Got(Piece),
    Empty,
    Again,
}

impl StealRound {
    ghost use Rattle.std.specs.Prelude.{◌≡◌, ◌≢◌, ◌<◌, ◌++◌, [], IfOk, IfSome, IsOkUnless, MatchOption};
    ghost use Rattle.std.specs.List.{All};
    ghost use Rattle.std.specs.List.Sorted.{IsPermutation};
    ghost use Rattle.wire_rounds.specs.Rounds.{ranks_of, workers_of, worker_of, pieces_of, IsPieceOf, IsDealOf};
    ghost use Rattle.wire_rounds.specs.Rounds.{IsPassOf, ArePassesOf};
    ghost use Rattle.wire_rounds.specs.Rounds.{MatchTake, IfGot, TookOwn, TookAt, TookNone};
    ghost use Rattle.wire_rounds.specs.Taken.{taken_by_all, rest_of_all};

    /// Deals one piece for each of the first `ranks` processes: that of process r goes to the deque of worker r modulo
    /// `workers`, in process order. Each piece has the number `round`. Gives one pass for each worker, in order.
    /// Workers count from 0. The caller ensures that there is one at least. The only error is `Fault::Memory`.
    pub fn deal(
        alloc: Global,
        round: u64,
        ranks: u32,
        workers: usize,
    ) -> Result<(StealRound, Vec<Pass>), Fault>
        requires { 0 < workers }
        ensures deal { IfOk result (λ r. IsDealOf round ranks workers r.0) }
        ensures passes { IfOk result (λ r. ArePassesOf r.0 r.1.items) }
        ensures fresh { IfOk result (λ r. taken_by_all r.1.items ≡ []) }
        ensures memory { IsOkUnless result Fault.Memory }
    {
        let left = Vec::with_capacity(alloc, ranks as usize)?;
        let (mut passes, thieves) = start_all(alloc, round, ranks, workers)?;
        give_permits(alloc, &mut passes)?;
        let dealt = StealRound {
            round,
            ranks,
            thieves,
            left,
        };
        Ok((dealt, passes))
    }

    /// How many workers, and deques, the round has.
    pub fn workers(&self) -> usize
        ensures { result ≡ workers_of self.now }
    {
        self.thieves.len()
    }

    /// How many processes have a piece in the round: the first ones.
    pub fn ranks(&self) -> u32
        ensures { result ≡ ranks_of self.now }
    {
        self.ranks
    }

    /// Takes the front piece of the worker's own deque, or tells that there is none. What a pass takes of one deque
    /// rises by process.
    pub fn own_take(&self, pass: &mut Pass) -> Option<Piece>
        requires { IsPassOf self.now pass.old }
        ensures kept { IsPassOf self.now pass.new × (worker_of pass.new ≡ worker_of pass.old) }
        ensures took { MatchOption result (TookNone pass.old pass.new) (TookOwn pass.old pass.new) }
        ensures piece { IfSome result (IsPieceOf self.now) }
    {
        take_front(&mut pass.own)
    }

    /// Tries to take the front piece of the deque of worker number `victim`. The caller ensures that this is another
    /// worker of the round. What a pass takes of one deque rises by process.
    pub fn steal_take(&self, pass: &mut Pass, victim: usize) -> Take
        requires pass { IsPassOf self.now pass.old }
        requires victim { (victim < workers_of self.now) × (victim ≢ worker_of pass.old) }
        ensures kept { IsPassOf self.now pass.new × (worker_of pass.new ≡ worker_of pass.old) }
        ensures took { MatchTake result (TookAt victim pass.old pass.new) (TookNone pass.old pass.new) }
        ensures piece { IfGot result (IsPieceOf self.now) }
    {
        steal_from(&self.thieves[victim], &mut pass.permits[victim])
    }

    /// Gives the pieces that nobody took, deque by deque, each front to back. The caller hands in all passes of the
    /// round, in the order of their workers. Each piece of the deal then stands once, in what one pass took or in what
    /// is given, and no other piece does.
    pub fn finish(self, passes: Vec<Pass>) -> Vec<Piece>
        requires { ArePassesOf self passes.items }
        ensures once { IsPermutation (pieces_of self) (taken_by_all passes.items ++ result.items) }
        ensures order { result.items ≡ rest_of_all self passes.items }
        ensures pieces { All (IsPieceOf self) result.items }
    {
        let mut passes = passes;
        join_all(&mut passes);
        let StealRound {
            round: _,
            ranks: _,
            thieves: _,
            mut left,
        } = self;
        'deques: for i in 0..passes.len() {
            drain(&mut passes[i].own, &mut left);
        }
        left
    }
}

impl Pass {
    ghost use Rattle.std.specs.Prelude.{◌≡◌};
    ghost use Rattle.wire_rounds.specs.Rounds.{worker_of};

    /// The number of its worker, from 0.
    pub fn worker(&self) -> usize
        ensures { result ≡ worker_of self.now }
    {
        self.worker
    }
}
